// Pages of call records, run on a book.

#![tactic(auto)]

mod calls;
mod faults;
mod page;
mod performing;
mod printing;
mod records;

pub use calls::{Answer, Call, Kind};
pub use faults::{At, PageFault, Reply, RunFault};
pub use page::run;
pub use performing::perform;
pub use printing::{report, text};
pub use records::decode;

// The change book: a show's tables while some changes are neither committed nor aborted.

#![tactic(auto)]

mod book;
mod change;
mod faults;
mod filter;
mod line;
mod pending;
mod row;
mod selection;
mod tables;
mod update;
mod vote;

pub use book::{Book, check_making};
pub use change::RawChange;
pub use faults::{BookFault, ChangeFault, FilterFault};
pub use filter::RawFilter;
pub use line::Line;
pub use pending::Pending;
pub use row::Row;
pub use vote::Vote;

ghost use Rattle.std.specs.Prelude.{◌≡◌};
ghost use Rattle.run.specs.declared.faults.RunFault.TheVariants.{OnPage, InBook};
ghost use Rattle.run.specs.Faults.{page_refusal, run_refusal};

use crate::calls::Answer;
use book::BookFault;

// Why a record could not be read.
#[derive(Clone, Copy)]
pub enum PageFault {
    CutShort,
    UnknownKind,
}

// A fault, with the place and the kind of its record. These two stand in a reply as well: a type for them would be one more
// name on the way to each.
#[derive(Clone, Copy)]
pub struct At<F> {
    pub place: usize,
    // The byte that was read, and no `Kind`: it may name none.
    pub kind: u8,
    pub fault: F,
}

// Why a record was refused.
#[derive(Clone, Copy)]
pub enum RunFault {
    OnPage(At<PageFault>),
    InBook(At<BookFault>),
}

// What is told of a record.
#[derive(Clone, Copy)]
pub struct Reply {
    pub place: usize,
    // The byte that was read, and no `Kind`: it may name none.
    pub kind: u8,
    pub outcome: Result<Answer, RunFault>,
}

// Written out: a derived `From` would have no contract.
impl From<At<PageFault>> for RunFault {
    ghost from_gives = { λ e r. r ≡ OnPage e };

    fn from(e: At<PageFault>) -> RunFault {
        RunFault::OnPage(e)
    }
}

impl From<At<BookFault>> for RunFault {
    ghost from_gives = { λ e r. r ≡ InBook e };

    fn from(e: At<BookFault>) -> RunFault {
        RunFault::InBook(e)
    }
}

impl PageFault {
    // A method and no `From`: a refusal has a number, and carries more.
    pub fn number(self) -> u8
        ensures { result ≡ (page_refusal self).number }
    {
        match self {
            PageFault::CutShort => 12,
            PageFault::UnknownKind => 13,
        }
    }
}

impl RunFault {
    // A method, as that of a fault of a page.
    pub fn number(self) -> u8
        ensures { result ≡ (run_refusal self).number }
    {
        match self {
            RunFault::OnPage(e) => e.fault.number(),
            RunFault::InBook(e) => e.fault.number(),
        }
    }
}

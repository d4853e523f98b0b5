ghost use Rattle.std.specs.Prelude.{◌≡◌, ok_or};
ghost use Rattle.run.specs.declared.faults.PageFault.TheVariants.{UnknownKind};
ghost use Rattle.run.specs.Records.{kind_of, body_size};

use crate::faults::PageFault;
use book::{RawChange, RawFilter, Row};

// A call of a book, with any arguments.
#[derive(Clone, Copy)]
pub enum Call {
    Open,
    Insert {
        number: u32,
        table: u8,
        row: Row,
    },
    Delete {
        number: u32,
        table: u8,
        filter: RawFilter,
    },
    Update {
        number: u32,
        table: u8,
        filter: RawFilter,
        change: RawChange,
    },
    Decide {
        number: u32,
        word: u8,
    },
    Vote {
        number: u32,
    },
    Count {
        table: u8,
        choice: u8,
    },
}

// What a call answers: the number given, the lines now in use, a vote, or how many rows there are.
#[derive(Clone, Copy)]
pub enum Answer {
    Opened(u32),
    Lines(usize),
    Voted(book::Vote),
    Rows(usize),
}

// The kinds of records.
#[derive(Clone, Copy)]
pub enum Kind {
    OpenKind,
    InsertKind,
    DeleteKind,
    UpdateKind,
    DecideKind,
    VoteKind,
    CountKind,
}

impl TryFrom<u8> for Kind {
    type Error = PageFault;

    ghost try_from_gives = { λ byte r. r ≡ ok_or (kind_of byte) UnknownKind };

    fn try_from(byte: u8) -> Result<Kind, PageFault> {
        match byte {
            1 => Ok(Kind::OpenKind),
            2 => Ok(Kind::InsertKind),
            3 => Ok(Kind::DeleteKind),
            4 => Ok(Kind::UpdateKind),
            5 => Ok(Kind::DecideKind),
            6 => Ok(Kind::VoteKind),
            7 => Ok(Kind::CountKind),
            _ => Err(PageFault::UnknownKind),
        }
    }
}

impl Kind {
    // The kind of this byte, if there is one.
    pub fn of(byte: u8) -> Option<Kind>
        ensures { result ≡ kind_of byte }
    {
        Kind::try_from(byte).ok()
    }

    // How many bytes the body has.
    pub fn size(self) -> usize
        ensures { result ≡ body_size self }
    {
        match self {
            Kind::OpenKind => 0,
            Kind::InsertKind => 21,
            Kind::DeleteKind => 14,
            Kind::UpdateKind => 20,
            Kind::DecideKind => 5,
            Kind::VoteKind => 4,
            Kind::CountKind => 2,
        }
    }
}

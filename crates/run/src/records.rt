ghost use Rattle.std.specs.Prelude.{◌≡◌, length};
ghost use Rattle.std.specs.Iterator.{YieldsFirst, item_count};
ghost use Rattle.run.specs.Runs.{records_within};
ghost use Rattle.run.specs.Records.{number_of, row_of, filter_of, change_of, body_size, call_of, decoded};

use crate::calls::{Call, Kind};
use crate::faults::PageFault;
use book::{RawChange, RawFilter, Row};

// The number of four bytes, the highest first. Each reader is given just its bytes, as a slice: an array would have to be made
// of one first, which may fail.
fn number(bytes: &[u8]) -> u32
    requires { length bytes.now ≡ 4 }
    ensures { result ≡ number_of bytes.now }
{
    u32::from_be_bytes([bytes[0], bytes[1], bytes[2], bytes[3]])
}

fn row(bytes: &[u8]) -> Row
    requires { length bytes.now ≡ 16 }
    ensures { result ≡ row_of bytes.now }
{
    Row {
        first: number(&bytes[..4]),
        second: number(&bytes[4..8]),
        third: number(&bytes[8..12]),
        fourth: number(&bytes[12..16]),
    }
}

fn filter(bytes: &[u8]) -> RawFilter
    requires { length bytes.now ≡ 9 }
    ensures { result ≡ filter_of bytes.now }
{
    RawFilter {
        field: bytes[0],
        low: number(&bytes[1..5]),
        high: number(&bytes[5..9]),
    }
}

fn change(bytes: &[u8]) -> RawChange
    requires { length bytes.now ≡ 6 }
    ensures { result ≡ change_of bytes.now }
{
    RawChange {
        field: bytes[0],
        operation: bytes[1],
        amount: number(&bytes[2..6]),
    }
}

fn read(kind: Kind, body: &[u8]) -> Call
    requires { length body.now ≡ body_size kind }
    ensures { result ≡ call_of kind body.now }
{
    match kind {
        Kind::OpenKind => Call::Open,
        Kind::InsertKind => Call::Insert {
            number: number(&body[..4]),
            table: body[4],
            row: row(&body[5..21]),
        },
        Kind::DeleteKind => Call::Delete {
            number: number(&body[..4]),
            table: body[4],
            filter: filter(&body[5..14]),
        },
        Kind::UpdateKind => Call::Update {
            number: number(&body[..4]),
            table: body[4],
            filter: filter(&body[5..14]),
            change: change(&body[14..20]),
        },
        Kind::DecideKind => Call::Decide {
            number: number(&body[..4]),
            word: body[4],
        },
        Kind::VoteKind => Call::Vote {
            number: number(body),
        },
        Kind::CountKind => Call::Count {
            table: body[0],
            choice: body[1],
        },
    }
}

// The record at a place of the page, and the place behind it.
#[tactic(auto, unfolding(crate::specs::Records::decoded))]
pub fn decode(page: &[u8], at: usize) -> Result<(Call, usize), PageFault>
    ensures { result ≡ decoded page.now at }
{
    let byte = *page.get(at).ok_or(PageFault::UnknownKind)?;
    let kind = Kind::try_from(byte)?;
    let size = kind.size();
    let behind = &page[at + 1..];
    let body = behind.get(..size).ok_or(PageFault::CutShort)?;
    Ok((read(kind, body), at + 1 + size))
}

// A record of a page: its place, its kind, and what was read, with the place behind it. No `At`: what was read is no fault.
#[derive(Clone, Copy)]
pub(crate) struct Record {
    pub(crate) place: usize,
    // The byte: it may name no kind.
    pub(crate) kind: u8,
    pub(crate) read: Result<(Call, usize), PageFault>,
}

// The records of a page from a place on. One that cannot be read is the last.
#[derive(Clone, Copy)]
pub(crate) struct Records<'a> {
    pub(crate) page: &'a [u8],
    pub(crate) at: usize,
}

impl<'a> Iterator for Records<'a> {
    type Item = Record;

    ghost next_gives = { YieldsFirst (λ s. records_within s.page.now s.at) };

    ghost remaining = { item_count (λ s. records_within s.page.now s.at) };

    #[tactic(auto, using(crate::proofs::Running::one_by_one))]
    fn next(&mut self) -> Option<Record> {
        let page = self.page;
        let place = self.at;
        let kind = *page.get(place)?;
        let read = decode(page, place);
        self.at = read.map_or(page.len(), |(_, next)| next);
        Some(Record { place, kind, read })
    }
}

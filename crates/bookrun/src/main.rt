#![tactic(auto)]

ghost use Rattle.std.specs.Prelude.{◌≡◌, ◌≤◌, take, IfOk, IfSome, string_bytes};
ghost use Rattle.book.specs.Calls.{fresh};
ghost use Rattle.run.specs.Runs.{records, replies};
ghost use Rattle.run.specs.Texts.{text_of};

use book::{Line, Row};
use conditions::{Condition, SignedPair};
use run::report;
use std::alloc::Global;
use std::io;
use std::io::{Read, Write};

// The most bytes of a page that are read.
const LIMIT: usize = 65536;

// The lines that the book works with.
const LINES: usize = 256;

// Reads until the input ends or the page is full, and says how much there was. The page is lent, so that reading takes no
// memory; and each read is offered all the room that is left, since an input that keeps messages apart drops what one read
// leaves of a message.
fn slurp<R: Read>(input: &mut R, page: &mut [u8; LIMIT]) -> io::Result<usize>
    ensures within { IfOk result (λ count. count ≤ 65536) }
    ensures bytes { IfOk result (λ count. IfSome (R.remaining input.old) (λ bytes. take count page.new ≡ take 65536 bytes)) }
{
    let mut count = 0;
    while count < LIMIT {
        let more = input.read(&mut page[count..])?;
        if more == 0 {
            return Ok(count);
        }
        count += more;
    }
    Ok(count)
}

// What is printed of a page: a line for each reply of a book of 256 lines whose first number is 1.
fn printed(heap: Global, page: &[u8]) -> io::Result<String>
    ensures { IfOk result (λ t. string_bytes t ≡ text_of (replies (records page.now) (fresh 256 1))) }
{
    let blank = Line {
        table: 0,
        row: Row::default(),
        condition: SignedPair::always(),
    };
    let mut lines = [blank; LINES];
    report(heap, &mut lines, 1, page)
}

fn main(rt: HostRuntime) -> io::Result<()> {
    let mut page = [0u8; LIMIT];
    let count = slurp(&mut rt.stdin(), &mut page)?;
    let text = printed(rt.alloc(), &page[..count])?;
    rt.stdout().write_all(text.as_bytes())
}

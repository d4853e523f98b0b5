ghost use Rattle.std.specs.Prelude.{◌≡◌, MatchResult};
ghost use Rattle.book.specs.Books.{state};
ghost use Rattle.run.specs.Runs.{outcome_of, reply_to, Taken, Paged};

use crate::calls::Answer;
use crate::faults::{At, Reply, RunFault};
use crate::performing::perform;
use crate::records::{Record, Records};
use book::Book;
use conditions::Condition;
use std::alloc::{AllocError, Global};

// What was read, done on the book.
fn outcome<C: Condition>(book: &mut Book<C>, item: Record) -> Result<Answer, RunFault>
    ensures told { result ≡ outcome_of item.place item.kind item.read (state C.Condition.meaning book.old) }
    ensures taken { Taken C.Condition.meaning item.read book.old book.new }
{
    let Record { place, kind, read } = item;
    // The same closure twice, over faults of two types: a closure has one.
    let (call, _) = read.map_err(|fault| At { place, kind, fault })?;
    let answer = perform(book, call).map_err(|fault| At { place, kind, fault })?;
    Ok(answer)
}

// The reply to a record of the page.
fn reply<C: Condition>(book: &mut Book<C>, item: Record) -> Reply
    ensures reply { result ≡ reply_to item (state C.Condition.meaning book.old) }
    ensures taken { Taken C.Condition.meaning item.read book.old book.new }
{
    Reply {
        place: item.place,
        kind: item.kind,
        outcome: outcome(book, item),
    }
}

// A whole page: one reply for each record. Where there is no memory for the replies, nothing is done.
#[tactic(auto, using(crate::proofs::Running::running))]
pub fn run<C: Condition>(
    heap: Global,
    book: &mut Book<C>,
    page: &[u8],
) -> Result<Vec<Reply>, AllocError>
    ensures { MatchResult result (λ v. Paged C.Condition.meaning page.now book.old book.new v.items) (λ _. book.new ≡ book.old) }
{
    let mut replies = Vec::with_capacity(heap, page.len())?;
    for item in (Records { page, at: 0 }) {
        replies.push_reserved(reply(book, item));
    }
    Ok(replies)
}

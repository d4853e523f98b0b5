ghost use Rattle.book.specs.Books.{Called};
ghost use Rattle.run.specs.Runs.{effect};

use crate::calls::{Answer, Call};
use book::{Book, BookFault};
use conditions::Condition;

// One call, done on the book.
pub fn perform<C: Condition>(book: &mut Book<C>, call: Call) -> Result<Answer, BookFault>
    ensures { Called C.Condition.meaning (effect call) book.old book.new result }
{
    match call {
        Call::Open => book.open().map(Answer::Opened),
        Call::Insert { number, table, row } => book.insert(number, table, row).map(Answer::Lines),
        Call::Delete {
            number,
            table,
            filter,
        } => book.delete(number, table, filter).map(Answer::Lines),
        Call::Update {
            number,
            table,
            filter,
            change,
        } => book
            .update(number, table, filter, change)
            .map(Answer::Lines),
        Call::Decide { number, word } => book.decide(number, word).map(Answer::Lines),
        Call::Vote { number } => book.vote(number).map(Answer::Voted),
        Call::Count { table, choice } => book.count(table, choice).map(Answer::Rows),
    }
}

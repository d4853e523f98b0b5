ghost use Rattle.std.specs.Prelude.{◌≡◌, ◌⊎◌, length, IfOk, Some, string_bytes, MatchResult};
ghost use Rattle.book.specs.Calls.{fresh};
ghost use Rattle.run.specs.Runs.{records, replies, LeftIn};
ghost use Rattle.run.specs.Texts.{answer_text, reply_text, text_of};

use crate::calls::Answer;
use crate::faults::Reply;
use crate::page::run;
use book::{Book, Line, Vote};
use conditions::Condition;
use std::alloc::Global;
use std::{fmt, io};

impl fmt::Display for Answer {
    ghost output = { λ a. Some (answer_text a) };

    fn fmt<W: fmt::Write>(&self, f: &mut fmt::Formatter<W>) -> fmt::Result {
        match self {
            Answer::Opened(number) => write!(f, "{number}"),
            Answer::Voted(Vote::Yes) => write!(f, "yes"),
            Answer::Voted(Vote::No(choice)) => write!(f, "no {choice}"),
            Answer::Lines(count) | Answer::Rows(count) => write!(f, "{count}"),
        }
    }
}

impl fmt::Display for Reply {
    ghost output = { λ r. Some (reply_text r) };

    fn fmt<W: fmt::Write>(&self, f: &mut fmt::Formatter<W>) -> fmt::Result {
        let Reply {
            place,
            kind,
            outcome,
        } = self;
        // Two cases and no method: each prints a line of its own.
        match outcome {
            Ok(answer) => write!(f, "{place} {kind} ok {answer}"),
            Err(fault) => write!(f, "{place} {kind} refused {}", fault.number()),
        }
    }
}

// One line for each reply.
pub fn text(heap: Global, replies: &[Reply]) -> Result<String, fmt::Error>
    ensures { IfOk result (λ t. string_bytes t ≡ text_of replies.now) }
{
    let mut text = String::new(heap);
    for reply in replies {
        writeln!(text, "{reply}")?;
    }
    Ok(text)
}

// What is printed of a page that is run on a new book over these lines. Where there is no memory for the text, the page
// has been run or not.
#[tactic(auto, using(std::proofs::lemmas::List::take_min))]
pub fn report<C: Condition>(
    heap: Global,
    lines: &mut [Line<C>],
    first: u32,
    page: &[u8],
) -> io::Result<String>
    ensures text { IfOk result (λ t. string_bytes t ≡ text_of (replies (records page.now) (fresh (length lines.old) first))) }
    ensures memory { MatchResult result (λ _. LeftIn C.Condition.meaning page.now first lines.old lines.new) (λ _. (lines.new ≡ lines.old) ⊎ LeftIn C.Condition.meaning page.now first lines.old lines.new) }
{
    let mut book = Book::make(lines, first);
    let replies = run(heap, &mut book, page)?;
    Ok(text(heap, replies.as_slice())?)
}

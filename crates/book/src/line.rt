ghost use Rattle.std.specs.Prelude.{◌≡◌, not};
ghost use Rattle.book.specs.Lines.{seen, shown, impossible, kept, inserted_line, ending};

use crate::row::Row;
use conditions::Condition;

// A row of a table, and the condition on which it holds.
#[derive(Clone, Copy)]
pub struct Line<C> {
    // Any number: a caller lends lines that may hold anything.
    pub table: u8,
    pub row: Row,
    pub condition: C,
}

impl<C: Condition> Line<C> {
    // A line that holds when the transaction at a position commits.
    pub(crate) fn inserted(position: u8, table: u8, row: Row) -> Line<C>
        ensures { seen C.Condition.meaning result ≡ inserted_line position table row }
    {
        Line {
            table,
            row,
            condition: C::always().narrowed(position, true),
        }
    }

    // The line, where the transaction at a position ends so.
    pub(crate) fn ending(self, position: u8, commits: bool) -> Line<C>
        ensures { seen C.Condition.meaning result ≡ ending position commits (seen C.Condition.meaning self) }
    {
        Line {
            condition: self.condition.narrowed(position, commits),
            ..self
        }
    }

    pub(crate) fn is_possible(&self) -> bool
        ensures { result ≡ not (impossible (seen C.Condition.meaning self.now)) }
    {
        !self.condition.impossible()
    }

    // The line, unless it is impossible.
    pub(crate) fn possible(self) -> Option<Line<C>>
        ensures { kept (seen C.Condition.meaning self) ≡ shown C.Condition.meaning result }
    {
        self.is_possible().then_some(self)
    }
}

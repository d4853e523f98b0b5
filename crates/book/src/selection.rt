ghost use Rattle.std.specs.Prelude.{◌≡◌};
ghost use Rattle.book.specs.Filters.{passes_checked};
ghost use Rattle.book.specs.Lines.{seen};
ghost use Rattle.book.specs.Writes.{touched};

use crate::filter::Filter;
use crate::line::Line;
use conditions::Condition;

// The rows of one table that pass.
#[derive(Clone, Copy)]
pub(crate) struct Selection {
    pub(crate) table: u8,
    pub(crate) filter: Filter,
}

impl Selection {
    pub(crate) fn touches<C: Condition>(&self, line: &Line<C>) -> bool
        ensures { result ≡ touched self.now.table (passes_checked self.now.filter) (seen C.Condition.meaning line.now) }
    {
        line.table == self.table && self.filter.passes(line.row)
    }
}

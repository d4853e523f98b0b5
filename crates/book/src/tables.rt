ghost use Rattle.std.specs.Prelude.{◌≡◌, not, ◌&&◌, map};
ghost use Rattle.book.specs.Lines.{seen};
ghost use Rattle.book.specs.Tables.{same_row, stands, rows, has, row_count};

use crate::line::Line;
use crate::row::Row;
use conditions::Condition;

// A table under a choice.
#[derive(Clone, Copy)]
pub(crate) struct View {
    pub(crate) table: u8,
    pub(crate) choice: u8,
}

impl View {
    // Whether the line is of the table, and holds under the choice.
    fn has_line<C: Condition>(self, line: &Line<C>) -> bool
        ensures { result ≡ stands self.table self.choice (seen C.Condition.meaning line.now) }
    {
        line.table == self.table && line.condition.holds(self.choice)
    }

    // Whether the line shows the row. Most rows differ in their first number.
    fn shows<C: Condition>(self, line: &Line<C>, row: Row) -> bool
        ensures { result ≡ (stands self.table self.choice (seen C.Condition.meaning line.now) && same_row line.now.row row) }
    {
        line.row.first == row.first && line.row == row && self.has_line(line)
    }

    fn has_row<C: Condition>(self, lines: &[Line<C>], row: Row) -> bool
        ensures { result ≡ has row (rows self.table self.choice (map (seen C.Condition.meaning) lines.now)) }
    {
        lines.iter().any(|line| self.shows(line, row))
    }

    // Whether the line is the last that shows its row.
    fn is_last<C: Condition>(self, line: &Line<C>, rest: &[Line<C>]) -> bool
        ensures { result ≡ (stands self.table self.choice (seen C.Condition.meaning line.now) && not (has line.now.row (rows self.table self.choice (map (seen C.Condition.meaning) rest.now)))) }
    {
        self.has_line(line) && !self.has_row(rest, line.row)
    }

    // How many distinct rows there are: each counts at its last line.
    // `split_first` gives each line with those behind it; a chain would have to show that each slice behind is there.
    pub(crate) fn count_rows<C: Condition>(self, lines: &[Line<C>]) -> usize
        ensures { result ≡ row_count self.table self.choice (map (seen C.Condition.meaning) lines.now) }
    {
        let mut count = 0;
        let mut left = lines;
        while let Some((line, rest)) = left.split_first() {
            count += usize::from(self.is_last(line, rest));
            left = rest;
        }
        count
    }
}

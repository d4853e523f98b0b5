ghost use Rattle.std.specs.Prelude.{◌≡◌, ◌≤◌, [], ◌∷◌, ◌++◌, length, List, map, nat_le};
ghost use Rattle.std.specs.List.{flat_map};
ghost use Rattle.book.specs.Lines.{Fact, seen, facts, kept, Makes};
ghost use Rattle.book.specs.Writes.{rewrite, updated_lines, split_lines};
ghost use Rattle.book.specs.Books.{in_use, Became, Fitted};

use super::Book;
use crate::faults::BookFault;
use crate::line::Line;
use crate::update::Update;
use conditions::Condition;

// Gives each line the condition that the step answers, keeps those that are possible in the first places, and says how many
// there are. A counted loop: it writes behind the place it reads, which no iterator lends.
fn compact<C: Condition, F: Fn(Line<C>) -> C>(lines: &mut [Line<C>], step: F) -> usize
    requires { F.IsAlwaysCallable step }
    ensures fewer { result ≤ length lines.old }
    ensures lines { (becomes : Fact → List Fact) → Makes C.Condition.meaning (F.post step) becomes → facts C.Condition.meaning result lines.new ≡ flat_map becomes (map (seen C.Condition.meaning) lines.old) }
{
    let mut count = 0;
    for at in 0..lines.len() {
        let line = lines[at];
        let line = Line {
            condition: step(line),
            ..line
        };
        if line.is_possible() {
            lines[count] = line;
            count += 1;
        }
    }
    count
}

// The lines of a book, as a vector in lent memory. As a struct of its own, tried, it was proved; but what a struct within a
// struct was lent, its lender does not know again when it comes back.
impl<'a, C: Condition> Book<'a, C> {
    pub(super) fn lines_in_use(&self) -> &[Line<C>]
        ensures { map (seen C.Condition.meaning) result.now ≡ in_use C.Condition.meaning self.now }
    {
        &self.lines[..self.used]
    }

    // Adds a line behind those in use.
    pub(super) fn push_line(&mut self, line: Line<C>) -> Result<(), BookFault>
        ensures { Fitted C.Condition.meaning (in_use C.Condition.meaning self.old ++ seen C.Condition.meaning line ∷ []) self.old self.new result }
    {
        if self.used >= self.lines.len() {
            return Err(BookFault::NoRoom);
        }
        self.lines[self.used] = line;
        self.used += 1;
        Ok(())
    }

    // Gives each line in use the condition that the step answers, and drops it where that is impossible.
    pub(super) fn retain_lines<F: Fn(Line<C>) -> C>(&mut self, step: F)
        requires { F.IsAlwaysCallable step }
        ensures { (becomes : Fact → List Fact) → Makes C.Condition.meaning (F.post step) becomes → Became C.Condition.meaning (flat_map becomes (in_use C.Condition.meaning self.old)) self.old self.new }
    {
        self.used = compact(&mut self.lines[..self.used], step);
    }

    // How many of the lines in use are possible.
    fn count_possible(&self) -> usize
        ensures { result ≡ length (flat_map kept (in_use C.Condition.meaning self.now)) }
    {
        self.lines_in_use()
            .iter()
            .filter(|line| line.is_possible())
            .count()
    }

    // Whether the memory has room for what an update makes of the lines, of which so many are possible: their count is handed
    // on, so that they are gone through once. It adds no more than those, and what it adds is counted only where it might not fit.
    fn has_room(&self, count: usize, update: &Update) -> bool
        requires { count ≡ length (flat_map kept (in_use C.Condition.meaning self.now)) }
        ensures { result ≡ nat_le (length (updated_lines (rewrite update.now) (in_use C.Condition.meaning self.now))) (length self.now.lines.now) }
    {
        let room = self.lines.len() - count;
        count <= room || update.count_forks(self.lines_in_use()) <= room
    }

    // Drops impossible lines. Where all are possible, as the count says, nothing is to be moved.
    fn clear_lines(&mut self, count: usize)
        requires { count ≡ length (flat_map kept (in_use C.Condition.meaning self.old)) }
        ensures { Became C.Condition.meaning (flat_map kept (in_use C.Condition.meaning self.old)) self.old self.new }
    {
        if count < self.used {
            self.retain_lines(|line| line.condition);
        }
    }

    // Updates lines that are all possible, where there is room for what is added.
    fn split_lines(&mut self, update: &Update)
        requires { length (split_lines (rewrite update.now) (in_use C.Condition.meaning self.old)) ≤ length self.old.lines.now }
        ensures { Became C.Condition.meaning (split_lines (rewrite update.now) (in_use C.Condition.meaning self.old)) self.old self.new }
    {
        let used = self.used;
        // Lent under a name: of a field that is lent in parts only the length stays known.
        let memory = &mut *self.lines;
        let (lines, room) = memory.split_at_mut(used);
        self.used = used + update.split(lines, room);
    }

    // Updates the lines in use.
    pub(super) fn update_lines(&mut self, update: &Update) -> Result<(), BookFault>
        ensures { Fitted C.Condition.meaning (updated_lines (rewrite update.now) (in_use C.Condition.meaning self.old)) self.old self.new result }
    {
        let count = self.count_possible();
        if !self.has_room(count, update) {
            return Err(BookFault::NoRoom);
        }
        self.clear_lines(count);
        self.split_lines(update);
        Ok(())
    }
}

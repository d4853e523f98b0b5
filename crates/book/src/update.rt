ghost use Rattle.std.specs.Prelude.{◌≡◌, ◌≤◌, true, not, length, map, drop};
ghost use Rattle.std.specs.List.{flat_map};
ghost use Rattle.book.specs.Lines.{seen, shown, facts, impossible, ending};
ghost use Rattle.book.specs.Writes.{rewrite, rewritten, copy, forked, stay_line, extra_line};

use crate::change::Change;
use crate::line::Line;
use crate::selection::Selection;
use conditions::Condition;

// An update of one table by the transaction at a position.
#[derive(Clone, Copy)]
pub(crate) struct Update {
    pub(crate) position: u8,
    pub(crate) selection: Selection,
    pub(crate) change: Change,
}

impl Update {
    // A copy with the changed row, where the transaction commits.
    fn committing<C: Condition>(&self, line: &Line<C>) -> Line<C>
        ensures { seen C.Condition.meaning result ≡ copy (rewrite self.now) (seen C.Condition.meaning line.now) }
    {
        Line {
            row: self.change.apply(line.row),
            ..line.ending(self.position, true)
        }
    }

    // Whether the line is possible where the transaction ends so.
    fn survives<C: Condition>(&self, line: &Line<C>, commits: bool) -> bool
        ensures { result ≡ not (impossible (ending self.now.position commits (seen C.Condition.meaning line.now))) }
    {
        line.ending(self.position, commits).is_possible()
    }

    // Whether an update makes two lines of this one.
    fn forks<C: Condition>(&self, line: &Line<C>) -> bool
        ensures { result ≡ forked (rewrite self.now) (seen C.Condition.meaning line.now) }
    {
        self.selection.touches(line) && self.survives(line, false) && self.survives(line, true)
    }

    // How many lines an update adds.
    pub(crate) fn count_forks<C: Condition>(&self, lines: &[Line<C>]) -> usize
        ensures { result ≡ length (flat_map (extra_line (rewrite self.now)) (map (seen C.Condition.meaning) lines.now)) }
    {
        lines.iter().filter(|line| self.forks(line)).count()
    }

    // What stands in the place of a line that is touched, and what is added behind all lines.
    fn split_line<C: Condition>(&self, line: &Line<C>) -> (Line<C>, Option<Line<C>>)
        requires { rewritten (rewrite self.now) (seen C.Condition.meaning line.now) ≡ true }
        ensures stays { seen C.Condition.meaning result.0 ≡ stay_line (rewrite self.now) (seen C.Condition.meaning line.now) }
        ensures added { shown C.Condition.meaning result.1 ≡ extra_line (rewrite self.now) (seen C.Condition.meaning line.now) }
    {
        let Some(original) = line.ending(self.position, false).possible() else {
            return (self.committing(line), None);
        };
        if !self.survives(line, true) {
            return (original, None);
        }
        (original, Some(self.committing(line)))
    }

    // Replaces each line that is touched where it stands, puts the other copies into the room behind, and says how many.
    // Counted by hand: a chain would need a closure that writes each line and hands on its copy, which is no plainer.
    pub(crate) fn split<C: Condition>(self, lines: &mut [Line<C>], room: &mut [Line<C>]) -> usize
        requires { length (flat_map (extra_line (rewrite self)) (map (seen C.Condition.meaning) lines.old)) ≤ length room.old }
        ensures stay { map (seen C.Condition.meaning) lines.new ≡ map (stay_line (rewrite self)) (map (seen C.Condition.meaning) lines.old) }
        ensures within { result ≤ length room.old }
        ensures added { facts C.Condition.meaning result room.new ≡ flat_map (extra_line (rewrite self)) (map (seen C.Condition.meaning) lines.old) }
        ensures beyond { drop result room.new ≡ drop result room.old }
    {
        let mut added = 0;
        for line in lines.iter_mut() {
            if self.selection.touches(line) {
                let (stays, copy) = self.split_line(line);
                *line = stays;
                if let Some(copy) = copy {
                    room[added] = copy;
                    added += 1;
                }
            }
        }
        added
    }
}

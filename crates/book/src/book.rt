ghost use Rattle.std.specs.Prelude.{◌≡◌, ◌^◌, ◌<◌, ◌≤◌, [], ◌∷◌, length, ◌==◌, OnOk};
ghost use Rattle.conditions.specs.Choices.{positions};
ghost use Rattle.book.specs.Filters.{passes};
ghost use Rattle.book.specs.Calls.{fresh, refusing, garbled, not_pending, no_table, bad_choice, bad_making, opened, inserted, deleted, updated, decided, counted, position};
ghost use Rattle.book.specs.Lines.{facts};
ghost use Rattle.book.specs.Plain.{row_added, rows_removed, Writes, Updates, Decides};

use crate::change::{Change, RawChange};
use crate::faults::BookFault;
use crate::filter::{Filter, RawFilter};
use crate::line::Line;
use crate::pending::Pending;
use crate::row::Row;
use crate::selection::Selection;
use crate::tables::View;
use crate::update::Update;
use crate::vote::{Vote, first_choices, orphans, vote_against};
use conditions::Condition;

mod lines;

// The most lines that a book can work with.
const MOST_LINES: usize = 4096;

// A change book over lent lines. Those in use stand in the first places of the memory.
#[derive(Drop)]
pub struct Book<'a, C> {
    // The memory is lent, and as long as its lender likes: no vector of the library takes such.
    lines: &'a mut [Line<C>],
    used: usize,
    first: u32,
    next: Option<u32>,
    pending: Pending,
    ghost within: { used ≤ length lines.now },
}

// Whether a book can be made of so many lines and this first number.
pub fn check_making(capacity: usize, first: u32) -> Result<(), BookFault>
    ensures { result ≡ refusing (bad_making capacity first ∷ []) tt }
{
    if capacity == 0 || capacity > MOST_LINES || first == 0 {
        return Err(BookFault::BadMaking);
    }
    Ok(())
}

// A table stays a number: so does that of a line, a field in which its lender may write any.
fn check_table(table: u8) -> Result<(), BookFault>
    ensures { result ≡ refusing (no_table table ∷ []) tt }
{
    if !(1..=4).contains(&table) {
        return Err(BookFault::NoTable(table));
    }
    Ok(())
}

// Whether the word commits. It comes as any number, as a table does.
fn check_word(word: u8) -> Result<bool, BookFault>
    ensures { result ≡ refusing (garbled word ∷ []) (word == 1) }
{
    match word {
        0 => Ok(false),
        1 => Ok(true),
        _ => Err(BookFault::GarbledWord(word)),
    }
}

impl<'a, C: Condition> Book<'a, C> {
    ghost use Rattle.book.specs.Books.{Called, Performed, Answered, Polled, state};

    // Any memory and number make a book; one that `check_making` refuses gives out no number.
    pub fn make(lines: &'a mut [Line<C>], first: u32) -> Book<'a, C>
        ensures made { state C.Condition.meaning result ≡ fresh (length lines.old) first }
        ensures same { result.lines.now ≡ lines.old }
        ensures lender { result.lines.ghost_name ≡ lines.entry.ghost_name }
    {
        Book {
            lines,
            used: 0,
            first,
            next: Some(first),
            pending: Pending::none(),
        }
    }

    // How many lines are in use: they stand in the first places of the memory.
    pub fn len(&self) -> usize
        ensures count { result ≡ length (state C.Condition.meaning self.now).lines }
        ensures first { facts C.Condition.meaning result self.now.lines.now ≡ (state C.Condition.meaning self.now).lines }
        ensures within { result ≤ length self.now.lines.now }
    {
        self.used
    }

    fn position(&self, number: u32) -> Result<u8, BookFault>
        ensures found { result ≡ refusing (not_pending number (state C.Condition.meaning self.now) ∷ []) (position number (state C.Condition.meaning self.now)) }
        ensures within { OnOk result (position number (state C.Condition.meaning self.now) < positions) }
    {
        self.pending
            .as_slice()
            .iter()
            .position(|pending| *pending == number)
            .map(|at| at as u8)
            .ok_or(BookFault::NotPending(number))
    }

    // How many choices of endings there are.
    fn choices(&self) -> u8
        ensures count { result ≡ 2 ^ length (state C.Condition.meaning self.now).pending }
        ensures within { (1 ≤ result) × (result ≤ 2 ^ positions) }
    {
        1u8 << self.pending.as_slice().len()
    }

    // A choice stays a number: how many there are changes with what is pending.
    fn check_choice(&self, choice: u8) -> Result<(), BookFault>
        ensures { result ≡ refusing (bad_choice choice (state C.Condition.meaning self.now) ∷ []) tt }
    {
        if choice >= self.choices() {
            return Err(BookFault::BadChoice(choice));
        }
        Ok(())
    }

    // Gives the next number to a new transaction, at the next position.
    pub fn open(&mut self) -> Result<u32, BookFault>
        ensures { Called C.Condition.meaning opened self.old self.new result }
    {
        if self.pending.is_full() {
            return Err(BookFault::TooManyPending);
        }
        let number = self.next.ok_or(BookFault::NumbersSpent)?;
        check_making(self.lines.len(), self.first)?;
        self.pending.add(number);
        self.next = number.checked_add(1);
        Ok(number)
    }

    // Adds a line that holds when the transaction commits, and answers the lines now in use.
    pub fn insert(&mut self, number: u32, table: u8, row: Row) -> Result<usize, BookFault>
        ensures { Performed C.Condition.meaning (inserted number table row) (Writes number (row_added table row)) self.old self.new result }
    {
        let position = self.position(number)?;
        check_table(table)?;
        let line = Line::inserted(position, table, row);
        self.push_line(line)?;
        Ok(self.len())
    }

    // Narrows the lines of the table that pass to where the transaction aborts, and answers the lines now in use.
    pub fn delete(&mut self, number: u32, table: u8, filter: RawFilter) -> Result<usize, BookFault>
        ensures { Performed C.Condition.meaning (deleted number table filter) (Writes number (rows_removed table (passes filter))) self.old self.new result }
    {
        let position = self.position(number)?;
        check_table(table)?;
        let filter = Filter::try_from(filter)?;
        let deleted = Selection { table, filter };
        self.retain_lines(|line| {
            if deleted.touches(&line) {
                return line.condition.narrowed(position, false);
            }
            line.condition
        });
        Ok(self.len())
    }

    // Gives each line of the table that passes a copy with the changed row, which holds where the transaction commits,
    // narrows the line itself to where it aborts, and answers the lines now in use.
    pub fn update(
        &mut self,
        number: u32,
        table: u8,
        filter: RawFilter,
        change: RawChange,
    ) -> Result<usize, BookFault>
        ensures { Performed C.Condition.meaning (updated number table filter change) (Updates number table filter change) self.old self.new result }
    {
        let position = self.position(number)?;
        check_table(table)?;
        let filter = Filter::try_from(filter)?;
        let change = Change::try_from(change)?;
        let selection = Selection { table, filter };
        let update = Update {
            position,
            selection,
            change,
        };
        self.update_lines(&update)?;
        Ok(self.len())
    }

    // Ends a transaction, word 1 for commit and 0 for abort, and answers the lines now in use.
    pub fn decide(&mut self, number: u32, word: u8) -> Result<usize, BookFault>
        ensures { Performed C.Condition.meaning (decided number word) (Decides number (word == 1)) self.old self.new result }
    {
        let commits = check_word(word)?;
        let position = self.position(number)?;
        self.retain_lines(|line| line.condition.decided(position, commits));
        self.pending.remove(number);
        Ok(self.len())
    }

    // How many distinct rows the table has under the choice.
    pub fn count(&self, table: u8, choice: u8) -> Result<usize, BookFault>
        ensures { Answered C.Condition.meaning (counted table choice) self.now result }
    {
        check_table(table)?;
        self.check_choice(choice)?;
        let view = View { table, choice };
        Ok(view.count_rows(self.lines_in_use()))
    }

    // Whether the transaction can commit and leave no shot without its cue, however the others end.
    pub fn vote(&self, number: u32) -> Result<Vote, BookFault>
        ensures { Polled C.Condition.meaning number self.now result }
    {
        let position = self.position(number)?;
        let committing = C::always().narrowed(position, true).verdicts();
        let choices = committing & first_choices(self.choices());
        Ok(vote_against(orphans(self.lines_in_use(), choices)))
    }
}

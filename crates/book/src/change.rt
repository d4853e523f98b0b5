ghost use Rattle.std.specs.Prelude.{◌≡◌, true, false, ok_or, MatchResult};
ghost use Rattle.book.specs.declared.faults.ChangeFault.TheVariants.{NoOperation};
ghost use Rattle.book.specs.Filters.{moved, operation_of, changed, good_change, change_fault, changed_checked};

use crate::faults::ChangeFault;
use crate::row::{Field, Row};

// A change as a caller gives it: any numbers.
#[derive(Clone, Copy)]
pub struct RawChange {
    pub field: u8,
    pub operation: u8,
    pub amount: u32,
}

// What a change makes of a field's number.
#[derive(Clone, Copy)]
enum Operation {
    Set,
    Later,
    Earlier,
}

// A change that was checked.
#[derive(Clone, Copy)]
pub(crate) struct Change {
    field: Field,
    operation: Operation,
    amount: u32,
}

impl TryFrom<u8> for Operation {
    type Error = ChangeFault;

    ghost try_from_gives = { λ n r. r ≡ ok_or (operation_of n) (NoOperation n) };

    fn try_from(number: u8) -> Result<Operation, ChangeFault> {
        match number {
            0 => Ok(Operation::Set),
            1 => Ok(Operation::Later),
            2 => Ok(Operation::Earlier),
            _ => Err(ChangeFault::NoOperation(number)),
        }
    }
}

impl Operation {
    // A result past either end of the range stops there.
    fn apply(self, amount: u32, number: u32) -> u32
        ensures { result ≡ moved self amount number }
    {
        match self {
            Operation::Set => amount,
            Operation::Later => number.saturating_add(amount),
            Operation::Earlier => number.saturating_sub(amount),
        }
    }
}

impl TryFrom<RawChange> for Change {
    type Error = ChangeFault;

    ghost try_from_gives = { λ raw r. MatchResult r (λ c. (good_change raw ≡ true) × (changed_checked c ≡ changed raw)) (λ e. (good_change raw ≡ false) × (e ≡ change_fault raw)) };

    fn try_from(raw: RawChange) -> Result<Change, ChangeFault> {
        let field = Field::try_from(raw.field).map_err(|_| ChangeFault::NoChangeField(raw.field))?;
        let operation = Operation::try_from(raw.operation)?;
        Ok(Change {
            field,
            operation,
            amount: raw.amount,
        })
    }
}

impl Change {
    pub(crate) fn apply(self, row: Row) -> Row
        ensures { result ≡ changed_checked self row }
    {
        let number = self.operation.apply(self.amount, self.field.get(row));
        self.field.set(row, number)
    }
}

ghost use Rattle.std.specs.Prelude.{◌≡◌};
ghost use Rattle.book.specs.declared.faults.BookFault.TheVariants.{BadFilter, BadChange};
ghost use Rattle.book.specs.Faults.{refusal};

// What is wrong with a filter.
#[derive(Clone, Copy)]
pub enum FilterFault {
    NoFilterField(u8),
    Backward { low: u32, high: u32 },
}

// What is wrong with a change.
#[derive(Clone, Copy)]
pub enum ChangeFault {
    NoChangeField(u8),
    NoOperation(u8),
}

// Why a call of a book was refused.
#[derive(Clone, Copy)]
pub enum BookFault {
    // A decision's word is neither 0 nor 1.
    GarbledWord(u8),
    NotPending(u32),
    NoTable(u8),
    BadFilter(FilterFault),
    BadChange(ChangeFault),
    BadChoice(u8),
    TooManyPending,
    NumbersSpent,
    NoRoom,
    BadMaking,
}

// Written out: a derived `From` would have no contract.
impl From<FilterFault> for BookFault {
    ghost from_gives = { λ e r. r ≡ BadFilter e };

    fn from(e: FilterFault) -> BookFault {
        BookFault::BadFilter(e)
    }
}

impl From<ChangeFault> for BookFault {
    ghost from_gives = { λ e r. r ≡ BadChange e };

    fn from(e: ChangeFault) -> BookFault {
        BookFault::BadChange(e)
    }
}

impl BookFault {
    // A method and no `From`: a refusal has a number, and carries more.
    pub fn number(self) -> u8
        ensures { result ≡ (refusal self).number }
    {
        match self {
            BookFault::GarbledWord(_) => 1,
            BookFault::NotPending(_) => 2,
            BookFault::NoTable(_) => 3,
            BookFault::BadFilter(_) => 4,
            BookFault::BadChange(_) => 5,
            BookFault::BadChoice(_) => 6,
            BookFault::TooManyPending => 9,
            BookFault::NumbersSpent => 10,
            BookFault::NoRoom => 11,
            BookFault::BadMaking => 14,
        }
    }
}

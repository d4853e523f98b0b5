ghost use Rattle.std.specs.Prelude.{◌≡◌, None, Some, MatchResult};
ghost use Rattle.book.specs.Filters.{which, value, with_value};

// A row of a table: four numbers.
#[derive(Clone, Copy, Default, PartialEq, Eq)]
pub struct Row {
    pub first: u32,
    pub second: u32,
    pub third: u32,
    pub fourth: u32,
}

// A field of a row.
#[derive(Clone, Copy)]
pub(crate) enum Field {
    First,
    Second,
    Third,
    Fourth,
}

// A number that names no field: whoever asked says of what.
#[derive(Clone, Copy)]
pub(crate) struct UnknownField;

impl TryFrom<u8> for Field {
    type Error = UnknownField;

    ghost try_from_gives = { λ n r. MatchResult r (λ f. which n ≡ Some f) (λ _. which n ≡ None) };

    fn try_from(number: u8) -> Result<Field, UnknownField> {
        match number {
            1 => Ok(Field::First),
            2 => Ok(Field::Second),
            3 => Ok(Field::Third),
            4 => Ok(Field::Fourth),
            _ => Err(UnknownField),
        }
    }
}

impl Field {
    pub(crate) fn get(self, row: Row) -> u32
        ensures { result ≡ value self row }
    {
        match self {
            Field::First => row.first,
            Field::Second => row.second,
            Field::Third => row.third,
            Field::Fourth => row.fourth,
        }
    }

    pub(crate) fn set(self, mut row: Row, number: u32) -> Row
        ensures { result ≡ with_value self number row }
    {
        match self {
            Field::First => row.first = number,
            Field::Second => row.second = number,
            Field::Third => row.third = number,
            Field::Fourth => row.fourth = number,
        }
        row
    }
}

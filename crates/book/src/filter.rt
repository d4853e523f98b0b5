ghost use Rattle.std.specs.Prelude.{◌≤◌};

use crate::faults::FilterFault;
use crate::row::{Field, Row};

// A filter as a caller gives it: any numbers.
#[derive(Clone, Copy)]
pub struct RawFilter {
    pub field: u8,
    pub low: u32,
    pub high: u32,
}

// The rows whose field lies between the ends, both included.
#[derive(Clone, Copy)]
struct Range {
    field: Field,
    low: u32,
    high: u32,
    ghost ordered: { low ≤ high },
}

// A filter that was checked; without a range it passes every row.
#[derive(Clone, Copy)]
pub(crate) struct Filter(Option<Range>);

impl TryFrom<RawFilter> for Filter {
    ghost use Rattle.std.specs.Prelude.{◌≡◌, true, false, MatchResult};
    ghost use Rattle.book.specs.Filters.{passes, good_filter, filter_fault, passes_checked};

    type Error = FilterFault;

    ghost try_from_gives = { λ raw r. MatchResult r (λ f. (good_filter raw ≡ true) × (passes_checked f ≡ passes raw)) (λ e. (good_filter raw ≡ false) × (e ≡ filter_fault raw)) };

    fn try_from(raw: RawFilter) -> Result<Filter, FilterFault> {
        let RawFilter { field, low, high } = raw;
        if field == 0 {
            return Ok(Filter(None));
        }
        let field = Field::try_from(field).map_err(|_| FilterFault::NoFilterField(field))?;
        if low > high {
            return Err(FilterFault::Backward { low, high });
        }
        Ok(Filter(Some(Range { field, low, high })))
    }
}

impl Range {
    ghost use Rattle.std.specs.Prelude.{◌≡◌};
    ghost use Rattle.book.specs.Filters.{between};

    fn contains(self, row: Row) -> bool
        ensures { result ≡ between self.low self.high self.field row }
    {
        (self.low..=self.high).contains(&self.field.get(row))
    }
}

impl Filter {
    ghost use Rattle.std.specs.Prelude.{◌≡◌};
    ghost use Rattle.book.specs.Filters.{passes_checked};

    pub(crate) fn passes(self, row: Row) -> bool
        ensures { result ≡ passes_checked self row }
    {
        self.0.is_none_or(|range| range.contains(row))
    }
}

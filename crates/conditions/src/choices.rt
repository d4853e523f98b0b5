// How many transactions can be pending at a time.
pub const POSITIONS: usize = 6;

pub(crate) const CHOICES: u8 = 1 << POSITIONS;

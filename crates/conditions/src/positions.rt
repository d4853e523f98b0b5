ghost use Rattle.std.specs.Prelude.{◌≡◌, ℕ, ◌^◌, ◌<◌, ◌≤◌, ◌||◌, ◌==◌, MatchOption};
ghost use Rattle.conditions.specs.Choices.{positions, bit, same, source, Tells};
ghost use Rattle.conditions.specs.Kinds.{agreeing, skipping};

use crate::choices::{CHOICES, POSITIONS};

// For each position, the choices in which the transaction there commits.
const COMMITTING: [u64; POSITIONS] = [
    0xAAAA_AAAA_AAAA_AAAA,
    0xCCCC_CCCC_CCCC_CCCC,
    0xF0F0_F0F0_F0F0_F0F0,
    0xFF00_FF00_FF00_FF00,
    0xFFFF_0000_FFFF_0000,
    0xFFFF_FFFF_0000_0000,
];

// One of the positions.
#[derive(Clone, Copy)]
pub(crate) struct Position {
    number: u8,
    ghost within: { number < positions },
}

// A set of positions, one bit for each.
#[derive(Clone, Copy)]
pub(crate) struct Positions {
    pub(crate) bits: u8,
    ghost few: { bits < 2 ^ positions },
}

impl Position {
    // None past the last: a condition is told any number, and each of its calls asks here.
    // An `if`, since `then_some` would make the position before it was tested.
    pub(crate) fn new(number: u8) -> Option<Position>
        ensures { MatchOption result (positions ≤ number) (λ p. p.number ≡ number) }
    {
        if (number as usize) < POSITIONS {
            Some(Position { number })
        } else {
            None
        }
    }

    // What its bit is worth: from one choice to the next that differs there.
    fn step(self) -> u8
        ensures is { result ≡ 2 ^ self.number }
        ensures among { result < 2 ^ positions }
    {
        1 << self.number
    }

    // The choices in which the position ends so, one bit for each.
    pub(crate) fn mask(self, commits: bool) -> u64
        ensures { Tells positions result (λ c. same commits (bit self.number c)) }
    {
        let ones = COMMITTING[self.number as usize];
        if commits { ones } else { !ones }
    }

    // The choice of before the position was decided so.
    pub(crate) fn origin(self, commits: bool, choice: u8) -> u8
        ensures { result ≡ source positions self.number commits choice }
    {
        let step = self.step();
        let low = choice % step;
        let high = (choice - low) % (CHOICES / 2) * 2;
        low + u8::from(commits) * step + high
    }
}

impl Positions {
    pub(crate) fn has(self, position: Position) -> bool
        ensures { result ≡ bit position.number self.bits }
    {
        (self.bits >> position.number) & 1 == 1
    }

    pub(crate) fn with(self, position: Position) -> Positions
        ensures { (j : ℕ) → bit j result.bits ≡ (bit j self.bits || j == position.number) }
    {
        Positions {
            bits: self.bits | position.step(),
        }
    }

    // Without the position: those below it stay, and each above moves down by one.
    pub(crate) fn closed_up(self, position: Position) -> Positions
        ensures { (j : ℕ) → bit j result.bits ≡ bit (skipping position.number j) self.bits }
    {
        let step = position.step();
        Positions {
            bits: self.bits % step + self.bits / (step * 2) * step,
        }
    }

    // The choices in which each of them ends so: one mask for each.
    pub(crate) fn mask(self, commits: bool) -> u64
        ensures { Tells positions result (agreeing positions commits self.bits) }
    {
        // A counted loop: as a chain, also one that stops early, it takes near twice the time, and votes ask it of each line.
        let mut verdicts = u64::MAX;
        for number in 0..POSITIONS as u8 {
            // Most sets are small: the rest of this one is empty.
            if self.bits >> number == 0 {
                return verdicts;
            }
            let position = Position { number };
            if self.has(position) {
                verdicts &= position.mask(commits);
            }
        }
        verdicts
    }
}

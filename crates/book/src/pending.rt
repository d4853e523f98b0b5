ghost use Rattle.std.specs.Prelude.{◌≡◌, ◌<◌, ◌≤◌, [], ◌∷◌, ◌++◌, length, nat_le};
ghost use Rattle.conditions.specs.Choices.{positions};

use conditions::POSITIONS;

// The numbers of the pending transactions, in order of opening. An array and a count, and no `ArrayVec`: that is not `Copy`.
#[derive(Clone, Copy)]
pub struct Pending {
    numbers: [u32; POSITIONS],
    count: usize,
    ghost few: { count ≤ positions },
    ghost size: { length numbers ≡ positions },
}

impl Pending {
    ghost use Rattle.book.specs.Numbers.{held, others};

    pub(crate) fn none() -> Pending
        ensures { held result ≡ [] }
    {
        Pending {
            numbers: [0; POSITIONS],
            count: 0,
        }
    }

    pub(crate) fn as_slice(&self) -> &[u32]
        ensures value { result.now ≡ held self.now }
        ensures few { length result.now ≤ positions }
    {
        &self.numbers[..self.count]
    }

    pub(crate) fn is_full(&self) -> bool
        ensures { result ≡ nat_le positions (length (held self.now)) }
    {
        self.count >= POSITIONS
    }

    pub(crate) fn add(&mut self, number: u32)
        requires { length (held self.old) < positions }
        ensures { held self.new ≡ held self.old ++ number ∷ [] }
    {
        let at = self.count;
        self.numbers[at] = number;
        self.count = at + 1;
    }

    // Takes a number off the list; later ones close up.
    pub(crate) fn remove(&mut self, number: u32)
        ensures { held self.new ≡ others number (held self.old) }
    {
        let mut count = 0;
        for at in 0..self.count {
            if self.numbers[at] != number {
                self.numbers[count] = self.numbers[at];
                count += 1;
            }
        }
        self.count = count;
    }
}

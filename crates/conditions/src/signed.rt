#![tactic(auto, using(crate::proofs::SignedPairs::meanings))]

ghost use Rattle.std.specs.Prelude.{◌≡◌};
ghost use Rattle.conditions.specs.Choices.{positions};
ghost use Rattle.conditions.specs.Kinds.{in_pair, contradicting};
ghost use borrow.Author.Rules.{rules};

use crate::choices::CHOICES;
use crate::condition::Condition;
use crate::positions::{Position, Positions};

// A condition that keeps the positions that must commit and those that must abort.
// It is impossible where the two sets share a position.
#[derive(Clone, Copy)]
pub struct SignedPair {
    committing: Positions,
    aborting: Positions,
}

impl SignedPair {
    // The positions that must end otherwise.
    fn contrary(&self, commits: bool) -> Positions
        ensures { result.bits ≡ contradicting commits self.now.committing.bits self.now.aborting.bits }
    {
        if commits {
            self.aborting
        } else {
            self.committing
        }
    }
}

impl Condition for SignedPair {
    ghost meaning = { λ p. in_pair positions p.committing.bits p.aborting.bits };

    ghost bounded = { unfold in_pair in Prim.search rules };

    fn always() -> SignedPair {
        let none = Positions { bits: 0 };
        SignedPair {
            committing: none,
            aborting: none,
        }
    }

    fn narrowed(&self, position: u8, commits: bool) -> SignedPair {
        let Some(position) = Position::new(position) else {
            return *self;
        };
        // Tried as one `&mut` to the side that grows: when it comes back, what the other side has is lost.
        if commits {
            SignedPair {
                committing: self.committing.with(position),
                ..*self
            }
        } else {
            SignedPair {
                aborting: self.aborting.with(position),
                ..*self
            }
        }
    }

    fn decided(&self, position: u8, commits: bool) -> SignedPair {
        let Some(position) = Position::new(position) else {
            return *self;
        };
        if self.contrary(commits).has(position) {
            // It asked for the other ending: no choice is left.
            let first = Positions { bits: 1 };
            return SignedPair {
                committing: first,
                aborting: first,
            };
        }
        SignedPair {
            committing: self.committing.closed_up(position),
            aborting: self.aborting.closed_up(position),
        }
    }

    fn impossible(&self) -> bool {
        self.committing.bits & self.aborting.bits != 0
    }

    fn holds(&self, choice: u8) -> bool {
        choice < CHOICES
            && choice & self.committing.bits == self.committing.bits
            && choice & self.aborting.bits == 0
    }

    fn verdicts(&self) -> u64 {
        self.committing.mask(true) & self.aborting.mask(false)
    }
}

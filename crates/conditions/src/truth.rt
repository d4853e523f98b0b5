#![tactic(auto, using(crate::proofs::TruthSets::meanings))]

ghost use Rattle.conditions.specs.Choices.{positions};
ghost use Rattle.conditions.specs.Kinds.{in_set};
ghost use borrow.Author.Rules.{rules};

use crate::choices::CHOICES;
use crate::condition::Condition;
use crate::positions::Position;

// A condition that keeps its verdicts, one bit for each choice.
#[derive(Clone, Copy)]
pub struct TruthSet {
    verdicts: u64,
}

impl Condition for TruthSet {
    ghost meaning = { λ t. in_set positions t.verdicts };

    ghost bounded = { unfold in_set in Prim.search rules };

    fn always() -> TruthSet {
        TruthSet { verdicts: u64::MAX }
    }

    fn narrowed(&self, position: u8, commits: bool) -> TruthSet {
        let Some(position) = Position::new(position) else {
            return *self;
        };
        TruthSet {
            verdicts: self.verdicts & position.mask(commits),
        }
    }

    fn decided(&self, position: u8, commits: bool) -> TruthSet {
        let Some(position) = Position::new(position) else {
            return *self;
        };
        let verdicts = (0..CHOICES)
            .filter(|choice| self.holds(position.origin(commits, *choice)))
            .fold(0, |verdicts, choice| verdicts | 1 << choice);
        TruthSet { verdicts }
    }

    fn impossible(&self) -> bool {
        self.verdicts == 0
    }

    fn holds(&self, choice: u8) -> bool {
        choice < CHOICES && (self.verdicts >> choice) & 1 == 1
    }

    fn verdicts(&self) -> u64 {
        self.verdicts
    }
}

// Conditions: when a line of the book holds. A condition says of each choice of endings whether it does.

#![tactic(auto)]

mod choices;
mod condition;
mod positions;
mod signed;
mod truth;

pub use choices::POSITIONS;
pub use condition::Condition;
pub use signed::SignedPair;
pub use truth::TruthSet;

ghost use Rattle.std.specs.Prelude.{◌≡◌, ℕ, ◌^◌, ◌≤◌, Bool, false};
ghost use Rattle.conditions.specs.Choices.{positions, Tells};
ghost use Rattle.conditions.specs.Meanings.{everywhere, narrowing, deciding, nowhere};

// A kind of condition. Whoever uses one knows nothing of it but its meaning.
pub trait Condition: Copy {
    // The choices in which it holds.
    ghost meaning: { Self → ℕ → Bool };

    fn always() -> Self
        ensures { meaning result ≡ everywhere positions };

    // Holds where the old one does and the transaction at the position ends so. A position and how it ends go along as two:
    // `Ending { position, commits: true }` at a call would say no more.
    fn narrowed(&self, position: u8, commits: bool) -> Self
        ensures { meaning result ≡ narrowing positions position commits (meaning self.now) };

    // The transaction at the position has ended so, and later positions close up.
    fn decided(&self, position: u8, commits: bool) -> Self
        ensures { meaning result ≡ deciding positions position commits (meaning self.now) };

    // Whether it holds in no choice.
    fn impossible(&self) -> bool
        ensures { result ≡ nowhere positions (meaning self.now) };

    // Whether it holds in the choice.
    fn holds(&self, choice: u8) -> bool
        ensures { result ≡ meaning self.now choice };

    // Every choice at once: bit c says whether it holds in c.
    fn verdicts(&self) -> u64
        ensures { Tells positions result (meaning self.now) };

    ghost bounded: { (x : Self) (c : ℕ) → 2 ^ positions ≤ c → meaning x c ≡ false };
}

// Whose turn it is: numbers of ranks, one after the other, which a caller asks for.

ghost use Rattle.std.specs.Prelude.{◌≡◌, ◌<◌, ◌≤◌, ℕ, Option, IfSome};
ghost use Rattle.hp_outside.specs.Counts.{counted, last_count};

pub mod memory;
pub mod seeded;

/// An order of turns.
pub trait Turns {
    /// The seed of the last `start`, or 0 before one.
    ghost seed: { Self → ℕ };

    /// How many numbers were asked for since the last `start`. It stays at its last value.
    ghost asked: { Self → ℕ };

    /// The number that a seed names after so many others, of so many ranks; `None` where it is not told.
    ghost named: { Self → ℕ → ℕ → ℕ → Option ℕ };

    /// Begins the order of a seed.
    fn start(&mut self, from: u64)
        ensures begun { seed self.new ≡ from }
        ensures none { asked self.new ≡ 0 }
        ensures same { (s k ranks : ℕ) → named self.new s k ranks ≡ named self.old s k ranks };

    /// The rank that has the next turn, of so many.
    fn next(&mut self, ranks: u32) -> u32
        requires { 1 ≤ ranks }
        ensures among { result < ranks }
        ensures told { asked self.old < last_count → IfSome (named self.old (seed self.old) (asked self.old) ranks) (λ r. result ≡ r) }
        ensures counted { asked self.new ≡ counted (asked self.old) }
        ensures begun { seed self.new ≡ seed self.old }
        ensures same { (s k n : ℕ) → named self.new s k n ≡ named self.old s k n };
}

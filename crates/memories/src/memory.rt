//! What a memory is.
ghost use Rattle.std.specs.Prelude.{◌≡◌, ℕ};
ghost use Rattle.memories.specs.Pairs.{Emptied, Kept, Pairs, recalls};

/// A set of pairs (state, left) that may forget and never invents.
pub trait Memory {
    /// The pairs that the memory has.
    ghost has: { Self → Pairs };

    /// What a keep does to this kind of memory.
    ghost keeps: { Self → ℕ → ℕ → Self → Type 0 };

    /// What emptying does to this kind of memory.
    ghost empties: { Self → Self → Type 0 };

    // Stays two parameters, here and at `keep`: what is asked is a bound on the left, not a pair that the memory has.
    /// Whether the memory has a pair with this state and a left of at least this one.
    fn recall(&self, state: u64, left: u8) -> bool
        ensures value { result ≡ recalls (has self.now) state left };

    /// Keeps the pair, or forgets some pairs, this one among them or not.
    fn keep(&mut self, state: u64, left: u8)
        ensures after { keeps self.old state left self.new };

    /// Forgets every pair.
    fn empty(&mut self)
        ensures after { empties self.old self.new };

    ghost invents_nothing: { (x y : Self) (s n : ℕ) → keeps x s n y → Kept (has x) s n (has y) };

    ghost forgets_all: { (x y : Self) → empties x y → Emptied (has y) };
}

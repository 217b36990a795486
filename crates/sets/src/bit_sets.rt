//! Sets of small numbers, each a word of bits.
#![tactic(auto, using(crate::proofs::Words::word_laws), unfolding(crate::specs::Sets::member))]

ghost use Rattle.std.specs.Prelude.{◌≡◌, ℕ, ◌<◌, min, true, false, not, ◌&&◌, ◌||◌, is_some, Decides, MatchOption, ◌==◌, nat_lt};
ghost use Rattle.sets.specs.Counts.{Empty, Lowest, Popped, count};

use crate::word::Word;

/// A set of the numbers below the width of a word: bit i is set where i is in it.
#[derive(Clone, Copy, PartialEq, Eq, Debug)]
pub struct BitSet<W> {
    pub bits: W,
}

/// A set of stages, which are numbered below 32.
pub type StageSet = BitSet<u32>;

/// A set of facts, which are numbered below 64.
pub type FactSet = BitSet<u64>;

/// A set of actions, which are numbered below 128.
pub type ActionSet = BitSet<u128>;

/// Making sets.
impl<W: Word> BitSet<W> {
    ghost use Rattle.sets.specs.Sets.{member};

    /// The set with nothing in it.
    pub fn none() -> BitSet<W>
        ensures value { (i : ℕ) → member W.number result i ≡ false }
    {
        BitSet { bits: W::zero() }
    }

    /// The numbers below `n`.
    pub fn below(n: usize) -> BitSet<W>
        ensures value { (i : ℕ) → member W.number result i ≡ nat_lt i (min n W.width) }
    {
        BitSet { bits: W::below(n) }
    }

    /// This set and `i`; a number from the width on changes nothing.
    pub fn with(self, i: usize) -> BitSet<W>
        ensures value { (j : ℕ) → member W.number result j ≡ (member W.number self j || (nat_lt i W.width && j == i)) }
    {
        BitSet {
            bits: self.bits | W::only(i),
        }
    }
}

/// Combining sets.
impl<W: Word> BitSet<W> {
    ghost use Rattle.sets.specs.Sets.{member};

    /// What is in either set.
    pub fn union(self, other: BitSet<W>) -> BitSet<W>
        ensures value { (i : ℕ) → member W.number result i ≡ (member W.number self i || member W.number other i) }
    {
        BitSet {
            bits: self.bits | other.bits,
        }
    }

    /// What is in both sets.
    pub fn common(self, other: BitSet<W>) -> BitSet<W>
        ensures value { (i : ℕ) → member W.number result i ≡ (member W.number self i && member W.number other i) }
    {
        BitSet {
            bits: self.bits & other.bits,
        }
    }

    /// What is in this set and not in the other.
    pub fn without(self, other: BitSet<W>) -> BitSet<W>
        ensures value { (i : ℕ) → member W.number result i ≡ (member W.number self i && not (member W.number other i)) }
    {
        BitSet {
            bits: self.bits.and_not(other.bits),
        }
    }
}

/// Asking.
impl<W: Word> BitSet<W> {
    ghost use Rattle.sets.specs.Sets.{member};

    /// Whether `i` is in the set.
    pub fn contains(self, i: usize) -> bool
        ensures value { result ≡ member W.number self i }
    {
        self.bits.has(i)
    }

    /// Whether nothing is in the set.
    pub fn is_empty(self) -> bool
        ensures value { Decides result (Empty (member W.number self)) }
    {
        self.bits == W::zero()
    }

    /// Whether two or more numbers are in the set.
    pub fn has_many(self) -> bool
        ensures value { result ≡ nat_lt 1 (count (member W.number self) W.width) }
    {
        self.bits.without_lowest() != W::zero()
    }

    /// How many numbers are in the set.
    pub fn len(self) -> u8
        ensures value { result ≡ count (member W.number self) W.width }
    {
        self.bits.ones()
    }

    /// The lowest number of the set.
    pub fn lowest(self) -> Option<u8>
        ensures value { MatchOption result (Empty (member W.number self)) (Lowest (member W.number self)) }
    {
        if self.is_empty() {
            return None;
        }
        Some(self.bits.lowest())
    }

    /// Takes the lowest number out of the set.
    pub fn pop_lowest(&mut self) -> Option<u8>
        ensures value { Popped (member W.number self.old) result (member W.number self.new) }
        ensures less { is_some result ≡ true → W.number self.new.bits < W.number self.old.bits }
    {
        let lowest = self.lowest()?;
        self.bits = self.bits.without_lowest();
        Some(lowest)
    }
}

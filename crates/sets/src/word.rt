//! Words of bits, of three widths: what a set of small numbers is kept in.
ghost use Rattle.std.specs.Prelude.{◌≡◌, ℕ, ◌-◌, ◌^◌, ◌<◌, ◌≤◌, min, not, ◌&&◌, ◌==◌, nat_lt, bit_and, bit_or};
ghost use Rattle.sets.specs.Bits.{bit};
ghost use Rattle.sets.specs.Counts.{Empty, Lowest, count};

use std::ops::{BitAnd, BitOr};

// Stays an impl for each word: no macro may write impls here, and the library's integer traits would have methods ask for ranges.
mod of_u128;
mod of_u32;
mod of_u64;

/// A word of bits, which are numbered from the lowest up.
pub trait Word: Copy + Eq + BitAnd<Self, Output = Self> + BitOr<Self, Output = Self> {
    // The number that a word is.
    ghost number: { Self → ℕ };

    // How many bits a word has.
    ghost width: { ℕ };

    /// The word with no bit.
    fn zero() -> Self
        ensures { number result ≡ 0 };

    /// The word with the bits below `n`.
    fn below(n: usize) -> Self
        ensures { (i : ℕ) → bit (number result) i ≡ nat_lt i (min n width) };

    /// The word with bit `i` alone, or with none where a word has no such bit.
    fn only(i: usize) -> Self
        ensures { (j : ℕ) → bit (number result) j ≡ (nat_lt i width && j == i) };

    /// Whether the word has bit `i`.
    fn has(self, i: usize) -> bool
        ensures { result ≡ bit (number self) i };

    /// The bits of this word that the other lacks.
    fn and_not(self, other: Self) -> Self
        ensures { (i : ℕ) → bit (number result) i ≡ (bit (number self) i && not (bit (number other) i)) };

    /// How many bits the word has.
    fn ones(self) -> u8
        ensures { result ≡ count (bit (number self)) width };

    /// The lowest bit of a word that has one.
    fn lowest(self) -> u8
        ensures { ¬ (Empty (bit (number self))) → Lowest (bit (number self)) result };

    /// The word without its lowest bit.
    fn without_lowest(self) -> Self
        ensures others { (l : ℕ) → Lowest (bit (number self)) l → (i : ℕ) → bit (number result) i ≡ (bit (number self) i && not (i == l)) }
        ensures less { number result ≤ number self - 1 }
        ensures fits { number result < 2 ^ width };

    // Two words are equal where their numbers are.
    ghost eq_law: { (a b : Self) → Self.eq a b ≡ (number a == number b) };

    // `&` and `|` may be used on any two words, and work on their numbers.
    ghost can_and_law: { (a b : Self) → Self.can_bitand a b };

    ghost and_law: { (a b r : Self) → Self.bitand_gives a b r → number r ≡ bit_and (number a) (number b) };

    ghost can_or_law: { (a b : Self) → Self.can_bitor a b };

    ghost or_law: { (a b r : Self) → Self.bitor_gives a b r → number r ≡ bit_or (number a) (number b) };
}

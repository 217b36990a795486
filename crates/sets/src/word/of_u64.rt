//! Words of 64 bits.
ghost use Rattle.std.specs.Prelude.{refl};

use super::Word;

impl Word for u64 {
    ghost number = { λ n. n };

    ghost width = { 64 };

    fn zero() -> u64 {
        0
    }

    fn below(n: usize) -> u64 {
        if n >= 64 { u64::MAX } else { (1 << n) - 1 }
    }

    fn only(i: usize) -> u64 {
        if i >= 64 { 0 } else { 1 << i }
    }

    fn has(self, i: usize) -> bool {
        if i >= 64 {
            return false;
        }
        (self >> i) & 1 == 1
    }

    fn and_not(self, other: u64) -> u64 {
        self & !other
    }

    fn ones(self) -> u8 {
        self.count_ones() as u8
    }

    fn lowest(self) -> u8 {
        self.trailing_zeros() as u8
    }

    fn without_lowest(self) -> u64 {
        self & self.wrapping_sub(1)
    }

    ghost eq_law = { λ a b. refl };

    ghost can_and_law = { λ a b. tt };

    ghost and_law = { λ a b r h. h };

    ghost can_or_law = { λ a b. tt };

    ghost or_law = { λ a b r h. h };
}

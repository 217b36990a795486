//! Words of 128 bits.
ghost use Rattle.std.specs.Prelude.{refl};

use super::Word;

impl Word for u128 {
    ghost number = { λ n. n };

    ghost width = { 128 };

    fn zero() -> u128 {
        0
    }

    fn below(n: usize) -> u128 {
        if n >= 128 { u128::MAX } else { (1 << n) - 1 }
    }

    fn only(i: usize) -> u128 {
        if i >= 128 { 0 } else { 1 << i }
    }

    fn has(self, i: usize) -> bool {
        if i >= 128 {
            return false;
        }
        (self >> i) & 1 == 1
    }

    fn and_not(self, other: u128) -> u128 {
        self & !other
    }

    fn ones(self) -> u8 {
        self.count_ones() as u8
    }

    fn lowest(self) -> u8 {
        self.trailing_zeros() as u8
    }

    fn without_lowest(self) -> u128 {
        self & self.wrapping_sub(1)
    }

    ghost eq_law = { λ a b. refl };

    ghost can_and_law = { λ a b. tt };

    ghost and_law = { λ a b r h. h };

    ghost can_or_law = { λ a b. tt };

    ghost or_law = { λ a b r h. h };
}

//! A memory that forgets all at once.
ghost use Rattle.std.specs.Prelude.{◌≡◌, false};
ghost use Rattle.std.proofs.Common.{rules};

use crate::memory::Memory;

/// A memory that keeps nothing and recalls nothing.
#[derive(Clone, Copy, PartialEq, Eq, Debug, Default)]
pub struct NoMemory;

impl Memory for NoMemory {
    ghost has = { λ _ _ _. false };

    ghost keeps = { λ x _ _ y. y ≡ x };

    ghost empties = { λ x y. y ≡ x };

    ghost invents_nothing = { Prim.search rules };

    ghost forgets_all = { Prim.search rules };

    fn recall(&self, _state: u64, _left: u8) -> bool {
        false
    }

    fn keep(&mut self, _state: u64, _left: u8) {}

    fn empty(&mut self) {}
}

//! A memory with one row for each slot.
ghost use Rattle.std.specs.Prelude.{◌≡◌, length};
ghost use Rattle.memories.specs.Slots.{IsReplaced, slotted, vacant_rows};
ghost use Rattle.memories.specs.Slotting.{replaced, vacant};

use crate::memory::Memory;
use crate::row::Row;
use crate::slots::slot_of;
use std::marker::Model;

/// A memory of 256 rows, one to a slot. A new pair replaces what stood in the slot of its state.
#[derive(Drop)]
pub struct SlotMemory {
    rows: [Option<Row>; 256],
}

impl Model for SlotMemory {
    ghost use Rattle.std.specs.Prelude.{◌≡◌, List, Option, length};
    ghost use Rattle.memories.specs.declared.row.Row.{Row};

    ghost Value = { List (Option Row) };

    ghost view = { λ m. m.rows };

    ghost invariant = { λ m. length m.rows ≡ 256 };
}

impl SlotMemory {
    /// A memory with every row vacant.
    pub fn new() -> SlotMemory
        ensures { result ≡ vacant_rows }
    {
        SlotMemory { rows: [None; 256] }
    }

    /// The rows by slot; a vacant one is `None`.
    pub fn rows(&self) -> &[Option<Row>]
        ensures value { result.now ≡ self.now }
        ensures all { length result.now ≡ 256 }
    {
        &self.rows
    }
}

impl Default for SlotMemory {
    ghost is_default = { λ m. m ≡ vacant_rows };

    fn default() -> SlotMemory {
        SlotMemory::new()
    }
}

impl Memory for SlotMemory {
    ghost has = { slotted };

    ghost keeps = { IsReplaced };

    ghost empties = { λ _ y. y ≡ vacant_rows };

    ghost invents_nothing = { λ x y s n e. rw e.value (replaced x s n) };

    ghost forgets_all = { λ x y e s n. rw e (vacant s n) };

    fn recall(&self, state: u64, left: u8) -> bool {
        let slot = slot_of(state);
        self.rows[slot].is_some_and(|row| row.state == state && row.left >= left)
    }

    fn keep(&mut self, state: u64, left: u8) {
        let slot = slot_of(state);
        self.rows[slot] = Some(Row { state, left });
    }

    fn empty(&mut self) {
        self.rows = [None; 256];
    }
}

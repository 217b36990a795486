//! A memory that lists its pairs.
ghost use Rattle.std.specs.Prelude.{◌≡◌, [], position};
ghost use Rattle.memories.specs.Rows.{IsKept, IsListed, among, is_of};
ghost use Rattle.memories.specs.Keeping.{kept};

use crate::memory::Memory;
use crate::row::Row;
use crate::slots::slot_of;
use arrayvec::ArrayVec;
use std::marker::Model;

/// A memory of 256 rows that fill in order, one row to a state. Once it is full it takes no new state.
#[derive(Drop)]
pub struct ListMemory {
    rows: ArrayVec<Row, 256>,
    // For each slot, the number of its newest row.
    // Stays a table of row numbers: a search allocates nothing, so a chain can't be made of boxes.
    heads: [Option<u8>; 256],
    // For each row, the number of the next older row of its slot.
    // Stays a table beside the rows: `rows` shows the rows as one slice of pairs, in which a link has no place.
    links: [Option<u8>; 256],
}

impl Model for ListMemory {
    ghost use Rattle.std.specs.Prelude.{List};
    ghost use Rattle.memories.specs.declared.row.Row.{Row};
    ghost use Rattle.memories.specs.Chains.{IsChained};

    ghost Value = { List Row };

    ghost view = { λ m. m.rows.items };

    ghost invariant = { λ m. IsChained m.rows.items m.heads m.links };
}

impl ListMemory {
    /// A memory with no row filled.
    pub fn new() -> ListMemory
        ensures { result ≡ [] }
    {
        ListMemory {
            rows: ArrayVec::new(),
            heads: [None; 256],
            links: [None; 256],
        }
    }

    /// The rows that are filled, in order.
    pub fn rows(&self) -> &[Row]
        ensures value { result.now ≡ self.now }
        ensures listed { IsListed result.now }
    {
        &self.rows
    }

    // The number of the row in which the state stands, if it stands in one.
    fn place(&self, state: u64) -> Option<usize>
        ensures { result ≡ position (is_of state) self.now }
    {
        // Stays a walk: a chain of `successors` would take the tables into a closure, and say no more than this loop.
        let mut next = self.heads[slot_of(state)];
        while let Some(at) = next {
            let at = usize::from(at);
            if self.rows[at].state == state {
                return Some(at);
            }
            next = self.links[at];
        }
        None
    }
}

impl Default for ListMemory {
    ghost is_default = { λ m. m ≡ [] };

    fn default() -> ListMemory {
        ListMemory::new()
    }
}

impl Memory for ListMemory {
    ghost has = { among };

    ghost keeps = { IsKept };

    ghost empties = { λ _ y. y ≡ [] };

    ghost invents_nothing = { λ x y s n e. rw e.value (kept 256 x s n) };

    ghost forgets_all = { unfold among in λ x y e s n. rw e };

    fn recall(&self, state: u64, left: u8) -> bool {
        let rows = self.rows();
        self.place(state).is_some_and(|at| rows[at].left >= left)
    }

    fn keep(&mut self, state: u64, left: u8) {
        if let Some(at) = self.place(state) {
            let row = &mut self.rows[at];
            row.left = row.left.max(left);
        } else if !self.rows.is_full() {
            let at = self.rows.len();
            let slot = slot_of(state);
            self.links[at] = self.heads[slot];
            self.heads[slot] = Some(at as u8);
            self.rows.push(Row { state, left });
        }
    }

    fn empty(&mut self) {
        self.rows.clear();
        self.heads = [None; 256];
    }
}

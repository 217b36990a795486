//! The stack of what is open in a search.
ghost use Rattle.std.specs.Prelude.{◌≡◌, ◌↔◌, ◌<◌, ◌≤◌, [], ◌∷◌, length, if◌then◌else◌, IsTrue, IfOk, MatchOption};
ghost use Rattle.filter.specs.Parts.{structure};
ghost use Rattle.search.specs.Applied.{halved_entries};
ghost use Rattle.search.specs.Calls.{Keeps};
ghost use Rattle.search.specs.Depths.{Topped};
ghost use Rattle.search.specs.Entries.{below_pairs, entries_of, entry_of, pairs_on_top};
ghost use Rattle.search.specs.Machines.Entry.{pair as due, part};
ghost use Rattle.search.specs.Steps.{earlier, first_part};
ghost use Rattle.tasks.specs.Bundle.{meaning};

use crate::entry::{Entry, OpenPart};
use crate::fate::Halves;
use crate::first::first_part;
use crate::rounds::Rounds;
use memories::memory::Memory;
use memories::row::Row;
use std::alloc::{AllocError, Global};
use std::marker::Model;
use tasks::task::Task;

/// How many entries can be open at once: in round 30, with 128 actions at each step.
pub const MOST_ENTRIES: usize = 3841;

/// What is open in a search, with all the room that it will ever need: no call on it allocates.
#[derive(Drop)]
pub struct Stack {
    entries: Vec<Entry>,
}

impl Model for Stack {
    ghost use Rattle.std.specs.Prelude.{◌≡◌, List, vec_capacity};
    ghost use Rattle.search.specs.declared.stack.TheConstants.{MOST_ENTRIES};
    ghost use Rattle.search.specs.declared.entry.Entry.{Entry};

    ghost Value = { List Entry };

    ghost view = { λ s. s.entries.items };

    ghost invariant = { λ s. vec_capacity s.entries ≡ MOST_ENTRIES };
}

impl Stack {
    // A stack with nothing open.
    pub fn new(heap: Global) -> Result<Stack, AllocError>
        ensures { IfOk result (λ s. s ≡ []) }
    {
        Ok(Stack {
            entries: Vec::with_capacity(heap, MOST_ENTRIES)?,
        })
    }

    // Whether nothing is open.
    pub fn is_empty(&self) -> bool
        ensures { IsTrue result ↔ (entries_of self.now ≡ []) }
    {
        self.entries.is_empty()
    }

    // Takes everything off.
    pub fn clear(&mut self)
        ensures { self.new ≡ [] }
    {
        self.entries.clear();
    }

    // Puts the first part of a round on top.
    // Stays a clause: a full stack is a stack too, and only the callers know that there is room for one entry more.
    pub fn push_first<T: Task>(&mut self, task: &T, rounds: Rounds)
        requires { length (entries_of self.old) < MOST_ENTRIES }
        ensures { entries_of self.new ≡ part (first_part (meaning T.Task task.now) rounds.round) None ∷ entries_of self.old }
    {
        self.push(Entry::Open(OpenPart {
            part: first_part(task, rounds),
            from: None,
        }));
    }

    // Puts an entry on top.
    fn push(&mut self, entry: Entry)
        requires { length (entries_of self.old) < MOST_ENTRIES }
        ensures { entries_of self.new ≡ entry_of entry ∷ entries_of self.old }
    {
        self.entries.push_reserved(entry);
    }

    // Puts the halves of a part on top, the first above the second, and below them the pair that is due once both are gone.
    pub fn push_halves(&mut self, round: u8, from: Option<u8>, halves: Halves)
        requires step { halves.step ≤ round }
        requires room { length (halved_entries halves round from (entries_of self.old)) ≤ MOST_ENTRIES }
        ensures { entries_of self.new ≡ halved_entries halves round from (entries_of self.old) }
    {
        let step = halves.step;
        let pair = Row {
            state: halves.state,
            left: round - step,
        };
        self.push_pair(from, step, pair);
        self.push(Entry::Open(OpenPart {
            part: halves.second,
            from: Some(step),
        }));
        self.push(Entry::Open(OpenPart {
            part: halves.first,
            from: Some(step),
        }));
    }

    // Puts the pair on top where the parent was split at an earlier step than this or there is none.
    #[tactic(auto, unfolding(crate::specs::Steps::earlier))]
    fn push_pair(&mut self, from: Option<u8>, step: u8, pair: Row)
        requires { length (entries_of self.old) < MOST_ENTRIES }
        ensures { entries_of self.new ≡ (if earlier from step then due pair.state pair.left ∷ entries_of self.old else entries_of self.old) }
    {
        if from.is_none_or(|parent| parent < step) {
            self.push(Entry::Pending(pair));
        }
    }

    // Takes the newest part off.
    pub fn take_part(&mut self) -> OpenPart
        requires { Topped (entries_of self.old) }
        ensures { entries_of self.old ≡ part (structure result.part.part) result.from ∷ entries_of self.new }
    {
        let Some(top) = self.entries.pop() else {
            unreachable!()
        };
        match top {
            Entry::Open(open) => open,
            Entry::Pending(_) => unreachable!(),
        }
    }

    // Keeps the pairs on top, innermost first, until a part is on top or nothing is open.
    pub fn settle<M: Memory>(&mut self, memory: &mut M)
        ensures stack { entries_of self.new ≡ below_pairs (entries_of self.old) }
        ensures kept { Keeps M M.Memory.keeps (pairs_on_top (entries_of self.old)) memory.old memory.new }
    {
        while let Some(pair) = self.take_pair() {
            memory.keep(pair.state, pair.left);
        }
    }

    // Takes the pair on top off; none, and nothing changed, where a part is on top or nothing is open.
    fn take_pair(&mut self) -> Option<Row>
        ensures { MatchOption result
            ((self.new ≡ self.old) × (pairs_on_top (entries_of self.old) ≡ []))
            (λ p. entries_of self.old ≡ due p.state p.left ∷ entries_of self.new) }
    {
        match self.entries.pop()? {
            Entry::Pending(pair) => Some(pair),
            Entry::Open(open) => {
                self.entries.push_reserved(Entry::Open(open));
                None
            }
        }
    }
}

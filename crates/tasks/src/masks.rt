//! A task held as bit masks.
pub mod tables;

ghost use Rattle.std.specs.Prelude.{◌≡◌, ℕ, ◌<◌, ◌≤◌, true, false, length};
ghost use Rattle.sets.specs.Sets.{among, has};
ghost use Rattle.sets.specs.Signs.{says};
ghost use Rattle.tasks.specs.Bundle.{meaning};
ghost use Rattle.tasks.specs.Masks.{Own, Removes, makes_at, needs_at};
ghost use Rattle.tasks.specs.Rows.{Names, Single, Under, cell, starts};

use crate::row::Row;
use crate::start;
use crate::task::Task;
use sets::{ActionSet, Literals};
use std::array;

/// A task held as bit masks: what each action needs and makes, the usable actions, the start, the goals, and for each
/// fact the actions that make it false. It borrows and allocates nothing, and answers whole rows at once.
#[derive(Clone, Copy)]
pub struct Masks {
    facts: usize,
    actions: usize,
    usable: ActionSet,
    // Stays arrays with the counts beside them, here and for the removers: a snapshot is copied, and vectors of one size are not.
    rows: [Row; 128],
    start: u64,
    goals: Literals,
    removers: [ActionSet; 64],
    ghost some: { 1 ≤ facts },
    ghost few: { facts ≤ 64 },
    ghost most: { actions ≤ 128 },
    ghost own: { (a : ℕ) → among usable a ≡ true → a < actions },
    ghost long: { length rows ≡ 128 },
    ghost needed: { (a : ℕ) → Under facts (needs_at rows a) },
    ghost made: { (a : ℕ) → Under facts (makes_at rows a) },
    ghost needs_once: { (a : ℕ) → Single (needs_at rows a) },
    ghost makes_once: { (a : ℕ) → Single (makes_at rows a) },
    ghost needing: { Own actions (needs_at rows) },
    ghost making: { Own actions (makes_at rows) },
    ghost aimed: { Under facts goals },
    ghost aims_once: { Single goals },
    ghost wide: { length removers ≡ 64 },
    ghost removes: { Removes rows removers },
}

/// Any task as bit masks, taken once: it means what the task means, and answers whole rows at once.
pub type Snapshot = Masks;

impl Masks {
    ghost use Rattle.tasks.specs.Masked.{masked};

    /// A snapshot of the task.
    pub fn of<T: Task>(task: &T) -> Snapshot
        ensures value { masked result ≡ meaning T.Task task.now }
    {
        let actions = task.actions();
        let rows = array::from_fn(|a| row_of(task, actions, a));
        let removers = array::from_fn(|f| removers_of(&rows, f));
        Masks {
            facts: task.facts(),
            actions,
            usable: task.usable_actions(),
            rows,
            start: task.start_state(),
            goals: task.goals(),
            removers,
        }
    }

    /// The actions that make fact `f` false.
    #[tactic(auto, using(crate::specs::Masking::cell_names), unfolding(crate::specs::Masks::set_at))]
    pub fn removers(&self, f: usize) -> ActionSet
        ensures value { (a : ℕ) → among result a ≡ says ((masked self.now).makes a f) false }
    {
        self.removers.get(f).copied().unwrap_or(ActionSet::none())
    }
}

impl Task for Masks {
    ghost use Rattle.tasks.specs.Masking.{masked_lawful};

    ghost facts = { λ t. t.facts };

    ghost actions = { λ t. t.actions };

    ghost usable = { λ t. among t.usable };

    ghost needs = { λ t a. cell (needs_at t.rows a) };

    ghost makes = { λ t a. cell (makes_at t.rows a) };

    ghost start = { λ t. starts t.facts t.start };

    ghost goal = { λ t. cell t.goals };

    ghost lawful = { λ t. masked_lawful t };

    fn facts(&self) -> usize {
        self.facts
    }

    fn actions(&self) -> usize {
        self.actions
    }

    fn usable(&self, a: usize) -> bool {
        self.usable.contains(a)
    }

    fn needs(&self, a: usize, f: usize) -> i8 {
        value_in(self.row(a).needs, f)
    }

    fn makes(&self, a: usize, f: usize) -> i8 {
        value_in(self.row(a).makes, f)
    }

    fn start(&self, f: usize) -> i8 {
        start::value_at(self.start, self.facts, f)
    }

    fn goal(&self, f: usize) -> i8 {
        value_in(self.goals, f)
    }

    #[tactic(auto, using(crate::specs::Masking::cell_names), unfolding(crate::specs::Masks::row_at))]
    fn row(&self, a: usize) -> Row {
        self.rows.get(a).copied().unwrap_or(Row::none())
    }

    fn goals(&self) -> Literals {
        self.goals
    }

    fn usable_actions(&self) -> ActionSet {
        self.usable
    }

    fn start_state(&self) -> u64 {
        start::within(self.start, self.facts)
    }
}

// What an action needs and makes. Past the actions the task is not asked.
fn row_of<T: Task>(task: &T, actions: usize, a: usize) -> Row
    requires { actions ≡ T.Task.actions task.now }
    ensures needs { Names (T.Task.needs task.now a) result.needs }
    ensures makes { Names (T.Task.makes task.now a) result.makes }
{
    if a < actions {
        task.row(a)
    } else {
        Row::none()
    }
}

// The actions that make a fact false.
#[tactic(auto, using(std::proofs::lemmas::List::get_or_past, crate::proofs::Rowing::nothing_has), unfolding(crate::specs::Masks::row_at))]
fn removers_of(rows: &[Row], f: usize) -> ActionSet
    requires { length rows.now ≡ 128 }
    ensures { (a : ℕ) → among result a ≡ has (makes_at rows.now a) f false }
{
    let mut set = ActionSet::none();
    for (a, row) in rows.iter().enumerate() {
        if row.makes.contains(f, false) {
            set = set.with(a);
        }
    }
    set
}

// What a set of literals says of a fact: 1 that it is true, -1 that it is false, 0 nothing.
fn value_in(set: Literals, f: usize) -> i8
    ensures { result ≡ cell set f }
{
    if set.contains(f, true) {
        1
    } else if set.contains(f, false) {
        -1
    } else {
        0
    }
}

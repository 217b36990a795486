//! States: bit `f` of a state is set when fact `f` is true. Bits past the facts count as zero.
ghost use Rattle.std.specs.Prelude.{◌≡◌, ℕ, Bool, true, Decides};
ghost use Rattle.sets.specs.Bits.{bit};
ghost use Rattle.sets.specs.Sets.{has};
ghost use Rattle.tasks.specs.Bundle.{meaning};
ghost use Rattle.tasks.specs.States.{Applies, GoalsHold, after, start_state};

use crate::task::Task;
use sets::{FactSet, Literals};

/// The state that the task starts in.
pub fn start<T: Task>(task: &T) -> u64
    ensures value { result ≡ start_state (meaning T.Task task.now) }
{
    task.start_state()
}

/// Whether the action applies in the state: it is usable, and all that it needs holds.
pub fn applies<T: Task>(task: &T, state: u64, a: usize) -> bool
    ensures value { Decides result (Applies (meaning T.Task task.now) state a) }
{
    task.usable(a) && all_hold(task.row(a).needs, state)
}

/// The state that the action leaves: what it makes is set, all else stays.
pub fn after<T: Task>(task: &T, state: u64, a: usize) -> u64
    ensures value { result ≡ after (meaning T.Task task.now) state a }
{
    let makes = task.row(a).makes;
    let truths = FactSet { bits: state };
    let left = truths.union(makes.trues).without(makes.falses);
    left.common(FactSet::below(task.facts())).bits
}

/// Whether all goals hold in the state.
pub fn goals_hold<T: Task>(task: &T, state: u64) -> bool
    ensures value { Decides result (GoalsHold (meaning T.Task task.now) state) }
{
    all_hold(task.goals(), state)
}

// Whether all literals of the set hold in the state.
fn all_hold(literals: Literals, state: u64) -> bool
    ensures { Decides result ((f : ℕ) (v : Bool) → has literals f v ≡ true → bit state f ≡ v) }
{
    literals.without(Literals::of_state(state, 64)).is_empty()
}

//! An estimator that counts the goals that are missing.
ghost use Rattle.std.specs.Prelude.{◌≡◌, ℕ, Bool, true, false, not, ◌&&◌, ◌||◌};
ghost use Rattle.estimators.specs.GoalCounts.{goal_count};
ghost use Rattle.sets.specs.Bits.{bit};
ghost use Rattle.sets.specs.Counts.{count};
ghost use Rattle.sets.specs.Sets.{has};
ghost use Rattle.sets.specs.Signs.{is, says};
ghost use Rattle.estimators.specs.GoalCounting.{goal_count_sound};

use crate::estimator::Estimator;
use sets::Literals;
use tasks::task::Task;

/// Hopeless where more goals are missing than the actions left could make, if each made as many of them as any usable action makes.
#[derive(Clone, Copy, PartialEq, Eq, Debug, Default)]
pub struct GoalCount;

impl Estimator for GoalCount {
    ghost hopeless = { λ _. goal_count };

    ghost sound = { λ e m law. goal_count_sound m law };

    fn hopeless<T: Task>(&self, task: &T, state: u64, left: u8) -> bool {
        let missing = missing_goals(task, state);
        let many = u16::from(size(missing));
        if many == 0 {
            return false;
        }
        let mut usable = task.usable_actions().into_iter();
        usable.all(|a| u16::from(left) * u16::from(gain(task, missing, a)) < many)
    }
}

// The goals that do not hold in the state.
fn missing_goals<T: Task>(task: &T, state: u64) -> Literals
    ensures value { (f : ℕ) (v : Bool) → has result f v ≡ (says (T.Task.goal task.now f) v && is (not v) (bit state f)) }
{
    task.goals().without(Literals::of_state(state, 64))
}

// How many of the literals the action makes.
fn gain<T: Task>(task: &T, missing: Literals, a: usize) -> u8
    ensures value { result ≡ count (λ f. (says (T.Task.makes task.now a f) true && has missing f true) || (says (T.Task.makes task.now a f) false && has missing f false)) 64 }
{
    size(task.row(a).makes.common(missing))
}

// How many facts the set has a literal of.
#[tactic(auto, unfolding(sets::specs::Sets::has))]
fn size(literals: Literals) -> u8
    ensures value { result ≡ count (λ f. has literals f true || has literals f false) 64 }
{
    literals.trues.union(literals.falses).len()
}

//! An estimator for which what is made is never undone.
ghost use Rattle.std.specs.Prelude.{◌≡◌, ℕ, Bool, true, ◌&&◌, Decides};
ghost use Rattle.estimators.specs.Layers.{inside, next_layer, relaxed};
ghost use Rattle.sets.specs.Sets.{has};
ghost use Rattle.sets.specs.Signs.{says};
ghost use Rattle.tasks.specs.Bundle.{meaning};
ghost use Rattle.estimators.specs.Layering.{relaxed_sound};

use crate::estimator::Estimator;
use sets::Literals;
use tasks::task::Task;

/// Hopeless where some goal could not be had after the actions left even if making a literal never undid its opposite.
#[derive(Clone, Copy, PartialEq, Eq, Debug, Default)]
pub struct Relaxed;

impl Estimator for Relaxed {
    ghost hopeless = { λ _. relaxed };

    ghost sound = { λ e m law. relaxed_sound m law };

    fn hopeless<T: Task>(&self, task: &T, state: u64, left: u8) -> bool {
        let goals = task.goals();
        let mut layer = Literals::of_state(state, task.facts());
        for _ in 0..left {
            if lies_in(goals, layer) {
                return false;
            }
            let next = grown(task, layer);
            if lies_in(next, layer) {
                return true;
            }
            layer = next;
        }
        !lies_in(goals, layer)
    }
}

// The layer after this one.
fn grown<T: Task>(task: &T, layer: Literals) -> Literals
    ensures value { (f : ℕ) (v : Bool) → has result f v ≡ next_layer (meaning T.Task task.now) (has layer) f v }
{
    let usable = task.usable_actions().into_iter();
    usable.fold(layer, |next, a| next.union(made(task, layer, a)))
}

// What the action makes, if all that it needs is in the layer.
fn made<T: Task>(task: &T, layer: Literals, a: usize) -> Literals
    ensures value { (f : ℕ) (v : Bool) → has result f v ≡ (inside (T.Task.facts task.now) (T.Task.needs task.now a) (has layer) && says (T.Task.makes task.now a f) v) }
{
    let row = task.row(a);
    if lies_in(row.needs, layer) {
        row.makes
    } else {
        Literals::none()
    }
}

// Whether each literal of the set is in the layer.
fn lies_in(literals: Literals, layer: Literals) -> bool
    ensures value { Decides result ((f : ℕ) (v : Bool) → has literals f v ≡ true → has layer f v ≡ true) }
{
    literals.without(layer).is_empty()
}

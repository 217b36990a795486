//! Actions that do not touch what the other needs.
ghost use Rattle.std.specs.Prelude.{◌≡◌, ℕ, Bool, true, Decides, ◌≢◌};
ghost use Rattle.sets.specs.Sets.{has};
ghost use Rattle.tasks.specs.Bundle.{meaning};
ghost use Rattle.tasks.specs.Independence.{Independent};

use crate::task::Task;
use sets::Literals;

/// Whether neither action makes, with either sign, a fact that the other needs; no for a number past the actions.
pub fn independent<T: Task>(task: &T, a: usize, b: usize) -> bool
    ensures value { Decides result (Independent (meaning T.Task task.now) a b) }
{
    if a >= task.actions() || b >= task.actions() {
        return false;
    }
    let one = task.row(a);
    let other = task.row(b);
    apart(one.makes, other.needs) && apart(other.makes, one.needs)
}

// Whether no fact is named, with either sign, by both sets.
fn apart(x: Literals, y: Literals) -> bool
    ensures { Decides result ((f : ℕ) (v w : Bool) → has x f v ≡ true → has y f w ≢ true) }
{
    let these = x.trues.union(x.falses);
    let those = y.trues.union(y.falses);
    these.common(those).is_empty()
}

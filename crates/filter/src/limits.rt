//! All the literals of a task.
ghost use Rattle.std.specs.Prelude.{◌≡◌, ℕ, Bool, nat_lt};
ghost use Rattle.sets.specs.Sets.{has};
ghost use Rattle.tasks.specs.Bundle.{meaning};

use sets::Literals;
use tasks::task::Task;

/// Both values of each fact of the task.
pub fn all_literals<T: Task>(task: &T) -> Literals
    ensures value { (f : ℕ) (v : Bool) → has result f v ≡ nat_lt f (meaning T.Task task.now).facts }
{
    Literals::all(task.facts())
}

//! What an estimator is.
ghost use Rattle.std.specs.Prelude.{◌≡◌, ℕ, Bool};
ghost use Rattle.estimators.specs.Sound.{Sound};
ghost use Rattle.tasks.specs.Bundle.{meaning};
ghost use Rattle.tasks.specs.Meaning.{Lawful, Meaning};

use tasks::task::Task;

/// Says of a state and a number of actions left that it is hopeless, only where the goals can't be reached.
pub trait Estimator {
    /// What it says of a task, a state and a number left.
    ghost hopeless: { Self → Meaning → ℕ → ℕ → Bool };

    /// Whether it is hopeless to reach the goals from the state by up to `left` actions.
    fn hopeless<T: Task>(&self, task: &T, state: u64, left: u8) -> bool
        ensures value { result ≡ hopeless self.now (meaning T.Task task.now) state left };

    ghost sound: { (e : Self) (m : Meaning) → Lawful m → Sound m (hopeless e m) };
}

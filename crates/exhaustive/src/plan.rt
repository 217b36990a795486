//! A shortest plan by trying every sequence.
ghost use Rattle.tasks.specs.Bundle.{meaning};
ghost use Rattle.exhaustive.specs.Answered.{Answered};

use crate::budget::OutOfBudget;
use crate::extend::extend;
use tasks::Snapshot;
use tasks::states::start;
use tasks::task::Task;

// Stays a buffer: it is the caller's, its room is the bound on the length, and nothing is allocated.
/// Tries the sequences of actions that can be applied from the task's start, in the order of their length, up to as many
/// actions as `plan` has room for, and writes the first that reaches the goals into `plan`: it is a shortest, and its length
/// is answered, or `None` where no sequence reaches the goals. Each sequence that is tried, the empty one too, costs one of
/// the budget. Where no plan is found, `plan` is as it was.
pub fn shortest_plan<T: Task>(
    task: &T,
    budget: u64,
    plan: &mut [u8],
) -> Result<Option<usize>, OutOfBudget>
    ensures value { Answered (meaning T.Task task.now) budget plan.old plan.new result }
{
    let snapshot = Snapshot::of(task);
    let state = start(&snapshot);
    let mut left = budget;
    for n in 0..=plan.len() {
        if extend(&snapshot, state, &mut plan[..n], &mut left)? {
            return Ok(Some(n));
        }
    }
    Ok(None)
}

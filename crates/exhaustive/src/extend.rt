//! All sequences of one length from one state.
ghost use Rattle.tasks.specs.Masked.{masked};
ghost use Rattle.exhaustive.specs.Tried.{TriedAll};

use crate::budget::OutOfBudget;
use tasks::Snapshot;
use tasks::states::{after, applies, goals_hold};
use tasks::task::Task;

/// Tries the sequences of as many actions as the plan has room for, from a state on, and answers whether one reaches the
/// goals. Each costs one of the budget. Where one reaches the goals it is written into the plan; else the plan is as it was.
pub fn extend(
    task: &Snapshot,
    state: u64,
    plan: &mut [u8],
    budget: &mut u64,
) -> Result<bool, OutOfBudget>
    ensures value { TriedAll (masked task.now) state budget.old budget.new
        plan.old plan.new result }
{
    let Some((first, rest)) = plan.split_first_mut() else {
        *budget = budget.checked_sub(1).ok_or(OutOfBudget)?;
        return Ok(goals_hold(task, state));
    };
    for a in 0..task.actions() {
        if applies(task, state, a) && extend(task, after(task, state, a), rest, budget)? {
            *first = a as u8;
            return Ok(true);
        }
    }
    Ok(false)
}

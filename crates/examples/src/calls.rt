//! Bake and copy by the calls of the search.
ghost use Rattle.std.specs.Prelude.{◌≡◌, [], ◌∷◌, Ok};
ghost use Rattle.tasks.specs.Masked.{masked};
ghost use Rattle.memories.specs.Rows.{row};
ghost use Rattle.search.specs.Machines.Stage.{found};
ghost use Rattle.search.specs.Stepped.{machine_of};
ghost use Rattle.search.specs.declared.verdict.Verdict.TheVariants.{Found, Unfinished};
ghost use Rattle.examples.specs.Jobs.{bake_and_copy};

use estimators::goal_count::GoalCount;
use memories::list::ListMemory;
use search::record::Search;
use search::refusal::Refusal;
use search::verdict::Verdict;
use tasks::TableTask;

/// The task of baking and copying. Facts: dry, threaded, copied. Actions: bake, thread, copy, unthread.
pub fn baking() -> TableTask
    ensures value { masked result ≡ bake_and_copy }
{
    let needs = [0, -1, 0, 0, -1, 0, 1, 1, 0, 0, 1, 0];
    let makes = [1, 0, 0, 0, 1, 0, 0, 0, 1, 0, -1, 0];
    TableTask::from_tables(3, 4, &needs, &makes, &[-1, -1, -1], &[0, -1, 1]).unwrap()
}

/// What the calls answered.
pub struct Played {
    /// to an advance by 11
    pub first: Result<u32, Refusal>,
    /// the verdict after it
    pub between: Verdict,
    /// to an advance by 1
    pub second: Result<u32, Refusal>,
    /// the verdict in the end
    pub end: Verdict,
}

/// Opens bake and copy up to a bound of 4 in any search, with any list memory and goal count, and makes eleven steps and then one.
pub fn copy_in_twelve_steps(search: &mut Search, memory: &mut ListMemory) -> Played
    ensures eleven_steps_are_made { result.first ≡ Ok 11 }
    ensures then_it_is_unfinished { result.between ≡ Unfinished }
    ensures one_step_is_made { result.second ≡ Ok 1 }
    ensures then_a_plan_of_four_stands { result.end ≡ Found 4 }
    ensures it_is_bake_thread_copy_unthread { (machine_of search.new).stage ≡ found (0 ∷ 1 ∷ 2 ∷ 3 ∷ []) }
    ensures one_pair_was_kept { memory.new ≡ row 0 3 ∷ [] }
{
    let task = baking();
    let _ = search.open(&task, memory, 4);
    let first = search.advance(&task, memory, &GoalCount, 11);
    let between = search.verdict();
    let second = search.advance(&task, memory, &GoalCount, 1);
    let end = search.verdict();
    Played {
        first,
        between,
        second,
        end,
    }
}

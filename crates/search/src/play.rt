//! Playing a list of calls.
ghost use Rattle.std.specs.Prelude.{IfOk};
ghost use Rattle.tasks.specs.Bundle.{meaning};
ghost use Rattle.search.specs.Played.{Called, tally, untouched};
ghost use Rattle.search.specs.Plays.{PlayedOut};
ghost use Rattle.search.specs.Runs.{Run};
ghost use Rattle.search.specs.Stepped.{machine_of};

use crate::answer::Answer;
use crate::call::Call;
use crate::plan::Plan;
use crate::record::Search;
use crate::refusal::Refusal;
use crate::verdict::Verdict;
use estimators::estimator::Estimator;
use memories::memory::Memory;
use std::alloc::Global;
use std::error::Error;
use std::fmt;
use tasks::task::Task;

/// What came of a list of calls: the answers in their order, the verdict that then stands, and the plan, which is empty where none
/// stands.
#[derive(Drop)]
pub struct Played {
    pub answers: Vec<Result<Answer, Refusal>>,
    pub verdict: Verdict,
    pub plan: Plan,
}

/// Why no call was made.
#[derive(Clone, Copy, PartialEq, Eq, Debug)]
pub enum Unplayed {
    /// The search is not blank.
    NotBlank,
    /// There is no room for the answers.
    NoRoom,
}

impl fmt::Display for Unplayed {
    fn fmt<W: fmt::Write>(&self, f: &mut fmt::Formatter<W>) -> fmt::Result {
        f.write_str(match self {
            Unplayed::NotBlank => "the search is not blank",
            Unplayed::NoRoom => "there is no room for the answers",
        })
    }
}

impl Error for Unplayed {}

/// Makes the calls one after the other on a blank search, all with this task, memory and estimator, and tells what they
/// answered and what then stands. A search that is not blank is left as it is.
// Stays parameters: the search's own calls take the task, the memory and the estimator so, and each of them is the caller's.
pub fn play<T: Task, M: Memory, E: Estimator>(
    heap: Global,
    search: &mut Search,
    task: &T,
    memory: &mut M,
    estimator: &E,
    calls: &[Call],
) -> Result<Played, Unplayed>
    ensures value { PlayedOut M.Memory E.Estimator (meaning T.Task task.now) estimator.now calls.now (machine_of search.old) memory.old (machine_of search.new) memory.new result }
    ensures run { IfOk result (λ p. Run (machine_of search.new) (M.Memory.has memory.new) (meaning T.Task task.now) (E.Estimator.hopeless estimator.now (meaning T.Task task.now)) (tally untouched calls.now p.answers.items).amount) }
{
    let Verdict::Blank = search.verdict() else {
        return Err(Unplayed::NotBlank);
    };
    let mut answers = Vec::with_capacity(heap, calls.len()).map_err(|_| Unplayed::NoRoom)?;
    for call in calls {
        answers.push_reserved(make_call(search, task, memory, estimator, *call));
    }
    Ok(Played {
        answers,
        verdict: search.verdict(),
        plan: search.standing(),
    })
}

// Makes one call.
fn make_call<T: Task, M: Memory, E: Estimator>(
    search: &mut Search,
    task: &T,
    memory: &mut M,
    estimator: &E,
    call: Call,
) -> Result<Answer, Refusal>
    ensures { Called M.Memory E.Estimator (meaning T.Task task.now) estimator.now call result (machine_of search.old) memory.old (machine_of search.new) memory.new }
{
    match call {
        Call::Open(bound) => search.open(task, memory, bound).map(|()| Answer::Done),
        Call::Advance(amount) => search
            .advance(task, memory, estimator, amount)
            .map(Answer::Made),
        Call::Lift(bound) => search.lift(task, bound).map(|()| Answer::Done),
        Call::Verdict => Ok(Answer::Stands(search.verdict())),
        Call::Plan(room) => {
            let mut buffer = [0; 30];
            search.plan(&mut buffer[0..room.min(30)]).map(Answer::Wrote)
        }
    }
}

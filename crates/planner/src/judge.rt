//! Planning for a job.
ghost use Rattle.std.specs.Prelude.{IfOk};
ghost use Rattle.tasks.specs.Masked.{masked};
ghost use Rattle.search.specs.Parts.{actions_of};
ghost use Rattle.planner.specs.Planned.{Judged};

use crate::job::Job;
use estimators::estimator::Estimator;
use memories::memory::Memory;
use search::plan::Plan;
use search::record::Search;
use search::verdict::Verdict;
use std::alloc::{AllocError, Global};

/// What planning came to: the verdict, and the plan, which is empty where none was found.
#[derive(Drop)]
pub struct Outcome {
    pub verdict: Verdict,
    pub plan: Plan,
}

/// Plans for the job: opens a search, makes a million steps ten times, or fewer where a verdict falls, and asks what stands.
pub fn judge<M: Memory, E: Estimator>(
    heap: Global,
    job: &Job,
    memory: &mut M,
    estimator: &E,
) -> Result<Outcome, AllocError>
    ensures value { IfOk result (λ o. Judged (masked job.now.task) job.now.bound o.verdict (actions_of o.plan)) }
{
    let mut search = Search::new(heap)?;
    search.open(&job.task, memory, job.bound).unwrap();
    for _ in 0..10u32 {
        search
            .advance(&job.task, memory, estimator, 1_000_000)
            .unwrap();
    }
    Ok(Outcome {
        verdict: search.verdict(),
        plan: search.standing(),
    })
}

//! What the search reads in a part that the filter has left.
ghost use Rattle.std.specs.Prelude.{◌≡◌, ◌<◌, ◌≤◌, MatchOption};
ghost use Rattle.filter.specs.Filtering.{Consistent};
ghost use Rattle.filter.specs.Parts.{structure};
ghost use Rattle.filter.specs.Plans.{state_of};
ghost use Rattle.tasks.specs.Masked.{masked};
ghost use Rattle.search.specs.Parts.{OfTask, actions_of};
ghost use Rattle.search.specs.Steps.{lowest, plan_from, wide};

use crate::plan::Plan;
use filter::part::BoundedPart;
use tasks::Snapshot;

/// A part that the filter has left, with the task that it is a part of.
#[derive(Clone, Copy)]
pub struct LeftPart<'a> {
    pub snapshot: &'a Snapshot,
    pub part: &'a BoundedPart,
    ghost own: { OfTask (masked snapshot.now) part.now.part },
    ghost consistent: { Consistent (masked snapshot.now) (structure part.now.part) },
}

impl LeftPart<'_> {
    ghost use Rattle.search.specs.LeftParts.{left_of, task_of};

    // The first step with two actions or more; none where every step of the round has at most one.
    pub fn first_choice(self) -> Option<u8>
        ensures { MatchOption result
            (lowest self.entry.part.now.part.round (wide (task_of self.entry) (left_of self.entry)) ≡ self.entry.part.now.part.round)
            (λ step. (step < self.entry.part.now.part.round) × (step ≡ lowest self.entry.part.now.part.round (wide (task_of self.entry) (left_of self.entry)))) }
    {
        let steps = &self.part.part.steps[..self.part.part.round as usize];
        let step = steps.iter().position(|step| step.has_many())?;
        Some(step as u8)
    }

    // The state of a level, where each fact has one value.
    pub fn state_at(self, level: u8) -> u64
        requires { level ≤ self.part.now.part.round }
        ensures { result ≡ state_of (task_of self.entry) (left_of self.entry) level }
    {
        self.part.part.levels[level as usize].trues.bits
    }

    // The plan of a part with one action at each step.
    pub fn plan(self) -> Plan
        ensures { actions_of result ≡ plan_from (task_of self.entry) (left_of self.entry) self.entry.part.now.part.round 0 }
    {
        let steps = &self.part.part.steps[..self.part.part.round as usize];
        let mut plan = Plan::new();
        for step in steps {
            plan.push(step.lowest().unwrap_or(0));
        }
        plan
    }
}

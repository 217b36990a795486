//! The filter's calls.
ghost use Rattle.std.specs.Prelude.{Ok};
ghost use Rattle.tasks.specs.Bundle.{meaning};
ghost use Rattle.tasks.specs.Masked.{masked};
ghost use Rattle.filter.specs.Calls.{Filters, FiltersFrom, LosesNoPlan};
ghost use Rattle.filter.specs.Loops.{Settling, Restricted};

use crate::limits::all_literals;
use crate::outcome::Outcome;
use crate::part::{BoundedPart, Part};
use crate::refusal::Refusal;
use sets::{ActionSet, Literals, StageSet};
use tasks::Snapshot;
use tasks::masks::Masks;
use tasks::task::Task;

/// Leaves of a part the largest consistent one, or nothing where there is none. A round over 30 is refused.
pub fn filter<T: Task>(task: &T, part: &mut Part) -> Result<Outcome, Refusal>
    ensures value { Filters (meaning T.Task task.now) part.old result part.new }
    ensures plans { LosesNoPlan (meaning T.Task task.now) part.old result part.new }
{
    filter_snapshot(&Masks::of(task), part)
}

/// The same with a snapshot of the task.
pub fn filter_snapshot(snapshot: &Snapshot, part: &mut Part) -> Result<Outcome, Refusal>
    ensures value { Filters (masked snapshot.now) part.old result part.new }
    ensures plans { LosesNoPlan (masked snapshot.now) part.old result part.new }
{
    let mut bounded = BoundedPart::try_from(*part)?;
    let outcome = bounded.filter(snapshot);
    *part = bounded.part;
    Ok(outcome)
}

/// The same for a part that is consistent but at the stages of `due`, and has only numbers of the task.
// Stays a twin: one function that is given the middle call as a closure was tried, and its proof didn't close here.
pub fn filter_from(snapshot: &Snapshot, part: &mut Part, due: StageSet) -> Result<Outcome, Refusal>
    ensures value { FiltersFrom due (masked snapshot.now) part.old result part.new }
    ensures plans { LosesNoPlan (masked snapshot.now) part.old result part.new }
{
    let mut bounded = BoundedPart::try_from(*part)?;
    let outcome = bounded.filter_from(snapshot, due);
    *part = bounded.part;
    Ok(outcome)
}

/// Filtering a part that can't be refused.
impl BoundedPart {
    /// Leaves of the part the largest consistent one, or nothing where there is none.
    pub fn filter<T: Task>(&mut self, task: &T) -> Outcome
        ensures value { Filters (meaning T.Task task.now) self.old.part (Ok result) self.new.part }
        ensures plans { LosesNoPlan (meaning T.Task task.now) self.old.part (Ok result) self.new.part }
    {
        self.restrict(ActionSet::below(task.actions()), all_literals(task));
        self.filter_from(task, StageSet::below(self.part.round as usize))
    }

    /// The same for a part that is consistent but at the stages of `due`, and has only numbers of the task.
    pub fn filter_from<T: Task>(&mut self, task: &T, due: StageSet) -> Outcome
        ensures value { FiltersFrom due (meaning T.Task task.now) self.old.part (Ok result) self.new.part }
        ensures plans { LosesNoPlan (meaning T.Task task.now) self.old.part (Ok result) self.new.part }
    {
        match self.settle(task, due) {
            Outcome::Kept => Outcome::Kept,
            Outcome::Wiped => {
                self.restrict(ActionSet::none(), Literals::none());
                Outcome::Wiped
            }
        }
    }

    // Removes until no rule applies at the stages of `due` and those that this touches, or until a step or a fact has
    // nothing left.
    fn settle<T: Task>(&mut self, task: &T, due: StageSet) -> Outcome
        ensures value { Settling (meaning T.Task task.now) self.old.part due result self.new.part }
    {
        let mut left = due.common(StageSet::below(self.part.round as usize));
        // Stays a loop that takes from the set: each turn puts stages into it, so there is nothing to go over.
        while let Some(i) = left.pop_lowest() {
            let Some(next) = self.turn(task, i, left) else {
                return Outcome::Wiped;
            };
            left = next;
        }
        if self.part.levels[0].covers(all_literals(task)) {
            Outcome::Kept
        } else {
            Outcome::Wiped
        }
    }

    // Keeps at each step below the round and at each level up to it only what is given.
    // Stays copies: a field of a struct with a ghost field can't be lent, so each array is changed apart and put back.
    fn restrict(&mut self, actions: ActionSet, values: Literals)
        ensures value { Restricted self.old.part actions values self.new.part }
    {
        let round = self.part.round as usize;
        let mut steps = self.part.steps;
        for step in steps[..round].iter_mut() {
            *step = step.common(actions);
        }
        let mut levels = self.part.levels;
        for level in levels[..round + 1].iter_mut() {
            *level = level.common(values);
        }
        self.part.steps = steps;
        self.part.levels = levels;
    }
}

//! One turn of the filter's loop: a stage is revised, and the stages that this touches are due.
ghost use Rattle.std.specs.Prelude.{◌≡◌, ◌<◌};
ghost use Rattle.tasks.specs.Bundle.{meaning};
ghost use Rattle.filter.specs.Turns.{stage_at, Placed, Touched, Turned, Under};

use crate::limits::all_literals;
use crate::part::BoundedPart;
use crate::stage::StageMasks;
use sets::StageSet;
use tasks::task::Task;

// Stays a clause: that stage `i` is below the round ties a number to a part that changes, which no type of `i` alone says.
impl BoundedPart {
    /// Revises stage `i`, and answers which stages are due then, besides those of `due` that were; none where a step or a
    /// fact has nothing left.
    pub(crate) fn turn<T: Task>(&mut self, task: &T, i: u8, due: StageSet) -> Option<StageSet>
        requires here { i < self.old.part.round }
        requires under { Under self.old.part.round due }
        ensures value { Turned (meaning T.Task task.now) self.old.part i due result self.new.part }
    {
        let was = self.stage_at(i);
        let next = was.revise(task);
        if !next.is_whole(all_literals(task)) {
            return None;
        }
        let before = next.before != was.before;
        let after = next.after != was.after;
        self.put_stage(i, next);
        Some(self.touched(i, due, before, after))
    }

    // Stage `i` of the part.
    fn stage_at(&self, i: u8) -> StageMasks
        requires { i < self.now.part.round }
        ensures value { result ≡ stage_at self.now.part i }
    {
        let at = usize::from(i);
        StageMasks {
            before: self.part.levels[at],
            left: self.part.steps[at],
            after: self.part.levels[at + 1],
        }
    }

    // Puts stage `i` of the part in place.
    fn put_stage(&mut self, i: u8, stage: StageMasks)
        requires { i < self.old.part.round }
        ensures value { Placed self.old.part i stage self.new.part }
    {
        let at = usize::from(i);
        self.part.levels[at] = stage.before;
        self.part.levels[at + 1] = stage.after;
        self.part.steps[at] = stage.left;
    }

    // The stages due after stage `i` was revised, by whether the level before and the level after it changed.
    fn touched(&self, i: u8, due: StageSet, before: bool, after: bool) -> StageSet
        requires here { i < self.now.part.round }
        requires under { Under self.now.part.round due }
        ensures value { Touched due i self.now.part.round before after result }
    {
        let here = if before {
            due.with(usize::from(i))
        } else {
            due
        };
        let lower = if before && i > 0 {
            here.with(usize::from(i) - 1)
        } else {
            here
        };
        if after && i + 1 < self.part.round {
            lower.with(usize::from(i) + 1)
        } else {
            lower
        }
    }
}

//! One stage of a part, and what the rules leave of it.
ghost use Rattle.std.specs.Prelude.{Decides};
ghost use Rattle.tasks.specs.Bundle.{meaning};
ghost use Rattle.filter.specs.Kernel.{Fits, Joins, Surveyed, WholeStage};
ghost use Rattle.filter.specs.Revising.{Revised};

use crate::limits::all_literals;
use sets::{ActionSet, Literals};
use tasks::row::Row;
use tasks::task::Task;

/// A stage as masks: the values left before the step, the actions left at it, the values left after it.
#[derive(Clone, Copy, PartialEq, Eq)]
pub struct StageMasks {
    pub before: Literals,
    pub left: ActionSet,
    pub after: Literals,
}

/// The actions that may stay at a stage; what some of them makes, what all of them make, and what all of them need.
#[derive(Clone, Copy)]
pub struct Survey {
    pub left: ActionSet,
    pub made: Literals,
    pub agreed: Literals,
    pub wanted: Literals,
}

impl StageMasks {
    /// Whether an action is left, and a value of each fact of `all` before and after.
    pub fn is_whole(self, all: Literals) -> bool
        ensures value { Decides result (WholeStage all self) }
    {
        !self.left.is_empty() && self.before.covers(all) && self.after.covers(all)
    }

    /// Removes from the stage what the rules remove there, once over.
    pub fn revise<T: Task>(self, task: &T) -> StageMasks
        ensures value { Revised (meaning T.Task task.now) self result }
    {
        let required = all_literals(task)
            .without(self.before)
            .without(self.after.opposites());
        let seen = self.look_over(task, required);
        let after = self
            .after
            .common(self.before.union(seen.made))
            .without(seen.agreed.opposites());
        let before = self
            .before
            .common(after.union(seen.made.opposites()))
            .without(seen.wanted.opposites());
        StageMasks {
            before,
            left: seen.left,
            after,
        }
    }

    // Looks over the actions of the stage, where each literal of `required` has to be made.
    fn look_over<T: Task>(self, task: &T, required: Literals) -> Survey
        ensures value { Surveyed (meaning T.Task task.now) self required result }
    {
        let all = all_literals(task);
        let mut seen = Survey {
            left: ActionSet::none(),
            made: Literals::none(),
            agreed: all,
            wanted: all,
        };
        for a in self.left {
            let row = task.row(a);
            if self.fits(row, required) {
                seen.add(a, row);
            }
        }
        seen
    }

    // Whether an action may stay: what it needs is possible before, what it makes is possible after, and it makes what is
    // required.
    fn fits(self, row: Row, required: Literals) -> bool
        ensures value { Decides result (Fits row self required) }
    {
        let unmet = row.needs.without(self.before);
        let spoilt = row.makes.without(self.after);
        let missed = required.without(row.makes);
        unmet.union(spoilt).union(missed).is_empty()
    }
}

impl Survey {
    // Adds an action, which has this row.
    fn add(&mut self, a: usize, row: Row)
        ensures value { Joins self.old a row self.new }
    {
        self.left = self.left.with(a);
        self.made = self.made.union(row.makes);
        self.agreed = self.agreed.common(row.makes);
        self.wanted = self.wanted.common(row.needs);
    }
}

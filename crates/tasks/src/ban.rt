//! A task without some of its actions.
ghost use Rattle.std.specs.Prelude.{not, ◌&&◌};
ghost use Rattle.sets.specs.Sets.{among};
ghost use Rattle.tasks.specs.Banned.{Banned};
ghost use Rattle.tasks.specs.Layers.{banned_lawful};

use crate::refusal::Refusal;
use crate::row::Row;
use crate::task::Task;
use sets::{ActionSet, Literals};

/// A task some of whose actions are banned: they are not usable, and all else is as in the task below.
#[derive(Drop)]
pub struct Ban<T> {
    below: T,
    banned: ActionSet,
}

impl<T: Task> Ban<T> {
    /// Bans the actions of the list. Where one is not below the number of actions, the task is handed back.
    pub fn new(below: T, out: &[usize]) -> Result<Ban<T>, (Refusal, T)>
        ensures { Banned T.Task below out.now result }
    {
        let actions = below.actions();
        let mut banned = ActionSet::none();
        for a in out {
            if *a >= actions {
                return Err((Refusal::Action, below));
            }
            banned = banned.with(*a);
        }
        Ok(Ban { below, banned })
    }
}

// Stays a list of answers passed on: the language has no delegation, and the default methods would ask fact by fact.
impl<T: Task> Task for Ban<T> {
    ghost facts = { λ b. T.Task.facts b.below };

    ghost actions = { λ b. T.Task.actions b.below };

    ghost usable = { λ b a. T.Task.usable b.below a && not (among b.banned a) };

    ghost needs = { λ b. T.Task.needs b.below };

    ghost makes = { λ b. T.Task.makes b.below };

    ghost start = { λ b. T.Task.start b.below };

    ghost goal = { λ b. T.Task.goal b.below };

    ghost lawful = { λ b. banned_lawful (among b.banned) _ (T.Task.lawful b.below) };

    fn facts(&self) -> usize {
        self.below.facts()
    }

    fn actions(&self) -> usize {
        self.below.actions()
    }

    fn usable(&self, a: usize) -> bool {
        self.below.usable(a) && !self.banned.contains(a)
    }

    fn needs(&self, a: usize, f: usize) -> i8 {
        self.below.needs(a, f)
    }

    fn makes(&self, a: usize, f: usize) -> i8 {
        self.below.makes(a, f)
    }

    fn start(&self, f: usize) -> i8 {
        self.below.start(f)
    }

    fn goal(&self, f: usize) -> i8 {
        self.below.goal(f)
    }

    fn row(&self, a: usize) -> Row {
        self.below.row(a)
    }

    fn goals(&self) -> Literals {
        self.below.goals()
    }

    fn usable_actions(&self) -> ActionSet {
        self.below.usable_actions().without(self.banned)
    }

    fn start_state(&self) -> u64 {
        self.below.start_state()
    }
}

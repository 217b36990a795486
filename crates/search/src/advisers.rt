//! Deciding what becomes of a part.
ghost use Rattle.std.specs.Prelude.{◌≡◌, ◌+◌, ◌≤◌, true};
ghost use Rattle.filter.specs.Parts.{structure};
ghost use Rattle.tasks.specs.Masked.{masked};
ghost use Rattle.search.specs.Fates.{ComesTo, Decided};
ghost use Rattle.search.specs.LeftParts.{left_of, task_of};
ghost use Rattle.search.specs.Steps.{some_below, told_of};

use crate::choose::Choice;
use crate::fate::Fate;
use crate::parts::LeftPart;
use estimators::estimator::Estimator;
use filter::outcome::Outcome;
use filter::part::BoundedPart;
use memories::memory::Memory;
use tasks::Snapshot;

/// What the fate of a part is decided with.
#[derive(Drop)]
pub struct Advisers<'a, M, E> {
    pub memory: &'a M,
    pub estimator: &'a E,
}

impl<M: Memory, E: Estimator> Advisers<'_, M, E> {
    ghost use Rattle.search.specs.Advisers.{hopeless_of, recall_of};

    // Filters the part and decides what becomes of it.
    pub fn decide(&self, snapshot: &Snapshot, mut part: BoundedPart) -> Fate
        ensures { Decided (masked snapshot.now) (recall_of M.Memory self.now) (hopeless_of E.Estimator self.now (masked snapshot.now)) (structure part.part) result }
    {
        match part.filter(snapshot) {
            Outcome::Kept => self.look_at(LeftPart {
                snapshot,
                part: &part,
            }),
            Outcome::Wiped => Fate::Dropped,
        }
    }

    // Decides what becomes of a part that the filter has left.
    fn look_at(&self, part: LeftPart) -> Fate
        ensures { ComesTo (task_of part.entry) (recall_of M.Memory self.now) (hopeless_of E.Estimator self.now (task_of part.entry)) (left_of part.entry) true result }
    {
        let Some(step) = part.first_choice() else {
            return Fate::Found(part.plan());
        };
        if self.rule_out(part, step) {
            return Fate::Dropped;
        }
        let choice = Choice { within: part, step };
        Fate::Split(choice.halves())
    }

    // Whether some level up to `last`, lowest first, is hopeless.
    fn rule_out(&self, part: LeftPart, last: u8) -> bool
        requires { last ≤ part.part.now.part.round }
        ensures { result ≡ some_below (last + 1) (told_of (task_of part.entry) (recall_of M.Memory self.now) (hopeless_of E.Estimator self.now (task_of part.entry)) (left_of part.entry)) }
    {
        (0..last + 1).any(|level| self.is_hopeless(part, level))
    }

    // Whether the memory or then the estimator says that the state of a level is hopeless with the actions that are left.
    fn is_hopeless(&self, part: LeftPart, level: u8) -> bool
        requires { level ≤ part.part.now.part.round }
        ensures { result ≡ told_of (task_of part.entry) (recall_of M.Memory self.now) (hopeless_of E.Estimator self.now (task_of part.entry)) (left_of part.entry) level }
    {
        let state = part.state_at(level);
        let left = part.part.part.round - level;
        self.memory.recall(state, left) || self.estimator.hopeless(part.snapshot, state, left)
    }
}

//! How a step with a choice is split.
ghost use Rattle.std.specs.Prelude.{◌≡◌, ℕ, ◌<◌, Bool, not, ◌&&◌};
ghost use Rattle.sets.specs.Counts.{count};
ghost use Rattle.sets.specs.Sets.{among};
ghost use Rattle.tasks.specs.Meaning.{Meaning};
ghost use Rattle.filter.specs.Parts.{structure};
ghost use Rattle.filter.specs.Structures.{Structure};
ghost use Rattle.search.specs.Steps.{apart, better, half};
ghost use Rattle.search.specs.LeftParts.{left_of, task_of};

use crate::fate::Halves;
use crate::parts::LeftPart;
use filter::part::BoundedPart;
use sets::ActionSet;

/// A step of a part that is to be split.
#[derive(Clone, Copy)]
pub struct Choice<'a> {
    pub within: LeftPart<'a>,
    pub step: u8,
    ghost below: { step < within.part.now.part.round },
}

impl Choice<'_> {
    ghost use Rattle.search.specs.Choices.{deciding, goes_first, open_at};
    ghost use Rattle.search.specs.Fates.{Halved};

    // Splits the step.
    pub fn halves(self) -> Halves
        ensures { Halved (task_of self.entry.within) (left_of self.entry.within) self.entry.step result }
    {
        let taken = self.first_half();
        let rest = self.within.part.part.steps[self.step as usize].without(taken);
        Halves {
            step: self.step,
            state: self.within.state_at(self.step),
            first: self.half(taken),
            second: self.half(rest),
        }
    }

    // The part with only the given actions at the step.
    fn half(self, actions: ActionSet) -> BoundedPart
        ensures { (d : ℕ → Bool) → ((a : ℕ) → among actions a ≡ (open_at self.entry a && d a)) → structure result.part ≡ half (task_of self.entry.within) (left_of self.entry.within) self.entry.step d }
    {
        let mut half = self.within.part.part;
        half.steps[self.step as usize] = actions;
        BoundedPart { part: half }
    }

    // The half of the step's actions that is taken first: those that make the deciding fact false, or else the lowest alone.
    fn first_half(self) -> ActionSet
        ensures { (a : ℕ) → among result a ≡ (open_at self.entry a && goes_first self.entry a) }
    {
        let left = self.within.part.part.steps[self.step as usize];
        if let Some((_, fact)) = self.deciding_fact() {
            return left.common(self.within.snapshot.removers(fact));
        }
        match left.lowest() {
            Some(action) => ActionSet::none().with(action as usize),
            None => left,
        }
    }

    // The fact that decides how the step is split, after its distance; none where no fact qualifies.
    fn deciding_fact(self) -> Option<(u8, usize)>
        ensures { result ≡ deciding self.entry }
    {
        let left = self.within.part.part.steps[self.step as usize];
        let mut best = None;
        for fact in self.within.part.part.levels[self.step as usize + 1].undecided() {
            best = better(
                fact,
                distance(left, self.within.snapshot.removers(fact)),
                best,
            );
        }
        best
    }
}

// The better of a fact and the best fact before it, each after its distance: a later fact only by a smaller distance.
#[tactic(auto, unfolding(crate::specs::Steps::better))]
fn better(fact: usize, distance: Option<u8>, best: Option<(u8, usize)>) -> Option<(u8, usize)>
    ensures { (m : Meaning) (q : Structure) → result ≡ better m q fact distance best }
{
    match (distance, best) {
        (None, _) => best,
        (Some(distance), Some((least, _))) if least <= distance => best,
        (Some(distance), _) => Some((distance, fact)),
    }
}

// How far apart the actions that make a fact false and the others are in number; none where there is none of the ones or
// of the others.
fn distance(left: ActionSet, removers: ActionSet) -> Option<u8>
    ensures { result ≡ apart (count (λ a. among left a && among removers a) 128) (count (λ a. among left a && not (among removers a)) 128) }
{
    let removing = left.common(removers).len();
    let others = left.without(removers).len();
    if removing == 0 || others == 0 {
        return None;
    }
    Some(removing.abs_diff(others))
}

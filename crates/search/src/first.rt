//! The first part of a round.
ghost use Rattle.std.specs.Prelude.{◌≡◌, ℕ, ◌≤◌, Bool, length, slice_index_or};
ghost use Rattle.sets.specs.Sets.{has};
ghost use Rattle.tasks.specs.Bundle.{meaning};
ghost use Rattle.filter.specs.Parts.{no_literals, structure};
ghost use Rattle.search.specs.Steps.{first_part};

use crate::rounds::Rounds;
use filter::part::{BoundedPart, Part};
use sets::Literals;
use tasks::task::Task;

// The first part of a round: all usable actions, and all values but those against the start and those against a goal.
pub fn first_part<T: Task>(task: &T, rounds: Rounds) -> BoundedPart
    ensures { structure result.part ≡ first_part (meaning T.Task task.now) rounds.round }
{
    BoundedPart {
        part: Part {
            round: rounds.round,
            steps: [task.usable_actions(); 30],
            levels: first_levels(task, rounds),
        },
    }
}

// The values of each level up to the round.
fn first_levels<T: Task>(task: &T, rounds: Rounds) -> [Literals; 31]
    ensures long { length result ≡ 31 }
    ensures value { (i f : ℕ) (v : Bool) → i ≤ rounds.round → has (slice_index_or result i no_literals) f v ≡ (first_part (meaning T.Task task.now) rounds.round).possible i f v }
{
    let facts = task.facts();
    let last = rounds.round as usize;
    let mut levels = [Literals::all(facts); 31];
    levels[0] = Literals::of_state(task.start_state(), facts);
    levels[last] = levels[last].without(task.goals().opposites());
    levels
}

//! Carrying out what becomes of the newest part.
ghost use Rattle.std.specs.Prelude.{◌≡◌, ◌≤◌, length};
ghost use Rattle.tasks.specs.Masked.{masked};
ghost use Rattle.search.specs.Applied.{Applied, left_of_round, machine_with};
ghost use Rattle.search.specs.Entries.{entries_of};
ghost use Rattle.search.specs.Fates.{StepWithin, effect};

use crate::fate::Fate;
use crate::rounds::Rounds;
use crate::stack::{MOST_ENTRIES, Stack};
use crate::stage::Stage;
use memories::memory::Memory;
use tasks::Snapshot;

/// The stage and the rounds after a step.
#[derive(Drop)]
pub struct Standing {
    pub stage: Stage,
    pub rounds: Rounds,
}

// Carries out the fate of the part that was taken off the stack.
pub fn apply<M: Memory>(
    stack: &mut Stack,
    memory: &mut M,
    snapshot: &Snapshot,
    rounds: Rounds,
    from: Option<u8>,
    fate: Fate,
) -> Standing
    requires step { StepWithin fate rounds.round }
    requires room { length (effect (masked snapshot.now) fate rounds.bound rounds.round from (entries_of stack.old)).machine.entries ≤ MOST_ENTRIES }
    ensures { Applied M M.Memory.keeps (effect (masked snapshot.now) fate rounds.bound rounds.round from (entries_of stack.old)) (entries_of stack.new) memory.old memory.new result }
{
    match fate {
        Fate::Dropped => {
            stack.settle(memory);
            go_on(stack, snapshot, rounds)
        }
        Fate::Found(plan) => Standing {
            stage: Stage::Found(plan),
            rounds,
        },
        Fate::Split(halves) => {
            stack.push_halves(rounds.round, from, halves);
            Standing {
                stage: Stage::Unfinished,
                rounds,
            }
        }
    }
}

// Where nothing is open any more, none stands after the last round, and else the next round is put up.
fn go_on(stack: &mut Stack, snapshot: &Snapshot, rounds: Rounds) -> Standing
    ensures { machine_with result (entries_of stack.new) ≡ left_of_round (masked snapshot.now) rounds.bound rounds.round (entries_of stack.old) }
{
    if !stack.is_empty() {
        return Standing {
            stage: Stage::Unfinished,
            rounds,
        };
    }
    let Some(next) = rounds.next() else {
        return Standing {
            stage: Stage::None,
            rounds,
        };
    };
    stack.push_first(snapshot, next);
    Standing {
        stage: Stage::Unfinished,
        rounds: next,
    }
}

//! Filters parts of the largest size, and prints how many were kept and how many wiped.
#![tactic(auto)]

use filter::{Outcome, Part, filter_snapshot};
use sets::{ActionSet, Literals};
use std::array;
use tasks::masks::Masks;
use tasks::refusal::Refusal;

/// How many times each part is filtered.
const TURNS: u32 = 2000;

// A chain of 64 facts: action f makes fact f true where fact f - 1 is, action 64 + f makes fact f false.
fn chain() -> Result<Masks, Refusal> {
    let needs: [i8; 8192] = array::from_fn(needed);
    let makes: [i8; 8192] = array::from_fn(made);
    Masks::from_tables(64, 128, &needs, &makes, &[-1; 64], &[0; 64])
}

// A cell of the table of what the chain's actions need.
fn needed(cell: usize) -> i8 {
    let (a, f) = (cell / 64, cell % 64);
    if a == f {
        -1
    } else if a == f + 64 || a == f + 1 && a < 64 {
        1
    } else {
        0
    }
}

// A cell of the table of what they make.
fn made(cell: usize) -> i8 {
    let (a, f) = (cell / 64, cell % 64);
    if a == f {
        1
    } else if a == f + 64 {
        -1
    } else {
        0
    }
}

// All actions and all values over 30 steps, from all facts false to fact `goal` true.
fn part_to(goal: usize) -> Part {
    let mut part = Part {
        round: 30,
        steps: [ActionSet::below(128); 30],
        levels: [Literals::all(64); 31],
    };
    part.levels[0] = Literals::of_state(0, 64);
    part.levels[30] = Literals::all(64).without(Literals::none().with(goal, -1));
    part
}

// How often the part was kept.
fn times_kept(task: &Masks, part: Part) -> usize {
    (0..TURNS)
        .filter(|_| {
            let mut copy = part;
            filter_snapshot(task, &mut copy) == Ok(Outcome::Kept)
        })
        .count()
}

fn main(rt: HostRuntime) -> Result<(), std::io::Error> {
    if let Ok(task) = chain() {
        println!(rt;
            "reachable: {} of {TURNS} kept",
            times_kept(&task, part_to(28))
        )?;
        println!(rt;
            "too far: {} of {TURNS} kept",
            times_kept(&task, part_to(31))
        )?;
    }
    Ok(())
}

//! Prints what making a task answers at the edge of each limit, and what piles of layers answer.
#![tactic(auto)]

use std::io;
use tasks::TableTask;
use tasks::ban::Ban;
use tasks::refusal::Refusal;
use tasks::restart::Restart;
use tasks::task::Task;

// The number of the refusal, or 0 where the task is made.
fn answer(made: Result<TableTask, Refusal>) -> u8 {
    made.err().map_or(0, Refusal::number)
}

// One table task is made of zeros, but for the start, which is false throughout.
fn counts(rt: &HostRuntime, facts: usize, actions: usize) -> io::Result<()> {
    let cells = [0i8; 8256];
    let start = [-1i8; 65];
    let answer = answer(TableTask::from_tables(facts, actions, &cells, &cells, &start, &cells));
    println!(rt; "{facts} facts, {actions} actions: {answer}")
}

// Two facts and two actions, with tables of the given lengths.
fn lengths(
    rt: &HostRuntime,
    needs: &[i8],
    makes: &[i8],
    start: &[i8],
    goal: &[i8],
) -> io::Result<()> {
    let answer = answer(TableTask::from_tables(2, 2, needs, makes, start, goal));
    println!(rt;
        "tables of {}, {}, {} and {} cells: {answer}",
        needs.len(),
        makes.len(),
        start.len(),
        goal.len()
    )
}

// One fact and one action, with the given cells.
fn cells(rt: &HostRuntime, need: i8, make: i8, start: i8, goal: i8) -> io::Result<()> {
    let answer = answer(TableTask::from_tables(1, 1, &[need], &[make], &[start], &[goal]));
    println!(rt; "cells {need}, {make}, {start} and {goal}: {answer}")
}

// A task that is made, as one that the program can't go on without.
fn made<T, E: Drop>(task: Result<T, E>) -> io::Result<T> {
    task.map_err(|_| io::ErrorKind::InvalidInput.into())
}

// Three facts and two actions: action 0 needs fact 0 and makes fact 1, action 1 makes fact 2.
fn small() -> io::Result<TableTask> {
    made(TableTask::from_tables(
        3,
        2,
        &[1, 0, 0, 0, 0, 0],
        &[0, 1, 0, 0, 0, 1],
        &[1, -1, -1],
        &[0, 1, 1],
    ))
}

// Stays beside `restarts`: the two share the match alone, since each is given another list and says other things.
fn bans(rt: &HostRuntime, out: &[usize]) -> io::Result<()> {
    match Ban::new(small()?, out) {
        Ok(task) => { println!(rt; "ban {out:?}: usable {} {}", task.usable(0), task.usable(1)) }
        Err((why, below)) => {
            println!(rt;
                "ban {out:?}: {}, and action 0 of the task is usable: {}",
                why.number(),
                below.usable(0)
            )
        }
    }
}

fn restarts(rt: &HostRuntime, seen: &[i8]) -> io::Result<()> {
    match Restart::new(small()?, seen) {
        Ok(task) => {
            println!(rt;
                "restart {seen:?}: starts {} {} {}",
                task.start(0),
                task.start(1),
                task.start(2)
            )
        }
        Err((why, below)) => {
            println!(rt;
                "restart {seen:?}: {}, and fact 0 of the task starts {}",
                why.number(),
                below.start(0)
            )
        }
    }
}

// What a task of three facts and two actions answers, a line of needs, makes, start, goals and usable actions.
fn show<T: Task>(rt: &HostRuntime, name: &str, task: &T) -> io::Result<()> {
    let row = task.row(0);
    println!(rt;
        "{name}: start {}, goals {}, usable {}, action 0 needs {} and makes {}",
        task.start_state(),
        task.goals().trues.bits,
        task.usable_actions().bits,
        row.needs.trues.bits,
        row.makes.trues.bits
    )
}

// A ban over a restart, and a restart over a ban.
fn piles(rt: &HostRuntime) -> io::Result<()> {
    let started = made(Restart::new(small()?, &[2, -3]))?;
    show(rt, "ban over restart", &made(Ban::new(started, &[1]))?)?;
    let barred = made(Ban::new(small()?, &[1]))?;
    show(
        rt,
        "restart over ban",
        &made(Restart::new(barred, &[2, -3]))?,
    )
}

fn main(rt: HostRuntime) -> io::Result<()> {
    for (facts, actions) in [(0, 1), (1, 0), (64, 128), (65, 1), (1, 129)] {
        counts(&rt, facts, actions)?;
    }
    lengths(&rt, &[0; 4], &[0; 4], &[1; 2], &[0; 2])?;
    lengths(&rt, &[0; 3], &[0; 4], &[1; 2], &[0; 2])?;
    lengths(&rt, &[0; 4], &[0; 3], &[1; 2], &[0; 2])?;
    lengths(&rt, &[0; 4], &[0; 4], &[1; 1], &[0; 2])?;
    lengths(&rt, &[0; 4], &[0; 4], &[1; 2], &[0; 1])?;
    edges_of_cells(&rt)?;
    edges_of_layers(&rt)?;
    piles(&rt)
}

fn edges_of_cells(rt: &HostRuntime) -> io::Result<()> {
    for [need, make, start, goal] in [
        [1, -1, 1, -1],
        [-1, 1, -1, 1],
        [2, 0, 1, 0],
        [0, -2, 1, 0],
        [0, 0, 0, 0],
        [0, 0, 2, 0],
        [0, 0, 1, -2],
    ] {
        cells(rt, need, make, start, goal)?;
    }
    Ok(())
}

fn edges_of_layers(rt: &HostRuntime) -> io::Result<()> {
    for out in [&[][..], &[1], &[2]] {
        bans(rt, out)?;
    }
    for seen in [
        &[][..],
        &[3, -1],
        &[-3],
        &[0],
        &[4],
        &[-4],
        &[2, 2],
        &[2, -2],
    ] {
        restarts(rt, seen)?;
    }
    Ok(())
}

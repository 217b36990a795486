//! Reads sheets from its input and prints what the reader and the report make of each, to be compared with stored answers.
//!
//! A sheet begins after a line `% TITLE` and ends at the next `%`. Printed are the title and either the refusal or the counts,
//! the tables (`+` true, `-` false, `.` neither; a row to an action) and a report that names all actions.
#![tactic(auto)]

ghost use Rattle.std.specs.Prelude.{◌<◌};

use search::verdict::Verdict;
use sheet::counts::Counts;
use sheet::read::read;
use sheet::refusal::Refusal;
use sheet::refused::write_refusal;
use sheet::report::report;
use std::io::{Read, Write};
use std::{array, io};

#[cfg(test)]
mod tests;

fn main(rt: HostRuntime) -> io::Result<()> {
    let mut input = Vec::new(rt.alloc());
    let _ = rt.stdin().read_to_end(&mut input)?;
    // Shows the first million entries at most, empty ones counted; what comes after them is left out.
    for entry in input.as_slice().split(|byte| *byte == b'%').take(1_000_000) {
        if !entry.is_empty() {
            show(rt, entry)?;
        }
    }
    Ok(())
}

/// Prints the title of an entry and what its sheet says.
fn show(rt: HostRuntime, entry: &[u8]) -> io::Result<()> {
    let mut parts = entry.splitn(2, |byte| *byte == b'\n');
    let title = parts.next().unwrap_or(b"");
    let sheet = parts.next().unwrap_or(b"");
    rt.stdout().write_all(b"%")?;
    rt.stdout().write_all(title)?;
    rt.stdout().write_all(b"\n")?;
    let mut needs = [7i8; 8192];
    let mut makes = [7i8; 8192];
    let mut start = [7i8; 64];
    let mut goal = [7i8; 64];
    match read(sheet, &mut needs, &mut makes, &mut start, &mut goal) {
        Err(refusal) => show_refusal(rt, refusal),
        Ok(counts) => {
            let Counts {
                facts,
                actions,
                bound,
            } = counts;
            println!(rt; "{facts} facts, {actions} actions, bound {bound}")?;
            show_table(rt, "start", &start, facts, 1)?;
            show_table(rt, "goal", &goal, facts, 1)?;
            show_table(rt, "needs", &needs, facts, actions)?;
            show_table(rt, "makes", &makes, facts, actions)?;
            show_report(rt, sheet, actions)
        }
    }
}

/// Prints a table, a row of `facts` cells to a line.
fn show_table(
    rt: HostRuntime,
    title: &str,
    table: &[i8],
    facts: usize,
    rows: usize,
) -> io::Result<()>
    requires { 0 < facts }
{
    println!(rt; "{title}")?;
    for row in table.chunks_exact(facts).take(rows) {
        for cell in row {
            let sign: &[u8] = match *cell {
                0 => b".",
                1.. => b"+",
                _ => b"-",
            };
            rt.stdout().write_all(sign)?;
        }
        rt.stdout().write_all(b"\n")?;
    }
    Ok(())
}

/// Prints the report of a plan that has the first actions of the sheet in their order, at most 30.
fn show_report(rt: HostRuntime, sheet: &[u8], actions: usize) -> io::Result<()> {
    let plan: [u8; 30] = array::from_fn(|i| i as u8);
    let length = actions.min(30) as u8;
    let mut buffer = [0u8; 800];
    match report(sheet, Verdict::Found(length), &plan, &mut buffer) {
        Ok(n) => rt.stdout().write_all(&buffer[0..n]),
        Err(fault) => println!(rt; "no report: {}", fault.number()),
    }
}

/// Prints the refusal of a sheet.
fn show_refusal(rt: HostRuntime, refusal: Refusal) -> io::Result<()> {
    let mut buffer = [0u8; 800];
    match write_refusal(refusal, &mut buffer) {
        Ok(n) => rt.stdout().write_all(&buffer[0..n]),
        Err(fault) => println!(rt; "no text: {}", fault.number()),
    }
}

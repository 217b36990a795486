//! Reads a job sheet from standard input, or from the file that is its only argument, and prints a shortest plan.
#![tactic(auto)]

use planner::plan_text;
use planner::told::Told;
use std::fs::File;
use std::io::{Read, Write};
use std::process::ExitCode;
use std::{env, io};

/// One byte more than a sheet may have, so that a longer one is seen to be too long.
const MOST: u64 = 32_769;

fn main(rt: HostRuntime) -> io::Result<ExitCode> {
    let sheet = match read_sheet(rt) {
        Ok(sheet) => sheet,
        Err(error) => {
            eprintln!(rt; "handlings: {error}")?;
            return Ok(ExitCode::FAILURE);
        }
    };
    let mut text = [0; 800];
    let (length, status) = match plan_text(rt.alloc(), &sheet, &mut text) {
        Ok(Told::Report(n)) => (n, ExitCode::SUCCESS),
        Ok(Told::Refusal(n)) => (n, ExitCode::FAILURE),
        Err(_) => (0, ExitCode::FAILURE),
    };
    rt.stdout().write_all(&text[..length])?;
    Ok(status)
}

/// Reads the sheet: the file that is named, or standard input where none is.
fn read_sheet(rt: HostRuntime) -> io::Result<Vec<u8>> {
    let mut sheet = Vec::new(rt.alloc());
    let _ = match env::args(&rt)?.nth(1) {
        Some(path) => File::open(&rt, &path)?.take(MOST).read_to_end(&mut sheet)?,
        None => rt.stdin().take(MOST).read_to_end(&mut sheet)?,
    };
    Ok(sheet)
}

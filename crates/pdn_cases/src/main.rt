//! Runs each case that lies in the folder where the program is run: a folder of files that says what lies outside, the
//! commands, and the text and the statuses that are wanted. It tells each case that differs or can't be read, and last how
//! many there are and how many differ.
#![tactic(auto)]

mod case;
mod folder;
mod objects;
mod running;

use case::{Case, CaseErr};
use folder::{cases_there, files_in};
use running::{Outcome, outcome_of};
use std::io;
use std::process::ExitCode;
use std::rt::Files;
use std::thread::Threads;

fn main(rt: HostRuntime) -> ExitCode {
    match run_all(&rt) {
        Ok(true) => ExitCode::SUCCESS,
        Ok(false) | Err(_) => ExitCode::FAILURE,
    }
}

// Whether every case came as wanted.
fn run_all<R: Files + Print + Threads + AllocGlobal + Clone + Drop + Sync>(
    rt: &R,
) -> io::Result<bool> {
    let names = cases_there(rt)?;
    let mut differ = 0u64;
    for name in &names {
        if !is_as_wanted(rt, name.as_str())? {
            differ = differ.saturating_add(1);
        }
    }
    println!(rt; "{} cases, {differ} differ", names.len())?;
    Ok(differ == 0)
}

// Whether a case came as wanted. What came in its place is told.
fn is_as_wanted<R: Files + Print + Threads + AllocGlobal + Clone + Drop + Sync>(
    rt: &R,
    name: &str,
) -> io::Result<bool> {
    match run_case(rt, name) {
        Ok((case, outcome)) => {
            if outcome.is_wanted_by(&case) {
                return Ok(true);
            }
            println!(rt;
                "{name}: differs, statuses {:?} and the text",
                outcome.statuses
            )?;
            println!(rt; "{}", outcome.text())?;
        }
        Err(CaseErr::Unreadable(file)) => println!(rt; "{name}: can't be read: {file}")?,
        Err(CaseErr::Memory) => println!(rt; "{name}: out of memory")?,
    }
    Ok(false)
}

// A case, and what came of it.
fn run_case<R: Files + Threads + AllocGlobal + Clone + Drop + Sync>(
    rt: &R,
    name: &str,
) -> Result<(Case, Outcome), CaseErr> {
    let alloc = rt.alloc();
    let case = Case::read(alloc, &files_in(rt, name)?)?;
    let outcome = outcome_of(rt, alloc, &case, files_in(rt, name)?, files_in(rt, name)?)?;
    Ok((case, outcome))
}

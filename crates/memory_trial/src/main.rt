//! The program `memory_trial WAY N C`: runs the script on standard input in a run of at most N records (10,000 where there is no
//! number) whose pipes hold C bytes (1,024 where there is none), and prints the lines that `fdref replay` prints. WAY is `script`, where
//! `ScriptRun::run_act` runs each act, as `fdref replay` has it run; or `calls`, where each act is given by the call of `Book` for its
//! kind (`join`, `attach`, `start`, `resume`, `exit`, `close_run`), as a session gives it, and the seats are kept here. An act for which
//! memory is wanting must have left all as it was, and is given again; an exit or a closing must never be one. `tests/allocations.py`, at
//! the top of the repository, refuses it each of its allocations in turn.
#![tactic(auto)]

mod answer;
mod caller;
mod giver;
mod lines;
mod stand;
mod trial;
mod trial_fault;

use byte_ledger::ledgers::Blanks;
use call_types::limits::{Limits, PIPE_CAPACITY_DEFAULT};
use giver::Way;
use std::alloc::Global;
use std::io;
use std::io::{Read, Write};
use std::marker::Brand;
use std::process::ExitCode;
use trial::{Ran, tried};
use trial_fault::TrialFault;

/// The records of a run for which no number is given.
const DEFAULT_RECORDS: u64 = 10_000;

/// The way of a word.
fn way_of(word: &str) -> Result<Way, TrialFault> {
    match word {
        "script" => Ok(Way::Script),
        "calls" => Ok(Way::Calls),
        _ => Err(TrialFault::Usage),
    }
}

/// The number of a word.
fn number_of(word: &str) -> Result<u64, TrialFault> {
    word.parse::<u64>().map_err(|_| TrialFault::Usage)
}

/// How acts are given, and what the run may take, as the words of the command line say.
fn job_of(words: &[String]) -> Result<(Way, Limits), TrialFault> {
    let (way, records, capacity) = match words {
        [_, way] => (way, DEFAULT_RECORDS, PIPE_CAPACITY_DEFAULT),
        [_, way, records] => (way, number_of(records.as_str())?, PIPE_CAPACITY_DEFAULT),
        [_, way, records, capacity] => {
            let records = number_of(records.as_str())?;
            (way, records, number_of(capacity.as_str())?)
        }
        _ => return Err(TrialFault::Usage),
    };
    let limits = Limits::new(records, capacity).map_err(|_| TrialFault::Usage)?;
    Ok((way_of(way.as_str())?, limits))
}

/// The words of the command line.
fn words_of(rt: &HostRuntime) -> Result<Vec<String>, TrialFault> {
    match std::env::args(rt) {
        Ok(words) => Ok(words.collect(rt.alloc())?),
        Err(error) if error.kind() == io::ErrorKind::InvalidData => Err(TrialFault::Usage),
        Err(_) => Err(TrialFault::NoMemory),
    }
}

/// The run of the script that a reader gives.
fn tried_on<R: Read + Drop>(
    alloc: Global,
    reader: R,
    way: Way,
    limits: Limits,
) -> Result<Ran, TrialFault> {
    tried::<R, Brand>(alloc, reader, way, limits, Blanks::new())
}

/// Runs the script on standard input, and prints its lines, and how many acts were given again as an error.
fn run(rt: &HostRuntime) -> Result<(), TrialFault> {
    let words = words_of(rt)?;
    let (way, limits) = job_of(words.as_slice())?;
    let ran = tried_on(rt.alloc(), rt.reader(), way, limits)?;
    let mut out = io::writer(rt);
    if out.write_all(ran.lines.as_slice()).is_err() || out.flush().is_err() {
        return Err(TrialFault::CannotWrite);
    }
    if ran.again > 0 && eprint!(rt; "given again: {}\n", ran.again).is_err() {
        return Err(TrialFault::CannotWrite);
    }
    Ok(())
}

fn main(rt: HostRuntime) -> ExitCode {
    match run(&rt) {
        Ok(()) => ExitCode::SUCCESS,
        Err(ended) => {
            let _ = eprint!(rt; "{ended}");
            ExitCode::from(ended.status())
        }
    }
}

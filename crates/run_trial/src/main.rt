//! The program `run_trial RECORDS`: a run of two sessions over memory, of at most RECORDS records, with its trace in memory too.
//!
//! Each session joins and asks about descriptor 0, which is not open. A gate holds the answer at place 0 back until an answer of the
//! other session was let through. The program prints the line of the report as `fdref serve` does, how each session ended and how many
//! answers it gave, whether its last one was held back to the end, and what went wrong with the trace, if something did. Where there
//! is no report its exit status says why. `tests/shortages.py`, at the top of the repository, refuses it each of its allocations in
//! turn.
#![tactic(auto)]

mod others_first;
mod trial;
mod trial_fault;
mod waiting;

use call_types::limits::{Limits, PIPE_CAPACITY_DEFAULT};
use logged_streams::stream_log::REFUSALS_MAX;
use run_core::report::{Report, RunFault, Session};
use session_core::memory::{MemoryReader, MemoryWriter};
use std::io;
use std::io::ErrorKind;
use std::marker::Brand;
use std::process::ExitCode;
use std::sync::Wait;
use std::thread::Threads;
use std::time::Clock;
use system_lock::run::{NewRun, Run};
use trace_writer::memory::MemorySink;
use trial::ran;
use trial_fault::TrialFault;

/// The words of the command line.
fn words_of(rt: &HostRuntime) -> Result<Vec<String>, TrialFault> {
    match std::env::args(rt) {
        Ok(words) => Ok(words.collect(rt.alloc())?),
        Err(error) if error.kind() == ErrorKind::InvalidData => Err(TrialFault::Usage),
        Err(_) => Err(TrialFault::Run(RunFault::NoMemory)),
    }
}

/// What the run may take, as the words of the command line say.
fn limits_of(words: &[String]) -> Result<Limits, TrialFault> {
    let records = match words {
        [_, word] => word.parse::<u64>().map_err(|_| TrialFault::Usage)?,
        _ => return Err(TrialFault::Usage),
    };
    Limits::new(records, PIPE_CAPACITY_DEFAULT).map_err(|_| TrialFault::Usage)
}

/// Prints how a session ended, and how many answers it gave.
fn print_session(
    rt: &HostRuntime,
    session: &Session<MemoryReader, MemoryWriter>,
) -> io::Result<()> {
    let end = session.end;
    let answers = session.answers.len();
    if session.writer.log().refusals() == REFUSALS_MAX {
        return print!(rt; "end {end:?} answers {answers} held back\n");
    }
    print!(rt; "end {end:?} answers {answers}\n")
}

/// Prints the report of a run. It takes no memory.
fn print_report(
    rt: &HostRuntime,
    report: &Report<MemoryReader, MemoryWriter, MemorySink>,
) -> io::Result<()> {
    let sessions = report.sessions;
    let records = report.records;
    let bytes_in = report.bytes_in;
    let bytes_out = report.bytes_out;
    let whole = report.traced.whole;
    print!(rt;
        "sessions {sessions} records {records} in {bytes_in} out {bytes_out} trace {whole}\n"
    )?;
    for session in &report.ends {
        print_session(rt, session)?;
    }
    match report.traced.fault {
        Some(fault) => print!(rt; "trace fault {fault:?}\n"),
        None => Ok(()),
    }
}

/// Runs two sessions in threads that are started by a handle, and prints their report.
fn run<Rt: Threads + Wait + Clock + Copy + Drop + Send + Sync + 'static>(
    rt: &HostRuntime,
    handle: Rt,
) -> Result<(), TrialFault> {
    let words = words_of(rt)?;
    let limits = limits_of(words.as_slice())?;
    let report = ran::<Rt, Brand>(handle, rt.alloc(), limits, NewRun::new())?;
    print_report(rt, &report).map_err(|_| TrialFault::CannotWrite)
}

fn main(rt: HostRuntime) -> ExitCode {
    match run(&rt, rt) {
        Ok(()) => ExitCode::SUCCESS,
        Err(ended) => {
            let _ = eprint!(rt; "{ended}");
            ExitCode::from(ended.status())
        }
    }
}

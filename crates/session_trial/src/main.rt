//! The program `session_trial RECORDS KERNEL READS WRITES ACT..`, for the bytes of one session on standard input.
//!
//! It serves them in a run of at most RECORDS records. READS and WRITES say how the session's reader and writer answer: four numbers with
//! commas between, the most bytes of a call, the call that fails (0 for none), how many calls are interrupted before each one that is
//! not, and the flush that fails (0 for none). KERNEL is `knows`; or `forgets-waiting` or `forgets-all`, where the kernel does not know
//! the seat any more when a call waits, or when it is hung up. Where a call of the session would wait for the first time, the acts are
//! run, each one word as a line of a script has it. The program prints what was written, in hexadecimal, how the session ended, what its streams were asked, and the receipts of its seat.
//! `tests/sessions.py`, at the top of the repository, compares it with a model of its own.
#![tactic(auto)]

mod job;
mod shown;
mod stranger;
mod trial;
mod trial_fault;

use byte_ledger::ledgers::Blanks;
use job::job_of;
use run_history::front::Begun;
use std::io;
use std::io::{ErrorKind, Read, Write};
use std::marker::Brand;
use std::process::ExitCode;
use std::sync::Wait;
use std::thread::Threads;
use trial::tried;
use trial_fault::TrialFault;

/// The words of the command line.
fn words_of(rt: &HostRuntime) -> Result<Vec<String>, TrialFault> {
    match std::env::args(rt) {
        Ok(words) => Ok(words.collect(rt.alloc())?),
        Err(error) if error.kind() == ErrorKind::InvalidData => Err(TrialFault::Usage),
        Err(_) => Err(TrialFault::NoMemory),
    }
}

/// Reads all that there is.
fn read_input(rt: &HostRuntime) -> Result<Vec<u8>, TrialFault> {
    let mut input = Vec::new(rt.alloc());
    match rt.reader().read_to_end(&mut input) {
        Ok(_) => Ok(input),
        Err(error) if error.kind() == ErrorKind::OutOfMemory => Err(TrialFault::NoMemory),
        Err(_) => Err(TrialFault::CannotRead),
    }
}

/// Serves the session on standard input, and prints what came of it.
fn run<R: Threads + Wait + Copy + Drop + Send + Sync + 'static>(
    rt: &HostRuntime,
    waiting: R,
) -> Result<(), TrialFault> {
    let words = words_of(rt)?;
    let job = job_of(rt.alloc(), words.as_slice())?;
    let input = read_input(rt)?;
    let lines = tried::<R, Brand>(waiting, rt.alloc(), job, input, Blanks::new(), Begun::new())?;
    let mut out = io::writer(rt);
    if out.write_all(lines.as_slice()).is_err() || out.flush().is_err() {
        return Err(TrialFault::CannotWrite);
    }
    Ok(())
}

fn main(rt: HostRuntime) -> ExitCode {
    match run(&rt, rt) {
        Ok(()) => ExitCode::SUCCESS,
        Err(ended) => {
            let _ = eprint!(rt; "{ended}");
            ExitCode::from(ended.status())
        }
    }
}

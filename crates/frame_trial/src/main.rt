//! The program `frame_trial JOB requests|answers|records N M`, for the stream on standard input.
//!
//! `show` decodes it, given to a decoder as one piece of N bytes and then pieces of M. It prints a line for each value, after each piece
//! whether the stream goes on, and at the end the frames of the values, written anew, in hexadecimal. A piece for which memory is
//! wanting is given again. `tests/frames.py`, at the top of the repository, compares it with a decoder of its own.
//!
//! `decode` decodes it M times, in pieces of N bytes, and prints how many values that gave; `encode` encodes its values M times, into a
//! buffer that is used again after N bytes, and prints how many bytes that made. `bench/frames.py` times them.
#![tactic(auto)]

mod shown;
mod timed;
mod trial;
mod trial_fault;

use frame_codec::frame_kind::{Answers, Records, Requests};
use itoa::Buffer;
use shown::Shown;
use std::alloc::Global;
use std::io;
use std::io::Write;
use std::process::ExitCode;
use timed::{decoded_often, encoded_often};
use trial::{Cut, Ran, read_stream, tried};
use trial_fault::TrialFault;

/// A number, as a word of the command line says it.
fn number_of(word: &str) -> Result<usize, TrialFault> {
    word.parse::<usize>().map_err(|_| TrialFault::Usage)
}

/// The line of a number.
fn numbered(alloc: Global, number: u64) -> Result<Ran, TrialFault> {
    let mut lines = Vec::new(alloc);
    let mut buffer = Buffer::new();
    lines.extend_from_slice(buffer.format(number).as_bytes())?;
    lines.extend_from_slice(b"\n")?;
    Ok(Ran { lines, again: 0 })
}

/// Does a job for a kind of stream.
fn run_job<K: Shown>(
    alloc: Global,
    job: &str,
    stream: &[u8],
    first: usize,
    second: usize,
) -> Result<Ran, TrialFault> {
    match job {
        "show" => tried::<K>(
            alloc,
            Cut {
                first,
                size: second,
            },
            stream,
        ),
        "decode" => numbered(alloc, decoded_often::<K>(alloc, stream, first, second)?),
        "encode" => numbered(alloc, encoded_often::<K>(alloc, stream, first, second)?),
        _ => Err(TrialFault::Usage),
    }
}

/// Does what the words of the command line ask for.
fn run_words(rt: &HostRuntime, words: &[String]) -> Result<Ran, TrialFault> {
    match words {
        [_, job, kind, first, second] => {
            let (first, second) = (number_of(first)?, number_of(second)?);
            let stream = read_stream(rt.alloc(), rt.reader())?;
            let (job, stream) = (job.as_str(), stream.as_slice());
            match kind.as_str() {
                "requests" => run_job::<Requests>(rt.alloc(), job, stream, first, second),
                "answers" => run_job::<Answers>(rt.alloc(), job, stream, first, second),
                "records" => run_job::<Records>(rt.alloc(), job, stream, first, second),
                _ => Err(TrialFault::Usage),
            }
        }
        _ => Err(TrialFault::Usage),
    }
}

/// The words of the command line.
fn words_of(rt: &HostRuntime) -> Result<Vec<String>, TrialFault> {
    match std::env::args(rt) {
        Ok(words) => Ok(words.collect(rt.alloc())?),
        Err(error) if error.kind() == io::ErrorKind::InvalidData => Err(TrialFault::Usage),
        Err(_) => Err(TrialFault::NoMemory),
    }
}

/// Decodes standard input, and prints what came of it, and how many pieces were given again as an error.
fn run(rt: &HostRuntime) -> Result<(), TrialFault> {
    let words = words_of(rt)?;
    let ran = run_words(rt, words.as_slice())?;
    let mut out = io::writer(rt);
    if out.write_all(ran.lines.as_slice()).is_err() || out.flush().is_err() {
        return Err(TrialFault::CannotWrite);
    }
    if ran.again > 0 && eprint!(rt; "given again: {}\n", ran.again).is_err() {
        return Err(TrialFault::CannotWrite);
    }
    Ok(())
}

fn main(rt: HostRuntime) -> ExitCode {
    match run(&rt) {
        Ok(()) => ExitCode::SUCCESS,
        Err(ended) => {
            let _ = eprint!(rt; "{ended}");
            ExitCode::from(ended.status())
        }
    }
}

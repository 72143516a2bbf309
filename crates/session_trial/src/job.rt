//! What the words of the command line ask for.
use crate::stranger::Forgets;
use crate::trial_fault::TrialFault;
use call_types::act::ScriptAct;
use call_types::limits::{Limits, PIPE_CAPACITY_DEFAULT};
use script_text::reading::read_act;
use session_core::memory::Manner;
use std::alloc::{AllocError, Global};

/// One session that is to be served.
#[derive(Drop)]
pub(crate) struct Job {
    pub limits: Limits,
    pub forgets: Forgets,
    pub reads: Manner,
    pub writes: Manner,
    /// The acts that are run where a call would wait for the first time.
    pub acts: Vec<ScriptAct>,
}

/// A number.
fn number_of(word: &str) -> Result<u64, TrialFault> {
    word.parse::<u64>().map_err(|_| TrialFault::Usage)
}

/// A call, none where the number is 0.
fn call_of(word: &str) -> Result<Option<u64>, TrialFault> {
    match number_of(word)? {
        0 => Ok(None),
        call => Ok(Some(call)),
    }
}

/// How a stream answers.
fn manner_of(word: &str) -> Result<Manner, TrialFault> {
    let (most, others) = word.split_once(",").ok_or(TrialFault::Usage)?;
    let (fails_at, others) = others.split_once(",").ok_or(TrialFault::Usage)?;
    let (interruptions, flush_fails_at) = others.split_once(",").ok_or(TrialFault::Usage)?;
    Ok(Manner {
        most: number_of(most)? as usize,
        fails_at: call_of(fails_at)?,
        interruptions: interruptions.parse::<u32>().map_err(|_| TrialFault::Usage)?,
        flush_fails_at: call_of(flush_fails_at)?,
    })
}

/// What a kernel forgets.
fn forgets_of(word: &str) -> Result<Forgets, TrialFault> {
    match word {
        "knows" => Ok(Forgets::Nothing),
        "forgets-waiting" => Ok(Forgets::WhoWaits),
        "forgets-all" => Ok(Forgets::All),
        _ => Err(TrialFault::Usage),
    }
}

/// The acts of lines.
fn acts_of(alloc: Global, lines: &[String]) -> Result<Vec<ScriptAct>, TrialFault> {
    let mut acts = Vec::new(alloc);
    for line in lines {
        let act = read_act(alloc, line.as_bytes())?;
        acts.push(act).map_err(AllocError::from)?;
    }
    Ok(acts)
}

/// The job that words ask for.
pub(crate) fn job_of(alloc: Global, words: &[String]) -> Result<Job, TrialFault> {
    match words {
        [_, records, kernel, reads, writes, lines @ ..] => Ok(Job {
            limits: Limits::new(number_of(records.as_str())?, PIPE_CAPACITY_DEFAULT).map_err(
                |_| TrialFault::Usage,
            )?,
            forgets: forgets_of(kernel.as_str())?,
            reads: manner_of(reads.as_str())?,
            writes: manner_of(writes.as_str())?,
            acts: acts_of(alloc, lines)?,
        }),
        _ => Err(TrialFault::Usage),
    }
}

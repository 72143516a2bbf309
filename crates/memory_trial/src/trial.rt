//! One run of a script, in which an act for which memory is wanting is given again.

ghost use Rattle.std.specs.Prelude.{◌≡◌};

use crate::answer::Answer;
use crate::giver::{Giver, Way};
use crate::lines::gather;
use crate::stand::Stand;
use crate::trial_fault::TrialFault;
use byte_ledger::ledgers::{Blanks, Ledgers};
use call_types::act::ScriptAct;
use call_types::limits::Limits;
use call_types::refusal::Refusal;
use script_text::lines::write_totals;
use script_text::script::{SCRIPT_MAX, Script};
use std::alloc::{AllocError, Global};
use std::io::{ErrorKind, Read};

/// Whether an act takes no memory.
fn is_end(act: &ScriptAct) -> bool {
    matches!(act, ScriptAct::Exit { .. } | ScriptAct::CloseRun)
}

/// What is printed of a run.
#[derive(Drop)]
pub(crate) struct Ran {
    /// The lines of what was told.
    pub lines: Vec<u8>,
    /// How many acts were given again.
    pub again: u64,
}

/// A run so far.
#[derive(Drop)]
struct Run<L: Ledgers> {
    giver: Giver<L>,
    /// How many acts were given.
    acts: u64,
}

impl<L: Ledgers> Run<L> {
    /// A run without records to which acts are given in this way. A book counts them by these ledgers.
    fn new(alloc: Global, way: Way, limits: Limits, blanks: Blanks) -> Result<Self, AllocError>
        requires { blanks ≡ L.names }
    {
        Ok(Run {
            giver: Giver::new(alloc, way, limits, blanks)?,
            acts: 0,
        })
    }

    /// Whether an act for which memory was wanting may be given again: it takes memory, and left all as it was before.
    fn may_be_given_again(&self, act: &ScriptAct, before: &Stand) -> Result<(), TrialFault> {
        if is_end(act) {
            return Err(TrialFault::EndRefused { act: self.acts });
        }
        if self.giver.stand() != *before {
            return Err(TrialFault::Changed { act: self.acts });
        }
        Ok(())
    }

    /// Gives an act once more.
    fn give_again(
        &mut self,
        alloc: Global,
        act: ScriptAct,
        again: &mut u64,
    ) -> Result<Answer, TrialFault> {
        *again = again.saturating_add(1);
        match self.giver.give(alloc, act)? {
            Answer::Refused {
                refusal: Refusal::NoMemory,
                ..
            } => Err(TrialFault::RefusedTwice { act: self.acts }),
            told => Ok(told),
        }
    }

    /// Gives an act; where memory is wanting, it must have left all as it was, and is given again.
    fn give(
        &mut self,
        alloc: Global,
        act: ScriptAct,
        again: &mut u64,
    ) -> Result<Answer, TrialFault> {
        let before = self.giver.stand();
        match self.giver.give(alloc, act)? {
            Answer::Refused {
                act,
                refusal: Refusal::NoMemory,
                ..
            } => {
                self.may_be_given_again(&act, &before)?;
                self.give_again(alloc, act, again)
            }
            told => Ok(told),
        }
    }

    /// Gives the next act, and gathers its lines.
    fn give_next(
        &mut self,
        alloc: Global,
        act: ScriptAct,
        ran: &mut Ran,
    ) -> Result<(), TrialFault> {
        self.acts = self.acts.saturating_add(1);
        let told = self.give(alloc, act, &mut ran.again)?;
        gather(&mut ran.lines, &told)?;
        Ok(())
    }
}

/// Reads the whole script, or one byte more than a script has.
fn read_text<R: Read + Drop>(alloc: Global, reader: R) -> Result<Vec<u8>, TrialFault> {
    let mut text = Vec::new(alloc);
    let mut reader = reader.take(SCRIPT_MAX as u64 + 1);
    match reader.read_to_end(&mut text) {
        Ok(_) => Ok(text),
        Err(error) if error.kind() == ErrorKind::OutOfMemory => Err(TrialFault::NoMemory),
        Err(_) => Err(TrialFault::CannotRead),
    }
}

/// Gives the acts that are left of a script to a run, one after another.
fn give_all<L: Ledgers>(
    alloc: Global,
    script: &mut Script<'_>,
    run: &mut Run<L>,
    ran: &mut Ran,
) -> Result<(), TrialFault> {
    while let Some(act) = script.next_act(alloc)? {
        run.give_next(alloc, act, ran)?;
    }
    Ok(())
}

/// Gives the acts of a script to a run, and gathers its lines and the line of totals.
fn run_script<L: Ledgers>(
    alloc: Global,
    text: &[u8],
    run: &mut Run<L>,
    ran: &mut Ran,
) -> Result<(), TrialFault> {
    let mut script = Script::new(text)?;
    give_all(alloc, &mut script, run, ran)?;
    let counts = run.giver.counts();
    write_totals(
        &mut ran.lines,
        counts.records,
        counts.bytes_in,
        counts.bytes_out,
    )?;
    Ok(())
}

/// Runs a script, counted by these ledgers, whose acts are given in this way.
fn run_text<L: Ledgers>(
    alloc: Global,
    text: &[u8],
    way: Way,
    limits: Limits,
    blanks: Blanks,
    ran: &mut Ran,
) -> Result<(), TrialFault>
    requires { blanks ≡ L.names }
{
    // A match, since `?` would move the run three times more.
    match Run::<L>::new(alloc, way, limits, blanks) {
        Ok(mut run) => run_script(alloc, text, &mut run, ran),
        Err(error) => Err(TrialFault::from(error)),
    }
}

/// The run of the script that a reader gives, counted by these ledgers, whose acts are given in this way.
pub(crate) fn tried<R: Read + Drop, L: Ledgers>(
    alloc: Global,
    reader: R,
    way: Way,
    limits: Limits,
    blanks: Blanks,
) -> Result<Ran, TrialFault>
    requires { blanks ≡ L.names }
{
    let text = read_text(alloc, reader)?;
    let mut ran = Ran {
        lines: Vec::new(alloc),
        again: 0,
    };
    run_text::<L>(alloc, text.as_slice(), way, limits, blanks, &mut ran)?;
    Ok(ran)
}

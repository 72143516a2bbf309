//! The run of a script.

ghost use Rattle.std.specs.Prelude.{◌≡◌, [], IfOk};
ghost use Rattle.record_book.specs.RunState.{new_run};
ghost use Rattle.script_run.specs.Fits.{FitsRun, IsCounted, RunsFrom};
ghost use Rattle.script_run.specs.ToldOf.{IsToldOf};
ghost use Rattle.record_book.specs.Book.{new_book};
ghost use Rattle.script_run.specs.Proved.Going.{answer_of};

use crate::append::append_closing;
use crate::closing::end_orphans;
use crate::opening::{run_attach, run_join};
use crate::running::{run_call, run_exit, run_resume};
use crate::told::{ScriptAnswer, Told};
use byte_ledger::tallies::Sums;
use call_types::act::{HOUSE, ScriptAct};
use call_types::limits::{Limits, PROCESSES_MAX};
use call_types::refusal::Refusal;
use posix_model::laws::processes_are_counted;
use posix_model::pipe_laws::bytes_of_pipe;
use record_book::progress::Progress;
use std::alloc::{AllocError, Global};
use std::marker::Model;
use std::mem;

/// The run of a script: where its acts so far led, and room for what its closing will tell. It keeps no record. Contracts see its limits,
/// the world that its records led to, and what is counted of them; the records themselves are those of any book that *fits* it.
#[derive(Drop)]
pub struct ScriptRun {
    progress: Progress,
    /// Empty; while the run is open, it has room for the exits of all processes and for the closing.
    closing: Vec<Told>,
}

impl Model for ScriptRun {
    ghost use Rattle.record_book.specs.RunState.{RunState};

    ghost Value = { RunState };

    ghost use Rattle.script_run.specs.Proved.Inside.{HasClosing};

    ghost view = { λ s. s.progress };

    ghost invariant = { λ s. HasClosing s.progress s.closing };
}

/// What is told of an act that was recorded or refused.
#[inline(always)]
fn told_of(actor: u32, act: ScriptAct, ran: Result<Told, Refusal>) -> ScriptAnswer
    ensures { result ≡ answer_of actor act ran }
{
    match ran {
        Ok(told) => ScriptAnswer::Recorded(told),
        Err(refusal) => ScriptAnswer::Refused {
            actor,
            act,
            refusal,
        },
    }
}

impl ScriptRun {
    /// A run without records, with all that its closing will need. An error says that memory ran out.
    pub fn new(alloc: Global, limits: Limits) -> Result<Self, AllocError>
        ensures run { IfOk result (λ run. run ≡ new_run limits) }
        ensures fits { IfOk result (λ run. FitsRun (new_book limits) [] run) }
    {
        Ok(ScriptRun {
            closing: Vec::with_capacity(alloc, PROCESSES_MAX + 1)?,
            progress: Progress::new(alloc, limits),
        })
    }

    /// How many records the run has, and how many bytes they took and gave. The records are a run of the model, in which each pipe holds
    /// the bytes that were put into it and not yet taken out, and the data of a write of at most 512 bytes (PIPE_BUF) went in unbroken
    /// (page of write).
    pub fn counts(&self) -> Sums
        ensures { IsCounted self.now result }
    {
        bytes_of_pipe();
        self.progress.has_reserve();
        self.progress.sums()
    }

    /// Closes the run, if it is open: ends the processes without a connection, in the order of their numbers. It takes no memory.
    fn run_closing(&mut self, alloc: Global) -> ScriptAnswer
        ensures tells { RunsFrom self.old self.new ScriptAct.CloseRun result }
        ensures own { IsToldOf ScriptAct.CloseRun result }
        ensures limits { self.new.limits ≡ self.old.limits }
    {
        if self.progress.is_closed() {
            return ScriptAnswer::Still {
                actor: HOUSE,
                act: ScriptAct::CloseRun,
            };
        }
        self.progress.has_reserve();
        processes_are_counted();
        let mut told = mem::replace(&mut self.closing, Vec::new(alloc));
        end_orphans(&mut self.progress, &mut told);
        told.push_reserved(append_closing(&mut self.progress));
        ScriptAnswer::Closed(told)
    }

    /// Runs the next act of a script, and tells of it. What was told of the earlier acts, followed by this, is what is told of all of them.
    /// An exit and a closing are never refused for want of memory. `NoMemory` and `RunFull` leave the run as it was.
    #[tactic(auto, using(crate::proofs::ToldLemmas::call_told, crate::proofs::ToldLemmas::resume_told, crate::proofs::ToldLemmas::join_told, crate::proofs::ToldLemmas::attach_told, crate::proofs::ToldLemmas::exit_told))]
    pub fn run_act(&mut self, alloc: Global, act: ScriptAct) -> ScriptAnswer
        ensures tells { RunsFrom self.old self.new act result }
        ensures own { IsToldOf act result }
        ensures limits { self.new.limits ≡ self.old.limits }
    {
        processes_are_counted();
        match act {
            ScriptAct::Call { process, call } => run_call(&mut self.progress, alloc, process, call),
            ScriptAct::Join => {
                let actor = self.progress.next_pid();
                let ran = run_join(&mut self.progress, alloc);
                told_of(actor, ScriptAct::Join, ran)
            }
            ScriptAct::Attach { process } => {
                let ran = run_attach(&mut self.progress, process);
                told_of(process, ScriptAct::Attach { process }, ran)
            }
            ScriptAct::Resume { process } => run_resume(&mut self.progress, alloc, process),
            ScriptAct::Exit { process } => {
                let ran = run_exit(&mut self.progress, process);
                told_of(process, ScriptAct::Exit { process }, ran)
            }
            ScriptAct::CloseRun => self.run_closing(alloc),
        }
    }
}

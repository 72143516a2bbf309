//! Calls, those that wait taken up again, and exits.

ghost use Rattle.std.specs.Prelude.{◌≡◌};
ghost use Rattle.script_run.specs.Proved.Going.{CallGoes, ExitGoes, ResumeGoes};

use crate::append::{append, append_exit};
use crate::told::{ScriptAnswer, Told};
use call_types::act::{Act, ScriptAct};
use call_types::call::Call;
use call_types::refusal::Refusal;
use record_book::progress::Progress;
use std::alloc::Global;

/// What is told of a call that is refused.
#[inline(always)]
fn call_refused(process: u32, call: Call, refusal: Refusal) -> ScriptAnswer
    ensures { result ≡ ScriptAnswer.Refused process (ScriptAct.Call process call) refusal }
{
    ScriptAnswer::Refused {
        actor: process,
        act: ScriptAct::Call { process, call },
        refusal,
    }
}

/// What is told of a resume that is refused.
fn resume_refused(process: u32, refusal: Refusal) -> ScriptAnswer
    ensures { result ≡ ScriptAnswer.Refused process (ScriptAct.Resume process) refusal }
{
    ScriptAnswer::Refused {
        actor: process,
        act: ScriptAct::Resume { process },
        refusal,
    }
}

/// Runs a call.
#[inline(always)]
pub(crate) fn run_call(
    progress: &mut Progress,
    alloc: Global,
    process: u32,
    call: Call,
) -> ScriptAnswer
    ensures { CallGoes progress.old progress.new process call result }
{
    if let Some(refusal) = progress.call_refusal(process, &call) {
        return call_refused(process, call, refusal);
    }
    let decided = match progress.call_comes_to(alloc, process, &call) {
        Ok(decided) => decided,
        Err(_) => return call_refused(process, call, Refusal::NoMemory),
    };
    let act = Act::Call(call);
    progress.is_planned(process, &act, &decided);
    match append(progress, process, act, decided) {
        Ok(told) => ScriptAnswer::Recorded(told),
        Err(Act::Call(call)) => call_refused(process, call, Refusal::NoMemory),
        Err(_) => unreachable!(),
    }
}

/// Runs a resume: takes up the call that the process waits in, if it is ready. That it is not is told before the run can be full and
/// before memory can run out.
pub(crate) fn run_resume(progress: &mut Progress, alloc: Global, process: u32) -> ScriptAnswer
    ensures { ResumeGoes progress.old progress.new process result }
{
    if !progress.is_attached(process) {
        return resume_refused(process, Refusal::NotHere);
    }
    if !progress.is_ready(process) {
        return ScriptAnswer::Still {
            actor: process,
            act: ScriptAct::Resume { process },
        };
    }
    if progress.resume_overfills(process) {
        return resume_refused(process, Refusal::RunFull);
    }
    let decided = match progress.resume_comes_to(alloc, process) {
        Ok(decided) => decided,
        Err(_) => return resume_refused(process, Refusal::NoMemory),
    };
    progress.is_planned(process, &Act::Resume, &decided);
    match append(progress, process, Act::Resume, decided) {
        Ok(told) => ScriptAnswer::Recorded(told),
        Err(_) => resume_refused(process, Refusal::NoMemory),
    }
}

/// Runs an exit. It takes no memory.
pub(crate) fn run_exit(progress: &mut Progress, process: u32) -> Result<Told, Refusal>
    ensures { ExitGoes progress.old progress.new process result }
{
    if !progress.is_attached(process) {
        return Err(Refusal::NotHere);
    }
    Ok(append_exit(progress, process))
}

//! Joins and attaches.

ghost use Rattle.script_run.specs.Proved.Going.{JoinGoes, AttachGoes};

use crate::append::append;
use crate::told::Told;
use call_types::act::Act;
use call_types::refusal::Refusal;
use record_book::progress::Progress;
use std::alloc::Global;

/// Runs a join: a new process, already attached, or EAGAIN.
pub(crate) fn run_join(progress: &mut Progress, alloc: Global) -> Result<Told, Refusal>
    ensures { JoinGoes progress.old progress.new result }
{
    if progress.join_overfills() {
        return Err(Refusal::RunFull);
    }
    let actor = progress.next_pid();
    let decided = progress.join_comes_to(alloc)?;
    progress.is_planned(actor, &Act::Join, &decided);
    match append(progress, actor, Act::Join, decided) {
        Ok(told) => Ok(told),
        Err(_) => Err(Refusal::NoMemory),
    }
}

/// Runs an attach: a child that waits for a connection gets it, or ESRCH.
pub(crate) fn run_attach(progress: &mut Progress, process: u32) -> Result<Told, Refusal>
    ensures { AttachGoes progress.old progress.new process result }
{
    if progress.attach_overfills(process) {
        return Err(Refusal::RunFull);
    }
    let decided = progress.attach_comes_to(process);
    progress.is_planned(process, &Act::Attach, &decided);
    match append(progress, process, Act::Attach, decided) {
        Ok(told) => Ok(told),
        Err(_) => Err(Refusal::NoMemory),
    }
}

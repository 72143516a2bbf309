//! How records are made and told.

ghost use Rattle.std.specs.Prelude.{◌≡◌, true, false, is_some, IfOk, IfErr};
ghost use Rattle.slots.specs.Slots.{slot};
ghost use Rattle.record_book.specs.Exits.{exit_record, closing_record};
ghost use Rattle.record_book.specs.Proved.Planned.{IsPlanned};
ghost use Rattle.script_run.specs.Proved.Going.{Grows};

use crate::told::Told;
use call_types::act::{Act, HOUSE, Record};
use call_types::outcome::{Outcome, Reply};
use posix_model::change::Decided;
use record_book::progress::Progress;

/// Makes and tells the record of a planned act. Where there is no memory for its change, all stays as it was, and the act is given back.
#[inline(always)]
pub(crate) fn append(
    progress: &mut Progress,
    actor: u32,
    act: Act,
    decided: Decided,
) -> Result<Told, Act>
    requires planned { IsPlanned progress.old actor act decided }
    ensures grows { IfOk result (λ told. Grows progress.old progress.new actor act told) }
    ensures err { IfErr result (λ back. (back ≡ act) × (progress.new ≡ progress.old)) }
{
    let place = progress.sums().records;
    let item = Record {
        actor,
        act,
        outcome: decided.outcome,
    };
    match progress.append(&item, decided.change) {
        Ok(_) => Ok(Told::new(place, item)),
        Err(_) => Err(item.act),
    }
}

/// What is told of an act whose reply is ok.
fn done_at(place: u64, actor: u32, act: Act) -> Told
    ensures { result ≡ record { place = place; record_is = record { actor = actor; act = act; outcome = Outcome.Reply Reply.Done } } }
{
    let outcome = Outcome::Reply(Reply::Done);
    Told::new(
        place,
        Record {
            actor,
            act,
            outcome,
        },
    )
}

/// Ends a live process. It takes no memory.
pub(crate) fn append_exit(progress: &mut Progress, process: u32) -> Told
    requires { is_some (slot progress.old.world.processes process) ≡ true }
    ensures grows { Grows progress.old progress.new process Act.Exit result }
    ensures record_is { result.record_is ≡ exit_record process }
{
    let place = progress.sums().records;
    progress.end_process(process);
    done_at(place, process, Act::Exit)
}

/// Closes an open run. It takes no memory.
pub(crate) fn append_closing(progress: &mut Progress) -> Told
    requires { progress.old.world.closed ≡ false }
    ensures grows { Grows progress.old progress.new HOUSE Act.CloseRun result }
    ensures record_is { result.record_is ≡ closing_record }
{
    let place = progress.sums().records;
    progress.close();
    done_at(place, HOUSE, Act::CloseRun)
}

//! One request of a session.

ghost use Rattle.std.specs.Prelude.{◌≡◌, ◌∷◌, [], OnOk, OnErr};
ghost use Rattle.call_types.specs.declared.request.Request.TheVariants as request;
ghost use Rattle.run_history.specs.Fronts.{Grows, Since};
ghost use Rattle.session_core.specs.declared.stage.Stage.TheVariants as stage;
ghost use Rattle.session_core.specs.Proved.Turns.{TakesUp, PutsFirst, PutsGivenUp, IsOne, WaitsOnce, GivesUp, TellsWhy, TurnSays, WaitSays, goes_on, turn_of};
ghost use Rattle.system_lock.specs.Kernel.{AsksForASeat, IsWanting, IsWhyFinished, FinishesBy, SaysEnded, itself};
ghost use Rattle.session_core.specs.Proved.Saying.{TurnSaid};
ghost use Rattle.session_core.specs.Refusals.{RefusalSaid};

use crate::gate::Gate;
use crate::note::Note;
use crate::output::Output;
use crate::stage::{Called, LeaveCause, Over, Stage, Standing, TurnOf};
use call_types::call::Call;
use call_types::outcome::Outcome;
use call_types::refusal::Refusal;
use call_types::request::Request;
use record_book::opening::Opened;
use record_book::seat::Receipt;
use run_history::front::Front;
use std::alloc::AllocError;
use std::io::Write;
use std::sync::Wait;
use system_lock::kernel::{AdmissionTo, EndedIn, Finished, FinishedIn, KernelOf, NotOpened, Why};
use system_lock::run::Run;
use system_lock::run_seat::RunSeat;

/// Answers an opening by the one receipt that there is.
fn put_first<W: Write, G: Gate>(
    output: &mut Output<W, G>,
    receipts: &[Receipt],
) -> Result<(), AllocError>
    requires { IsOne receipts.now }
    ensures ok { OnOk result (PutsFirst receipts.now output.old output.new) }
    ensures err { OnErr result (output.new ≡ output.old) }
{
    let receipt = receipts[0].share()?;
    match output.put_recorded(receipt) {
        Ok(()) => Ok(()),
        Err(_) => Err(AllocError),
    }
}

/// Answers that memory ran out or that the run is full. Returns why the session ends: if there is no memory for the
/// answer itself, `NoMemory`.
fn put_given_up<W: Write, G: Gate>(output: &mut Output<W, G>, refusal: Refusal) -> LeaveCause
    requires { IsWanting refusal }
    ensures { PutsGivenUp output.old output.new refusal result }
{
    match (output.put_refused(refusal), refusal) {
        (Ok(()), Refusal::RunFull) => LeaveCause::RunFull,
        _ => LeaveCause::NoMemory,
    }
}

/// Takes up an opening. A process that is opened is noted at once.
fn take_opening<Rt: Wait, W: Write, G: Gate, L: Run, K: KernelOf<L>>(
    rt: &Rt,
    note: &Note,
    output: &mut Output<W, G>,
    kernel: &K,
    front: &mut Front<L>,
    admission: AdmissionTo<L>,
    request: Request,
) -> TurnOf<L>
    requires { AsksForASeat request }
    ensures takes { TakesUp (stage.Opening admission) request output.old output.new result }
    ensures said { Since front.new (λ h. TurnSaid (K.says h) result) }
    ensures refusals { Since front.new (λ h. TurnSays (RefusalSaid (K.says h)) (stage.Opening admission) (request ∷ []) output.old output.new) }
    ensures grows { Grows front.old front.new }
{
    match kernel.open(rt, front, admission, request) {
        Ok(Opened::Seated(seat)) => {
            note.opened(rt, seat.pid());
            match put_first(output, seat.receipts()) {
                Ok(()) => Standing::Ready(Stage::Ready(seat)),
                Err(_) => Standing::Over(Over::OpeningUntold(seat)),
            }
        }
        Ok(Opened::Refused(seat)) => match put_first(output, seat.receipts()) {
            Ok(()) => Standing::Over(Over::Refused(seat)),
            Err(_) => Standing::Over(Over::RefusalUntold(seat)),
        },
        Err(NotOpened { admission, refusal }) => {
            let why = put_given_up(output, refusal);
            Standing::Over(Over::Leaves {
                stage: Stage::Opening(admission),
                why,
            })
        }
    }
}

/// Whether a process goes on waiting after this outcome.
fn goes_on(outcome: &Outcome) -> bool
    ensures { result ≡ goes_on outcome.now }
{
    match outcome {
        Outcome::Reply(_) => false,
        Outcome::Parked { .. } | Outcome::Part { .. } => true,
    }
}

/// What became of a session whose process has ended in the call that it waited in. All answers so far have been written. Where memory ran
/// out or the run was full, that is answered.
fn end_given_up<W: Write, G: Gate, L: Run>(
    output: &mut Output<W, G>,
    ended: EndedIn<L>,
) -> TurnOf<L>
    requires why { IsWhyFinished ended.why }
    requires sent { output.old.unsent ≡ [] }
    ensures gives { GivesUp ended output.old output.new result }
    ensures tells { TellsWhy ended.seat ended.why output.old output.new result }
{
    let seat = ended.seat;
    match ended.why {
        Why::NoMemory => Standing::Over(Over::Ended {
            seat,
            why: put_given_up(output, Refusal::NoMemory),
        }),
        Why::RunFull => Standing::Over(Over::Ended {
            seat,
            why: put_given_up(output, Refusal::RunFull),
        }),
        Why::Lost => Standing::GivenUp(seat),
        Why::Foreign => Standing::Over(Over::Foreign(seat)),
        Why::HungUp => unreachable!(),
    }
}

/// Waits until a call goes on. All answers so far have been written.
fn finish_sent<Rt: Wait, W: Write, G: Gate, L: Run, K: KernelOf<L>>(
    rt: &Rt,
    output: &Output<W, G>,
    kernel: &K,
    front: &mut Front<L>,
    seat: RunSeat<L>,
) -> FinishedIn<L>
    requires { output.now.unsent ≡ [] }
    ensures finishes { FinishesBy seat result }
    ensures ended { Since front.new (λ h. SaysEnded itself (K.says h).ended seat result) }
    ensures grows { Grows front.old front.new }
{
    let _output = output;
    kernel.finish(rt, front, seat)
}

/// Writes all answers, waits until a call goes on, and answers what came of that.
pub(crate) fn wait_once<Rt: Wait, W: Write, G: Gate, L: Run, K: KernelOf<L>>(
    rt: &Rt,
    output: &mut Output<W, G>,
    kernel: &K,
    front: &mut Front<L>,
    seat: RunSeat<L>,
) -> TurnOf<L>
    ensures waits { WaitsOnce seat output.old output.new result }
    ensures said { Since front.new (λ h. TurnSaid (K.says h) result) }
    ensures refusals { Since front.new (λ h. WaitSays (RefusalSaid (K.says h)) seat output.old output.new) }
    ensures grows { Grows front.old front.new }
{
    match output.flush() {
        Ok(()) => {}
        Err(_) => return Standing::Over(Over::Unwritten(Stage::Ready(seat))),
    }
    let (seat, receipt) = match finish_sent(rt, output, kernel, front, seat) {
        Finished::Resumed { seat, receipt } => (seat, receipt),
        Finished::Ended(ended) => return end_given_up(output, ended),
    };
    let waits = goes_on(&receipt.record().outcome);
    match output.put_recorded(receipt) {
        Ok(()) if waits => Standing::Waits(seat),
        Ok(()) => Standing::Ready(Stage::Ready(seat)),
        Err(receipt) => Standing::Over(Over::Untold { seat, receipt }),
    }
}

/// Takes up a call of the session's process, at its seat. It waits for no other process.
#[inline(always)]
fn call_at<Rt: Wait, W: Write, G: Gate, L: Run, K: KernelOf<L>>(
    rt: &Rt,
    output: &mut Output<W, G>,
    kernel: &K,
    front: &mut Front<L>,
    seat: &mut RunSeat<L>,
    call: Call,
) -> Called
    ensures takes { TakesUp (stage.Ready seat.old) (request.Call call) output.old output.new (turn_of seat.new result) }
    ensures said { Since front.new (λ h. TurnSaid (K.says h) (turn_of seat.new result)) }
    ensures refusals { Since front.new (λ h. TurnSays (RefusalSaid (K.says h)) (stage.Ready seat.old) (request.Call call ∷ []) output.old output.new) }
    ensures grows { Grows front.old front.new }
{
    let receipt = match kernel.call(rt, front, seat, call) {
        Ok(receipt) => receipt,
        Err(refusal) => {
            return match output.put_refused(refusal) {
                Ok(()) => Called::Goes,
                Err(_) => Called::NoMemory,
            };
        }
    };
    let waits = goes_on(&receipt.record().outcome);
    match output.put_recorded(receipt) {
        Ok(()) if waits => Called::Waits,
        Ok(()) => Called::Goes,
        Err(receipt) => Called::Untold(receipt),
    }
}

/// Takes up a request at the seat of a session. What was gathered is written first, if it is much.
#[inline(always)]
pub(crate) fn take_at<Rt: Wait, W: Write, G: Gate, L: Run, K: KernelOf<L>>(
    rt: &Rt,
    output: &mut Output<W, G>,
    kernel: &K,
    front: &mut Front<L>,
    seat: &mut RunSeat<L>,
    request: Request,
) -> Called
    ensures takes { TakesUp (stage.Ready seat.old) request output.old output.new (turn_of seat.new result) }
    ensures said { Since front.new (λ h. TurnSaid (K.says h) (turn_of seat.new result)) }
    ensures refusals { Since front.new (λ h. TurnSays (RefusalSaid (K.says h)) (stage.Ready seat.old) (request ∷ []) output.old output.new) }
    ensures grows { Grows front.old front.new }
{
    match output.flush_much() {
        Ok(()) => {}
        Err(_) => return Called::Unwritten,
    }
    match request {
        Request::Call(call) => call_at(rt, output, kernel, front, seat, call),
        _ => Called::Malformed,
    }
}

/// Where a session stands, once this came of a request at its seat.
#[inline(never)]
pub(crate) fn turn_of<L: Run>(seat: RunSeat<L>, called: Called) -> TurnOf<L>
    ensures { result ≡ turn_of seat called }
{
    match called {
        Called::Goes => Standing::Ready(Stage::Ready(seat)),
        Called::Waits => Standing::Waits(seat),
        Called::NoMemory => Standing::Over(Over::Leaves {
            stage: Stage::Ready(seat),
            why: LeaveCause::NoMemory,
        }),
        Called::Malformed => Standing::Over(Over::Leaves {
            stage: Stage::Ready(seat),
            why: LeaveCause::Malformed,
        }),
        Called::Unwritten => Standing::Over(Over::Unwritten(Stage::Ready(seat))),
        Called::Untold(receipt) => Standing::Over(Over::Untold { seat, receipt }),
    }
}

/// Takes up the first request of a session, if it asks for a seat.
pub(crate) fn take_first<Rt: Wait, W: Write, G: Gate, L: Run, K: KernelOf<L>>(
    rt: &Rt,
    note: &Note,
    output: &mut Output<W, G>,
    kernel: &K,
    front: &mut Front<L>,
    admission: AdmissionTo<L>,
    request: Request,
) -> TurnOf<L>
    ensures takes { TakesUp (stage.Opening admission) request output.old output.new result }
    ensures said { Since front.new (λ h. TurnSaid (K.says h) result) }
    ensures refusals { Since front.new (λ h. TurnSays (RefusalSaid (K.says h)) (stage.Opening admission) (request ∷ []) output.old output.new) }
    ensures grows { Grows front.old front.new }
{
    match request {
        Request::Join => take_opening(rt, note, output, kernel, front, admission, Request::Join),
        Request::Attach { process } => take_opening(
            rt,
            note,
            output,
            kernel,
            front,
            admission,
            Request::Attach { process },
        ),
        Request::Call(_call) => Standing::Over(Over::Leaves {
            stage: Stage::Opening(admission),
            why: LeaveCause::Malformed,
        }),
    }
}

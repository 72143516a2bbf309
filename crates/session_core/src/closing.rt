//! How a session is closed: its last answers are written, and its process is hung up.

ghost use Rattle.run_history.specs.Fronts.{Grows, Since};
ghost use Rattle.session_core.specs.Proved.Closing.{SendsLast, HangsUp, LeavesWith, LeavesAll, HangsUpSeat, KeepsSeat, ClosesBy, end_of};
ghost use Rattle.session_core.specs.Said.{EndSaid};
ghost use Rattle.session_core.specs.Proved.Saying.{OverSaid};
ghost use Rattle.std.specs.Prelude.{◌≡◌, Ok, None, Some};
ghost use Rattle.std.specs.Result.{result_ok};
ghost use Rattle.session_core.specs.declared.stage.Over.TheVariants as over;

use crate::end::End;
use crate::gate::Gate;
use crate::output::Output;
use crate::stage::{LeaveCause, LeftOf, LeftSession, Over, OverOf, Stage, StageOf};
use record_book::seat::Receipt;
use run_history::front::Front;
use std::io::Write;
use std::sync::Wait;
use system_lock::kernel::{KernelOf, Why};
use system_lock::run::Run;
use system_lock::run_seat::{RunSeat, SpentRunSeat};

/// The end of a session that has written all its answers.
fn end_of(why: LeaveCause) -> End
    ensures { result ≡ end_of why }
{
    match why {
        LeaveCause::Closed => End::Closed,
        LeaveCause::ReadFault => End::ReadFault,
        LeaveCause::Malformed => End::Malformed,
        LeaveCause::RunFull => End::RunFull,
        LeaveCause::NoMemory => End::NoMemory,
        LeaveCause::Ahead => End::Ahead,
    }
}

/// Writes the answers that are not written yet, and tells the end of the session.
fn send_last<W: Write, G: Gate>(output: &mut Output<W, G>, why: LeaveCause) -> End
    ensures { SendsLast output.old output.new why result }
{
    match output.flush() {
        Ok(()) => end_of(why),
        Err(_) => End::WriteFault {
            sent: output.sent(),
        },
    }
}

/// Hangs up a process, and tells the end of its session.
fn hang_up<Rt: Wait, L: Run, K: KernelOf<L>>(
    rt: &Rt,
    kernel: &K,
    front: &mut Front<L>,
    seat: RunSeat<L>,
    end: End,
) -> (SpentRunSeat<L>, End)
    ensures hangs_up { HangsUp seat end result.0 result.1 }
    ensures said { Since front.new (λ h. EndSaid (K.says h) None end → EndSaid (K.says h) (Some result.0) result.1) }
    ensures grows { Grows front.old front.new }
{
    let ended = kernel.hang_up(rt, front, seat);
    match ended.why {
        Why::Foreign => (ended.seat, End::Foreign),
        _ => (ended.seat, end),
    }
}

/// Hangs up the process of a session, if there is one.
fn hang_up_stage<Rt: Wait, L: Run, K: KernelOf<L>>(
    rt: &Rt,
    kernel: &K,
    front: &mut Front<L>,
    stage: StageOf<L>,
    end: End,
) -> LeftOf<L>
    ensures seat { LeavesWith stage end result.seat result.end }
    ensures said { Since front.new (λ h. EndSaid (K.says h) None end → EndSaid (K.says h) (result_ok result.seat) result.end) }
    ensures last { result.last ≡ None }
    ensures grows { Grows front.old front.new }
{
    match stage {
        Stage::Opening(admission) => LeftSession {
            seat: Err(admission),
            end,
            last: None,
        },
        Stage::Ready(seat) => left_by(hang_up(rt, kernel, front, seat, end), None),
    }
}

/// A session with this seat and end.
fn left_by<L: Run>(ended: (SpentRunSeat<L>, End), last: Option<Receipt>) -> LeftOf<L>
    ensures { result ≡ record { seat = Ok ended.0; end = ended.1; last = last } }
{
    let (seat, end) = ended;
    LeftSession {
        seat: Ok(seat),
        end,
        last,
    }
}

/// Closes a session whose memory ran out for its last answer: the other answers are written, and its process is hung up. Where the
/// writer fails, the last answer counts as one more that is not written.
fn close_untold<Rt: Wait, W: Write, G: Gate, L: Run, K: KernelOf<L>>(
    rt: &Rt,
    output: &mut Output<W, G>,
    kernel: &K,
    front: &mut Front<L>,
    seat: RunSeat<L>,
    receipt: Receipt,
) -> LeftOf<L>
    ensures all { LeavesAll output.old output.new (over.Untold seat receipt) result }
    ensures seat { HangsUpSeat seat result }
    ensures said { Since front.new (λ h. EndSaid (K.says h) (result_ok result.seat) result.end) }
    ensures closes { ClosesBy (over.Untold seat receipt) output.old output.new result }
    ensures answers { output.new.answers ≡ output.old.answers }
    ensures grows { Grows front.old front.new }
{
    match output.flush() {
        Ok(()) => left_by(hang_up(rt, kernel, front, seat, End::NoMemory), None),
        Err(_) => {
            let end = End::WriteFault {
                sent: output.sent(),
            };
            left_by(hang_up(rt, kernel, front, seat, end), Some(receipt))
        }
    }
}

/// Closes a session that is over.
pub(crate) fn close_session<Rt: Wait, W: Write, G: Gate, L: Run, K: KernelOf<L>>(
    rt: &Rt,
    output: &mut Output<W, G>,
    kernel: &K,
    front: &mut Front<L>,
    over: OverOf<L>,
) -> LeftOf<L>
    ensures all { LeavesAll output.old output.new over result }
    ensures seat { KeepsSeat over result }
    ensures said { Since front.new (λ h. OverSaid (K.says h) over → EndSaid (K.says h) (result_ok result.seat) result.end) }
    ensures closes { ClosesBy over output.old output.new result }
    ensures answers { output.new.answers ≡ output.old.answers }
    ensures grows { Grows front.old front.new }
{
    match over {
        Over::Leaves { stage, why } => {
            let end = send_last(output, why);
            hang_up_stage(rt, kernel, front, stage, end)
        }
        Over::Unwritten(stage) => {
            let failed = End::WriteFault {
                sent: output.sent(),
            };
            hang_up_stage(rt, kernel, front, stage, failed)
        }
        Over::OpeningUntold(seat) => left_by(hang_up(rt, kernel, front, seat, End::NoMemory), None),
        Over::RefusalUntold(seat) => left_by((seat, End::NoMemory), None),
        Over::Untold { seat, receipt } => close_untold(rt, output, kernel, front, seat, receipt),
        Over::Refused(seat) => {
            let end = send_last(output, LeaveCause::Closed);
            left_by((seat, end), None)
        }
        Over::GivenUp { seat, why } => {
            let end = send_last(output, why);
            left_by((seat, end), None)
        }
        Over::Ended { seat, why } => {
            let end = send_last(output, why);
            left_by((seat, end), None)
        }
        Over::Foreign(seat) => left_by((seat, End::Foreign), None),
    }
}

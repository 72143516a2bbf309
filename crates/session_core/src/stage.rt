//! How far a session has come, and how it ends.

use crate::end::End;
use record_book::seat::Receipt;
use system_lock::kernel::AdmissionTo;
use system_lock::run_seat::{RunSeat, SpentRunSeat};

/// How far a session has come, with a seat of the kind `S` or an admission of the kind `A`.
#[derive(Drop)]
pub(crate) enum Stage<S, A> {
    /// No process is opened yet: there still is leave to open one.
    Opening(A),
    /// The process of this seat makes calls.
    Ready(S),
}

/// Why a session leaves off.
#[derive(Clone, Copy, Debug, PartialEq, Eq)]
pub(crate) enum LeaveCause {
    Closed,
    ReadFault,
    Malformed,
    RunFull,
    NoMemory,
    Ahead,
}

/// A session that does not go on. `S`, `P` and `A` are the types of its seat, its spent seat and its admission.
#[derive(Drop)]
pub(crate) enum Over<S, P, A> {
    /// It leaves off where it is. Its process, if it has one, is still to be hung up.
    Leaves { stage: Stage<S, A>, why: LeaveCause },
    /// Its writer has failed. Its process, if it has one, is still to be hung up.
    Unwritten(Stage<S, A>),
    /// Memory ran out for the answer of its opening. Nothing was answered, and its process is still to be hung up.
    OpeningUntold(S),
    /// Memory ran out for the answer of its refused opening. Nothing was answered.
    RefusalUntold(P),
    /// Memory ran out for the answer of this receipt, its last. Its process is still to be hung up.
    Untold { seat: S, receipt: Receipt },
    /// Its opening was refused in the record, and that was answered.
    Refused(P),
    /// The kernel gave up the call that its process waited in, and has recorded its exit. It leaves off for what ended its reads.
    GivenUp { seat: P, why: LeaveCause },
    /// The process has ended in the call that it waited in, since memory ran out or the run was full. That was answered, unless memory ran
    /// out for the answer.
    Ended { seat: P, why: LeaveCause },
    /// The kernel knows no such seat.
    Foreign(P),
}

/// What came of a request at the seat of a session.
#[derive(Drop)]
pub(crate) enum Called {
    /// It is answered, and the session goes on.
    Goes,
    /// It is a call that waits.
    Waits,
    /// Memory ran out for the answer of a call that was refused.
    NoMemory,
    /// It is no call.
    Malformed,
    /// The writer had failed before it was taken up.
    Unwritten,
    /// Memory ran out for the answer of this receipt.
    Untold(Receipt),
}

/// A session that is left: its spent seat, of the kind `P`, or its admission, of the kind `A`; its end; and, if its last answer is not
/// written, the receipt of that answer.
#[derive(Drop)]
pub(crate) struct LeftSession<P, A> {
    pub(crate) seat: Result<P, A>,
    pub(crate) end: End,
    pub(crate) last: Option<Receipt>,
}

/// Where a session stands. `O` is what a session is that takes up no request any more: right after a turn an `Over`, which `stand` closes,
/// and from then on a `LeftSession`.
#[derive(Drop)]
pub(crate) enum Standing<S, P, A, O> {
    /// A request may be taken up.
    Ready(Stage<S, A>),
    /// The process of this seat waits in a call.
    Waits(S),
    /// The kernel gave up the call that the process waited in, and has recorded its exit. No request is taken up any more. How the session
    /// ends is known when no more is read.
    GivenUp(P),
    /// It is over.
    Over(O),
}

/// Each of these for the seats of one run.
pub(crate) type StageOf<L> = Stage<RunSeat<L>, AdmissionTo<L>>;

pub(crate) type OverOf<L> = Over<RunSeat<L>, SpentRunSeat<L>, AdmissionTo<L>>;

pub(crate) type LeftOf<L> = LeftSession<SpentRunSeat<L>, AdmissionTo<L>>;

/// Where a session stands right after a turn.
pub(crate) type TurnOf<L> = Standing<RunSeat<L>, SpentRunSeat<L>, AdmissionTo<L>, OverOf<L>>;

/// Where it stands between two turns.
pub(crate) type StandingOf<L> = Standing<RunSeat<L>, SpentRunSeat<L>, AdmissionTo<L>, LeftOf<L>>;

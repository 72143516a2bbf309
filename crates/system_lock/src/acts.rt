//! The acts of a kernel on a book that is at hand.

ghost use Rattle.byte_ledger.specs.Counted.{IsPartOf};
ghost use Rattle.record_book.specs.Counting.{counted_in};
ghost use Rattle.system_lock.specs.Kernel.{AsksForASeat, CallsBy};
ghost use Rattle.system_lock.specs.Proved.Reasons.{OpensBy, IsReason, EndsByReason};
ghost use Rattle.system_lock.specs.Proved.Acts.{TriesBy};
ghost use Rattle.system_lock.specs.Proved.Events.{OpensIn, CallsIn, ExitsIn, ExitIsDue, TriesIn, StillIsDue, GivesNoneUp};

use crate::kernel::{Ended, Why};
use byte_ledger::ledgers::Ledgers;
use call_types::call::Call;
use call_types::refusal::Refusal;
use call_types::request::Request;
use posix_model::pipe_laws::calls_end_or_wait;
use record_book::book::Book;
use record_book::calling::Resumed;
use record_book::opening::OpenedIn;
use record_book::seat::{Receipt, Seat, SpentSeat};
use std::alloc::Global;

/// Opens a process.
pub(crate) fn open<L: Ledgers>(
    book: &mut Book<L>,
    alloc: Global,
    request: Request,
) -> Result<OpenedIn<L>, Refusal>
    requires { AsksForASeat request }
    ensures opens { OpensBy request result }
    ensures event { OpensIn book.old book.new request result }
{
    match request {
        Request::Join => book.join(alloc),
        Request::Attach { process } => book.attach(alloc, process),
        Request::Call(_) => unreachable!(),
    }
}

/// Records a call.
pub(crate) fn call<L: Ledgers>(
    book: &mut Book<L>,
    alloc: Global,
    seat: &mut Seat<L>,
    call: Call,
) -> Result<Receipt, Refusal>
    ensures calls { CallsBy seat.old seat.new call result }
    ensures event { CallsIn book.old book.new seat.old seat.new call result }
    ensures part { IsPartOf seat.old.counted (counted_in book.old) }
{
    calls_end_or_wait();
    book.start(alloc, seat, call)
}

/// Records an exit for a reason other than `Foreign`. `Foreign` is returned where the book does not know the seat.
pub(crate) fn exit<L: Ledgers>(book: &mut Book<L>, seat: Seat<L>, reason: Why) -> EndedBy<L>
    requires { IsReason reason }
    ensures ends { EndsByReason seat reason result }
    ensures event { ExitsIn book.old book.new seat result.seat result.why }
    ensures due { ExitIsDue book.old seat result.why }
    ensures part { IsPartOf seat.counted (counted_in book.old) }
{
    match book.exit(seat) {
        Ok(seat) => Ended { seat, why: reason },
        Err(unspent) => Ended {
            seat: SpentSeat::of(unspent.seat),
            why: Why::Foreign,
        },
    }
}

/// What came of one try of a resume.
#[derive(Drop)]
pub(crate) enum Tried<S, P> {
    Resumed { seat: S, receipt: Receipt },
    /// The process waits in no call that is ready.
    Still(S),
    Ended(Ended<P>),
}

/// These of the seats of one book.
pub(crate) type TriedBy<L> = Tried<Seat<L>, SpentSeat<L>>;

pub(crate) type EndedBy<L> = Ended<SpentSeat<L>>;

/// Takes up the call that a process waits in, if it is ready; where that is refused, the process ends.
#[tactic(auto, using(crate::proofs::DueLaws::memory_due))]
pub(crate) fn resume<L: Ledgers>(book: &mut Book<L>, alloc: Global, seat: Seat<L>) -> TriedBy<L>
    ensures tries { TriesBy seat result }
    ensures event { TriesIn book.old book.new seat result }
    ensures still { StillIsDue book.old seat result }
    ensures not_lost { GivesNoneUp result }
    ensures part { IsPartOf seat.counted (counted_in book.old) }
{
    calls_end_or_wait();
    let mut seat = seat;
    match book.resume(alloc, &mut seat) {
        Ok(Resumed::Recorded(receipt)) => Tried::Resumed { seat, receipt },
        Ok(Resumed::Still) => Tried::Still(seat),
        Err(Refusal::NoMemory) => Tried::Ended(exit(book, seat, Why::NoMemory)),
        Err(Refusal::RunFull) => Tried::Ended(exit(book, seat, Why::RunFull)),
        Err(Refusal::Foreign { .. } | Refusal::NotHere | Refusal::Waiting) => Tried::Ended(Ended {
            seat: SpentSeat::of(seat),
            why: Why::Foreign,
        }),
    }
}

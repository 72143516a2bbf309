//! Seats of processes whose receipts stand in the history of their run.

ghost use Rattle.std.specs.Prelude.{◌≡◌, IfErr};
ghost use Rattle.record_book.specs.Counting.{CountsOwn};
ghost use Rattle.run_history.specs.Fronts.{Grows, Since};
ghost use Rattle.system_lock.specs.Kernel.{CallsBy, HangsUpBy};
ghost use Rattle.system_lock.specs.Owns.{OwnsUnder};
ghost use Rattle.system_lock.specs.Says.{IsEnded, IsRefused};
ghost use Rattle.system_lock.specs.Proved.Acts.{TriesBy, SaysOfTry};
ghost use Rattle.system_lock.specs.Proved.Events.{CallsIn, ExitIsDue, ExitsIn, GivesUpTheLost, IsLeftWaiting, TriesIn, opened_seat};

use crate::acts::Tried;
use crate::bells::Bells;
use crate::kernel::{Ended, EndedIn, OpenedIn};
use crate::run::Run;
use crate::system::System;
use byte_ledger::tallies::Shares;
use call_types::call::Call;
use call_types::refusal::Refusal;
use record_book::opening;
use record_book::opening::Opened;
use record_book::seat::{AsSeat, Receipt, Seat, SpentSeat};
use run_history::front::Front;
use std::alloc::Global;
use std::marker::Model;
use std::sync::Wait;

/// A seat of the kind `S`, and a front of the history of its run. Where the type of the run names its limits, the records of the seat's
/// receipts stand in the front, each at its place, and the seat counts just these. Contracts see the seat.
#[derive(Drop)]
pub struct InRun<S: AsSeat, L: Run> {
    pub(crate) seat: S,
    pub(crate) front: Front<L>,
}

impl<S: AsSeat, L: Run> Model for InRun<S, L> {
    ghost use Rattle.record_book.specs.Seat.{SeatState};
    ghost use Rattle.system_lock.specs.Owns.{OwnsUnder};

    ghost Value = { SeatState };

    ghost view = { λ s. S.as_seat s.seat };

    ghost invariant = { λ s. OwnsUnder L.limits s.front (S.as_seat s.seat) };
}

impl<S: AsSeat, L: Run> AsSeat for InRun<S, L> {
    ghost as_seat = { λ s. s };
}

/// The seat of a process that makes calls, and one that gets no more receipts.
pub type RunSeat<L> = InRun<Seat<L>, L>;

pub type SpentRunSeat<L> = InRun<SpentSeat<L>, L>;

impl<S: AsSeat, L: Run> InRun<S, L> {
    /// Adds to a front what is known here of the history: where the limits of the run are known, the records of all receipts.
    pub fn tell(&self, front: &mut Front<L>)
        ensures grows { Grows front.old front.new }
        ensures owns { Since front.new (λ h. OwnsUnder L.limits h self.now) }
    {
        front.catch_up(&self.front);
    }
}

impl<L: Run> RunSeat<L> {
    /// The number of the seat's process.
    pub fn pid(&self) -> u32
        ensures { result ≡ self.now.pid }
    {
        self.seat.pid()
    }

    /// The receipts, in the order of their places. The seat counts them, and nothing else.
    pub fn receipts(&self) -> &[Receipt]
        ensures receipts { result.now ≡ self.now.receipts }
        ensures own { CountsOwn self.now.counted result.now }
    {
        self.seat.receipts()
    }

    /// Takes memory for the next record, where there is some.
    pub(crate) fn prepare(&mut self, alloc: Global)
        ensures { self.new ≡ self.old }
    {
        self.seat.prepare(alloc);
    }

    /// Records a call in a system, and wakes whom it concerns.
    pub(crate) fn call<Rt: Wait>(
        &mut self,
        rt: &Rt,
        alloc: Global,
        bells: &Bells,
        system: &mut System<L>,
        call: Call,
    ) -> Result<Receipt, Refusal>
        ensures calls { CallsBy self.old self.new call result }
        ensures event { CallsIn system.old.book_is system.new.book_is self.old self.new call result }
        ensures refused { Since system.new.book_is.history (λ h. IfErr result (λ refusal. IsRefused L.limits h self.old call refusal)) }
    {
        system.has_all_of(rt, &self.front);
        let told = system.call(rt, alloc, bells, &mut self.seat, call);
        self.front.catch_up(system.front());
        told
    }

    /// Takes up the call that the process waits in, in a system. Where it is not ready, the process sleeps from now on; but where its
    /// connection is lost, its exit is recorded.
    pub(crate) fn try_resume<Rt: Wait>(
        self,
        rt: &Rt,
        alloc: Global,
        bells: &Bells,
        system: &mut System<L>,
    ) -> Tried<RunSeat<L>, SpentRunSeat<L>>
        ensures tries { TriesBy self result }
        ensures event { TriesIn system.old.book_is system.new.book_is self result }
        ensures given_up { GivesUpTheLost system.old.lost_are self result }
        ensures still { IsLeftWaiting system.old system.new self result }
        ensures ended { Since system.new.book_is.history (λ h. SaysOfTry (IsEnded L.limits h) self result) }
    {
        system.has_all_of(rt, &self.front);
        let InRun { seat, front } = self;
        match system.try_resume(rt, alloc, bells, seat) {
            Tried::Resumed { seat, receipt } => {
                let front = system.front().again();
                Tried::Resumed {
                    seat: InRun { seat, front },
                    receipt,
                }
            }
            Tried::Still(seat) => Tried::Still(InRun { seat, front }),
            Tried::Ended(ended) => {
                let front = system.front().again();
                Tried::Ended(Ended {
                    seat: InRun {
                        seat: ended.seat,
                        front,
                    },
                    why: ended.why,
                })
            }
        }
    }

    /// Records the exit of the process in a system.
    pub(crate) fn hang_up<Rt: Wait>(
        self,
        rt: &Rt,
        bells: &Bells,
        system: &mut System<L>,
    ) -> EndedIn<L>
        ensures hangs_up { HangsUpBy self result }
        ensures event { ExitsIn system.old.book_is system.new.book_is self result.seat result.why }
        ensures due { ExitIsDue system.old.book_is self result.why }
        ensures ended { Since system.new.book_is.history (λ h. IsEnded L.limits h self result.seat result.why) }
    {
        system.has_all_of(rt, &self.front);
        let InRun { seat, front: _ } = self;
        let ended = system.hang_up(rt, bells, seat);
        let front = system.front().again();
        Ended {
            seat: InRun {
                seat: ended.seat,
                front,
            },
            why: ended.why,
        }
    }
}

impl<L: Run> SpentRunSeat<L> {
    /// The same seat, to get no more receipts.
    pub fn of(seat: RunSeat<L>) -> Self
        ensures { result ≡ seat }
    {
        let InRun { seat, front } = seat;
        InRun {
            seat: SpentSeat::of(seat),
            front,
        }
    }

    /// The number of the seat's process, or of the one that was asked for.
    pub fn pid(&self) -> u32
        ensures { result ≡ self.now.pid }
    {
        self.seat.pid()
    }

    /// The receipts, in the order of their places. The seat counts them, and nothing else.
    pub fn receipts(&self) -> &[Receipt]
        ensures receipts { result.now ≡ self.now.receipts }
        ensures own { CountsOwn self.now.counted result.now }
    {
        self.seat.receipts()
    }

    /// Its receipts, and its shares, which count these receipts and nothing else.
    pub fn into_parts(self) -> (Vec<Receipt>, Shares<L>)
        ensures receipts { result.0.items ≡ self.receipts }
        ensures counted { result.1 ≡ self.counted }
        ensures own { CountsOwn result.1 result.0.items }
    {
        self.seat.into_parts()
    }
}

/// What an opening gives, with this front, which has its record where the limits of the run are known.
pub(crate) fn opened_in<L: Run>(opened: opening::OpenedIn<L>, front: &Front<L>) -> OpenedIn<L>
    requires owns { OwnsUnder L.limits front.now (opened_seat opened) }
    ensures { result ≡ opened }
{
    let front = front.again();
    match opened {
        Opened::Seated(seat) => Opened::Seated(InRun { seat, front }),
        Opened::Refused(seat) => Opened::Refused(InRun { seat, front }),
    }
}

//! The kernel of a run: one lock round a book, the processes that sleep, and those whose connections are lost.

ghost use Rattle.std.specs.Prelude.{◌≡◌, [], Some, IfErr, IfOk};
ghost use Rattle.run_history.specs.Fronts.{Grows, Since};
ghost use Rattle.rtrb.specs.Ring.{received};
ghost use Rattle.system_lock.specs.Kernel.{FinishesBy, HangsUpBy, AsksForASeat, OpensAs, SaysEnded, itself};
ghost use Rattle.system_lock.specs.Says.{IsEnded, IsNotOpened};

use crate::acts::Tried;
use crate::bells::Bells;
use crate::kernel::{
    Admission, AdmissionTo, EndedIn, Finished, FinishedIn, Kernel, KernelOf, NotOpened,
    NotOpenedIn, OpenedIn,
};
use crate::run::{NewRun, Run};
use crate::run_seat::{RunSeat, SpentRunSeat, opened_in};
use crate::system::System;
use crate::watch::Marked;
use call_types::call::Call;
use call_types::limits::Limits;
use call_types::refusal::Refusal;
use call_types::request::Request;
use record_book::seat::Receipt;
use run_history::front::Front;
use std::alloc::{AllocError, Global};
use std::sync::{Mutex, Wait};
use trace_ring::trace_ring::TraceEnd;

/// A system that any thread may ask: each holding of its lock is one event, of which at most one record comes. A process
/// whose call is not ready sleeps until an event makes it ready, or until its connection is lost: then its call is tried once more, and
/// the process ends where it is still not ready. Its type names the ledgers and the limits of its book, so another book does not fit.
#[derive(Drop)]
pub struct SystemLock<L: Run> {
    alloc: Global,
    system: Mutex<System<L>>,
    bells: Bells,
}

impl<L: Run> SystemLock<L> {
    /// The kernel of a run that has no records yet, under the limits that its type names, and the end at which the trace of its
    /// records is read. Nothing was read from it yet.
    pub fn new(alloc: Global, limits: Limits, run: NewRun) -> Result<(Self, TraceEnd), AllocError>
        requires named { run ≡ record { names = L.names; book = L.book } }
        requires limits { L.limits ≡ Some limits }
        ensures { IfOk result (λ pair. received pair.1 ≡ []) }
    {
        let bells = Bells::new(alloc)?;
        let (system, trace) = System::new(alloc, limits, run)?;
        let lock = SystemLock {
            alloc,
            system: Mutex::new(system),
            bells,
        };
        Ok((lock, trace))
    }

    /// Leave to open one process.
    pub fn admit(&self) -> AdmissionTo<L> {
        Admission::new()
    }

    /// The records so far, as a front of the run's history.
    pub fn front<R: Wait>(&self, rt: &R) -> Front<L> {
        self.system.lock(rt).front().again()
    }

    /// What stood under the lock. It takes no memory.
    pub fn take(self) -> System<L> {
        self.system.into_inner()
    }
}

impl<L: Run> Kernel<RunSeat<L>, SpentRunSeat<L>, Front<L>> for SystemLock<L> {
    ghost use Rattle.std.specs.Prelude.{◌≡◌};
    ghost use Rattle.system_lock.specs.Says.{said_under};
    ghost use Rattle.system_lock.specs.System.{marked_by_watch};

    ghost says = { said_under L.limits };

    ghost marks = { λ mark process. mark ≡ marked_by_watch process };

    fn open<R: Wait>(
        &self,
        rt: &R,
        front: &mut Front<L>,
        admission: AdmissionTo<L>,
        request: Request,
    ) -> Result<OpenedIn<L>, NotOpenedIn<L>>
        requires { AsksForASeat request }
        ensures opens { OpensAs itself itself request result }
        ensures grows { Grows front.old front.new }
        ensures refused { Since front.new (λ h. IfErr result (λ back. IsNotOpened L.limits h request back.refusal)) }
    {
        let mut system = self.system.lock(rt);
        let opened = system.open(rt, self.alloc, &self.bells, request);
        front.catch_up(system.front());
        match opened {
            Ok(opened) => Ok(opened_in(opened, system.front())),
            Err(refusal) => Err(NotOpened { admission, refusal }),
        }
    }

    fn call<R: Wait>(
        &self,
        rt: &R,
        front: &mut Front<L>,
        seat: &mut RunSeat<L>,
        call: Call,
    ) -> Result<Receipt, Refusal> {
        // so that others wait for no memory
        seat.prepare(self.alloc);
        let mut system = self.system.lock(rt);
        let told = seat.call(rt, self.alloc, &self.bells, &mut system, call);
        front.catch_up(system.front());
        told
    }

    fn finish<R: Wait>(&self, rt: &R, front: &mut Front<L>, seat: RunSeat<L>) -> FinishedIn<L>
        ensures finishes { FinishesBy seat result }
        ensures grows { Grows front.old front.new }
        ensures ended { Since front.new (λ h. SaysEnded itself (IsEnded L.limits h) seat result) }
    {
        let process = seat.pid();
        let mut seat = seat;
        let mut system = self.system.lock(rt);
        for _ in rt.forever() {
            let tried = seat.try_resume(rt, self.alloc, &self.bells, &mut system);
            front.catch_up(system.front());
            seat = match tried {
                Tried::Resumed { seat, receipt } => return Finished::Resumed { seat, receipt },
                Tried::Ended(ended) => return Finished::Ended(ended),
                Tried::Still(seat) => seat,
            };
            let bell = self.bells.of(process);
            system = bell.wait_while(rt, system, |system| system.sleeps(process));
        }
        unreachable!()
    }

    fn hang_up<R: Wait>(&self, rt: &R, front: &mut Front<L>, seat: RunSeat<L>) -> EndedIn<L>
        ensures hangs_up { HangsUpBy seat result }
        ensures grows { Grows front.old front.new }
        ensures ended { Since front.new (λ h. IsEnded L.limits h seat result.seat result.why) }
    {
        let mut system = self.system.lock(rt);
        let ended = seat.hang_up(rt, &self.bells, &mut system);
        front.catch_up(system.front());
        ended
    }

    fn mark_lost<R: Wait>(&self, rt: &R, process: u32) -> Marked {
        let mut system = self.system.lock(rt);
        system.mark_lost(&self.bells, process)
    }
}

impl<L: Run> KernelOf<L> for SystemLock<L> {}

//! A kernel for one thread, for tests. Where a call would wait, prepared acts of other processes are run first.

ghost use Rattle.std.specs.Prelude.{◌≡◌, ⊤, IfErr};
ghost use Rattle.run_history.specs.Fronts.{Grows, Since};
ghost use Rattle.system_lock.specs.Kernel.{FinishesBy, HangsUpBy, AsksForASeat, OpensAs, SaysEnded, itself};

use crate::acts;
use crate::acts::{EndedBy, Tried};
use crate::kernel::{
    Admission, AdmissionTo, Ended, EndedIn, Finished, FinishedIn, Kernel, KernelOf, NotOpened,
    NotOpenedIn, OpenedIn, Why,
};
use crate::others::run_acts;
use crate::run::Run;
use crate::run_seat::{InRun, RunSeat, SpentRunSeat, opened_in};
use crate::watch::Marked;
use byte_ledger::ledgers::Ledgers;
use byte_ledger::tallies::Sums;
use call_types::act::ScriptAct;
use call_types::call::Call;
use call_types::refusal::Refusal;
use call_types::request::Request;
use record_book::book::Book;
use record_book::seat::{Receipt, Seat, SpentSeat};
use run_history::front::{Front, OfHistory};
use std::alloc::Global;
use std::marker::PhantomData;
use std::mem;
use std::sync::{Mutex, Wait};

/// A run of which no limits are known, so nothing is said of its history; its ledgers are those of another run.
pub struct Unlimited<L: Run> {
    run: PhantomData<L>,
}

impl<L: Run> Ledgers for Unlimited<L> {
    ghost use Rattle.std.specs.Prelude.{None};

    ghost limits = { None };

    ghost names = { L.names };
}

impl<L: Run> OfHistory for Unlimited<L> {
    ghost book = { L.book };
}

impl<L: Run> Run for Unlimited<L> {}

/// A book, and the acts that are run when a call first waits.
#[derive(Drop)]
struct Held<L: Run> {
    book: Book<Unlimited<L>>,
    acts: Vec<ScriptAct>,
}

/// A book round which a lock is put. When a call would wait for the first time, the acts that stand ready are run; where it would
/// still wait, it is given up.
#[derive(Drop)]
pub struct OneBook<L: Run> {
    alloc: Global,
    held: Mutex<Held<L>>,
}

/// Takes up a call that waits; where it would wait, the acts that stand ready are run, and it is tried once more.
fn finish<L: Run>(
    held: &mut Held<L>,
    alloc: Global,
    seat: Seat<Unlimited<L>>,
) -> Finished<Seat<Unlimited<L>>, SpentSeat<Unlimited<L>>>
    ensures { FinishesBy seat result }
{
    let seat = match acts::resume(&mut held.book, alloc, seat) {
        Tried::Resumed { seat, receipt } => return Finished::Resumed { seat, receipt },
        Tried::Ended(ended) => return Finished::Ended(ended),
        Tried::Still(seat) => seat,
    };
    let ready = mem::replace(&mut held.acts, Vec::new(alloc));
    run_acts(&mut held.book, alloc, ready);
    match acts::resume(&mut held.book, alloc, seat) {
        Tried::Resumed { seat, receipt } => Finished::Resumed { seat, receipt },
        Tried::Ended(ended) => Finished::Ended(ended),
        Tried::Still(seat) => Finished::Ended(acts::exit(&mut held.book, seat, Why::Lost)),
    }
}

/// The end of a process, with a front.
fn ended_with<L: Run>(
    ended: EndedBy<Unlimited<L>>,
    front: Front<Unlimited<L>>,
) -> EndedIn<Unlimited<L>>
    ensures { result ≡ ended }
{
    Ended {
        seat: InRun {
            seat: ended.seat,
            front,
        },
        why: ended.why,
    }
}

impl<L: Run> OneBook<L> {
    /// A kernel of this book, and the acts that are run when a call first waits.
    pub fn new(alloc: Global, book: Book<Unlimited<L>>, acts: Vec<ScriptAct>) -> Self {
        OneBook {
            alloc,
            held: Mutex::new(Held { book, acts }),
        }
    }

    /// Leave to open one process.
    pub fn admit(&self) -> AdmissionTo<Unlimited<L>> {
        Admission::new()
    }

    /// How much its book holds.
    pub fn counts<R: Wait>(&self, rt: &R) -> Sums {
        self.held.lock(rt).book.counts()
    }
}

impl<L: Run> Kernel<RunSeat<Unlimited<L>>, SpentRunSeat<Unlimited<L>>, Front<Unlimited<L>>>
    for OneBook<L> {
    ghost use Rattle.std.specs.Prelude.{⊤};
    ghost use Rattle.system_lock.specs.Kernel.{anything};

    ghost says = { λ _. anything };

    ghost marks = { λ _ _. ⊤ };

    fn open<R: Wait>(
        &self,
        rt: &R,
        front: &mut Front<Unlimited<L>>,
        admission: AdmissionTo<Unlimited<L>>,
        request: Request,
    ) -> Result<OpenedIn<Unlimited<L>>, NotOpenedIn<Unlimited<L>>>
        requires { AsksForASeat request }
        ensures opens { OpensAs itself itself request result }
        ensures grows { Grows front.old front.new }
        ensures refused { Since front.new (λ h. IfErr result (λ _. ⊤)) }
    {
        let mut held = self.held.lock(rt);
        match acts::open(&mut held.book, self.alloc, request) {
            Ok(opened) => Ok(opened_in(opened, front)),
            Err(refusal) => Err(NotOpened { admission, refusal }),
        }
    }

    fn call<R: Wait>(
        &self,
        rt: &R,
        _front: &mut Front<Unlimited<L>>,
        seat: &mut RunSeat<Unlimited<L>>,
        call: Call,
    ) -> Result<Receipt, Refusal> {
        let mut held = self.held.lock(rt);
        acts::call(&mut held.book, self.alloc, &mut seat.seat, call)
    }

    fn finish<R: Wait>(
        &self,
        rt: &R,
        _front: &mut Front<Unlimited<L>>,
        seat: RunSeat<Unlimited<L>>,
    ) -> FinishedIn<Unlimited<L>>
        ensures finishes { FinishesBy seat result }
        ensures grows { Grows _front.old _front.new }
        ensures ended { Since _front.new (λ h. SaysEnded itself (λ _ _ _. ⊤) seat result) }
    {
        let mut held = self.held.lock(rt);
        let InRun { seat, front } = seat;
        match finish(&mut held, self.alloc, seat) {
            Finished::Resumed { seat, receipt } => Finished::Resumed {
                seat: InRun { seat, front },
                receipt,
            },
            Finished::Ended(ended) => Finished::Ended(ended_with(ended, front)),
        }
    }

    fn hang_up<R: Wait>(
        &self,
        rt: &R,
        _front: &mut Front<Unlimited<L>>,
        seat: RunSeat<Unlimited<L>>,
    ) -> EndedIn<Unlimited<L>>
        ensures hangs_up { HangsUpBy seat result }
        ensures grows { Grows _front.old _front.new }
        ensures ended { Since _front.new (λ h. ⊤) }
    {
        let mut held = self.held.lock(rt);
        let InRun { seat, front } = seat;
        ended_with(acts::exit(&mut held.book, seat, Why::HungUp), front)
    }

    /// It does nothing: a call that would wait is given up whether its connection is lost or not.
    fn mark_lost<R: Wait>(&self, _rt: &R, process: u32) -> Marked {
        Marked::needless(process)
    }
}

impl<L: Run> KernelOf<Unlimited<L>> for OneBook<L> {}

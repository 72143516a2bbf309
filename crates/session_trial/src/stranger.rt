//! A kernel that does not know its seats any more.

ghost use Rattle.std.specs.Prelude.{◌≡◌, ⊤, IfErr};
ghost use Rattle.run_history.specs.Fronts.{Grows, Since};
ghost use Rattle.system_lock.specs.Kernel.{FinishesBy, HangsUpBy, AsksForASeat, OpensAs, SaysEnded, itself};

use byte_ledger::tallies::Sums;
use call_types::call::Call;
use call_types::refusal::Refusal;
use call_types::request::Request;
use record_book::seat::Receipt;
use run_history::front::Front;
use std::sync::Wait;
use system_lock::kernel::{
    AdmissionTo, Ended, EndedIn, Finished, FinishedIn, Kernel, KernelOf, NotOpenedIn, OpenedIn, Why,
};
use system_lock::one_book::{OneBook, Unlimited};
use system_lock::run::Run;
use system_lock::run_seat::{RunSeat, SpentRunSeat};
use system_lock::watch::Marked;

/// What it does not know.
#[derive(Clone, Copy, Debug, PartialEq, Eq)]
pub(crate) enum Forgets {
    Nothing,
    /// The seat of a process that waits.
    WhoWaits,
    /// The seat of any process that is hung up.
    All,
}

/// A book for one thread, which may forget the seats that it gave.
#[derive(Drop)]
pub(crate) struct Stranger<L: Run> {
    book: OneBook<L>,
    forgets: Forgets,
}

impl<L: Run> Stranger<L> {
    /// A kernel of this book that forgets so much.
    pub(crate) fn new(book: OneBook<L>, forgets: Forgets) -> Self {
        Stranger { book, forgets }
    }

    /// Leave to open one process.
    pub(crate) fn admit(&self) -> AdmissionTo<Unlimited<L>> {
        self.book.admit()
    }

    /// How much its book holds.
    pub(crate) fn counts<R: Wait>(&self, rt: &R) -> Sums {
        self.book.counts(rt)
    }
}

/// A seat that is not known.
fn foreign<L: Run>(seat: RunSeat<L>) -> EndedIn<L>
    ensures seat { result.seat ≡ seat }
    ensures why { result.why ≡ Why.Foreign }
{
    Ended {
        seat: SpentRunSeat::of(seat),
        why: Why::Foreign,
    }
}

impl<L: Run> Kernel<RunSeat<Unlimited<L>>, SpentRunSeat<Unlimited<L>>, Front<Unlimited<L>>>
    for Stranger<L> {
    ghost use Rattle.std.specs.Prelude.{⊤};
    ghost use Rattle.system_lock.specs.Kernel.{anything};

    ghost says = { λ _. anything };

    ghost marks = { λ _ _. ⊤ };

    fn open<R: Wait>(
        &self,
        rt: &R,
        front: &mut Front<Unlimited<L>>,
        admission: AdmissionTo<Unlimited<L>>,
        request: Request,
    ) -> Result<OpenedIn<Unlimited<L>>, NotOpenedIn<Unlimited<L>>>
        requires { AsksForASeat request }
        ensures opens { OpensAs itself itself request result }
        ensures grows { Grows front.old front.new }
        ensures refused { Since front.new (λ h. IfErr result (λ _. ⊤)) }
    {
        self.book.open(rt, front, admission, request)
    }

    fn call<R: Wait>(
        &self,
        rt: &R,
        front: &mut Front<Unlimited<L>>,
        seat: &mut RunSeat<Unlimited<L>>,
        call: Call,
    ) -> Result<Receipt, Refusal> {
        self.book.call(rt, front, seat, call)
    }

    fn finish<R: Wait>(
        &self,
        rt: &R,
        front: &mut Front<Unlimited<L>>,
        seat: RunSeat<Unlimited<L>>,
    ) -> FinishedIn<Unlimited<L>>
        ensures finishes { FinishesBy seat result }
        ensures grows { Grows front.old front.new }
        ensures ended { Since front.new (λ h. SaysEnded itself (λ _ _ _. ⊤) seat result) }
    {
        match self.forgets {
            Forgets::WhoWaits => Finished::Ended(foreign(seat)),
            _ => self.book.finish(rt, front, seat),
        }
    }

    fn hang_up<R: Wait>(
        &self,
        rt: &R,
        front: &mut Front<Unlimited<L>>,
        seat: RunSeat<Unlimited<L>>,
    ) -> EndedIn<Unlimited<L>>
        ensures hangs_up { HangsUpBy seat result }
        ensures grows { Grows front.old front.new }
        ensures ended { Since front.new (λ h. ⊤) }
    {
        match self.forgets {
            Forgets::All => foreign(seat),
            _ => self.book.hang_up(rt, front, seat),
        }
    }

    fn mark_lost<R: Wait>(&self, _rt: &R, process: u32) -> Marked {
        Marked::needless(process)
    }
}

impl<L: Run> KernelOf<Unlimited<L>> for Stranger<L> {}

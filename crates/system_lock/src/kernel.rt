//! What a session asks a kernel for.

use crate::run::Run;
use crate::run_seat::{RunSeat, SpentRunSeat};
use crate::watch::Marked;
use call_types::call::Call;
use call_types::refusal::Refusal;
use call_types::request::Request;
use record_book::opening::Opened;
use record_book::seat::{AsSeat, Receipt};
use run_history::front::{Front, OfHistory};
use std::marker::{Model, PhantomData};
use std::sync::Wait;

/// Permission to open one process, whose seat is of the kind `S`. The owner of a kernel gives it to whoever serves a
/// connection, and the opening uses it up. So whoever still has it has opened no process; whoever has not has a seat.
#[derive(Drop)]
pub struct Admission<S> {
    seat: PhantomData<S>,
}

impl<S> Model for Admission<S> {
    ghost Value = { Unit {0} };

    ghost view = { λ _. tt };
}

impl<S> Admission<S> {
    /// Leave to open one more process.
    pub(crate) fn new() -> Self {
        Admission { seat: PhantomData }
    }
}

/// An opening that is refused and not recorded. The admission, of the kind `A`, is handed back.
#[derive(Drop)]
pub struct NotOpened<A> {
    pub admission: A,
    pub refusal: Refusal,
}

/// Why a process has ended.
#[derive(Clone, Copy, Debug, PartialEq, Eq)]
pub enum Why {
    /// It was hung up.
    HungUp,
    /// Memory ran out for the call that it waited in.
    NoMemory,
    /// The run was full when its call could go on.
    RunFull,
    /// The call that it waited in was not ready, and was given up: its connection is lost.
    Lost,
    /// The kernel knows no such seat: nothing was recorded.
    Foreign,
}

/// The spent seat, of the kind `P`, of a process that has ended. Its last receipt is that of the exit, but for `Foreign`.
#[derive(Drop)]
pub struct Ended<P> {
    pub seat: P,
    pub why: Why,
}

/// What came of a call that waited, with a seat of the kind `S` or a spent one of the kind `P`.
#[derive(Drop)]
pub enum Finished<S, P> {
    /// It was taken up: its reply, or how many bytes it moved so far. The seat has the receipt too.
    Resumed { seat: S, receipt: Receipt },
    Ended(Ended<P>),
}

/// Types that hold the first records of a history, as far as somebody knows them. By this the contracts of kernels see what their callers
/// know.
pub trait AsFront {
    ghost use Rattle.std.specs.Prelude.{List};
    ghost use Rattle.call_types.specs.declared.act.Record.{Record};

    ghost as_front: { Self → List Record };
}

impl<H: OfHistory> AsFront for Front<H> {
    ghost as_front = { λ f. f };
}

/// Records the acts of processes in one book, for any thread. No contract here promises that a call returns. A seat is
/// of the kind `S`, a spent one of the kind `P`; their types name the ledgers of the book. What the caller knows of the book's history, a
/// front of the kind `F`, goes on with each call.
pub trait Kernel<S: AsSeat, P: AsSeat, F: AsFront> {
    ghost use Rattle.std.specs.Prelude.{ℕ, List, IfErr};
    ghost use Rattle.run_history.specs.Fronts.{Grows, Since};
    ghost use Rattle.call_types.specs.declared.act.Record.{Record};
    ghost use Rattle.system_lock.specs.Kernel.{Says, AsksForASeat, OpensAs, CallsBy, FinishesAs, HangsUpAs, SaysEnded};
    ghost use Rattle.system_lock.specs.System.{MarkState};

    // What the kernel says that no record tells, in a run whose history has these records at first. Where the kernel is not known, only
    // `open` tells that an opening was refused, only `call` that a call was, and only `finish` and `hang_up` that a process has ended.
    ghost says: { List Record → Says };

    // This shows that the connection of this process was told to be lost.
    ghost marks: { MarkState → ℕ → Type 0 };

    /// Opens a process: by a join a new one, by an attach a child that is not attached yet. Where the record is an error there is no process, and the
    /// spent seat has its one receipt. A `Refusal` is NoMemory or RunFull, and
    /// is not recorded. It waits for the lock alone.
    fn open<R: Wait>(
        &self,
        rt: &R,
        front: &mut F,
        admission: Admission<S>,
        request: Request,
    ) -> Result<Opened<S, P>, NotOpened<Admission<S>>>
        requires { AsksForASeat request }
        ensures opens { OpensAs S.as_seat P.as_seat request result }
        ensures grows { Grows (F.as_front front.old) (F.as_front front.new) }
        ensures refused { Since (F.as_front front.new) (λ h. IfErr result (λ back. (says h).not_opened request back.refusal)) };

    /// Records a call of the seat's process: its reply, or that it waits. The seat gets the receipt too. A `Refusal` is not
    /// recorded, and leaves the seat as it was. It waits for the lock alone, and never for another process's call.
    fn call<R: Wait>(
        &self,
        rt: &R,
        front: &mut F,
        seat: &mut S,
        call: Call,
    ) -> Result<Receipt, Refusal>
        ensures calls { CallsBy (S.as_seat seat.old) (S.as_seat seat.new) call result }
        ensures grows { Grows (F.as_front front.old) (F.as_front front.new) }
        ensures refused { Since (F.as_front front.new) (λ h. IfErr result (λ refusal. (says h).refused (S.as_seat seat.old) call refusal)) };

    /// Waits until the call that the seat's process waits in can go on, and takes it up; or ends the process. Where `mark_lost` tells that
    /// its connection is lost, a call that is not ready is waited for no longer: the process ends for `Why::Lost`.
    fn finish<R: Wait>(&self, rt: &R, front: &mut F, seat: S) -> Finished<S, P>
        ensures finishes { FinishesAs S.as_seat P.as_seat (S.as_seat seat) result }
        ensures grows { Grows (F.as_front front.old) (F.as_front front.new) }
        ensures ended { Since (F.as_front front.new) (λ h. SaysEnded P.as_seat (says h).ended (S.as_seat seat) result) };

    /// Records the exit of the seat's process. It waits for the lock alone.
    fn hang_up<R: Wait>(&self, rt: &R, front: &mut F, seat: S) -> Ended<P>
        ensures hangs_up { HangsUpAs P.as_seat (S.as_seat seat) result }
        ensures grows { Grows (F.as_front front.old) (F.as_front front.new) }
        ensures ended { Since (F.as_front front.new) (λ h. (says h).ended (S.as_seat seat) (P.as_seat result.seat) result.why) };

    /// Tells that the connection of a process is lost: a call that it waits in, now or later, is given up where it is not ready. Nothing
    /// is recorded here. It takes no memory, and waits for the lock alone. What it gives shows that this was told.
    fn mark_lost<R: Wait>(&self, rt: &R, process: u32) -> Marked
        ensures { marks result process };
}

/// A kernel whose seats and fronts are those of one run.
pub trait KernelOf<L: Run>: Kernel<RunSeat<L>, SpentRunSeat<L>, Front<L>> {}

/// These of the seats of one run.
pub type AdmissionTo<L> = Admission<RunSeat<L>>;

pub type OpenedIn<L> = Opened<RunSeat<L>, SpentRunSeat<L>>;

pub type NotOpenedIn<L> = NotOpened<AdmissionTo<L>>;

pub type EndedIn<L> = Ended<SpentRunSeat<L>>;

pub type FinishedIn<L> = Finished<RunSeat<L>, SpentRunSeat<L>>;

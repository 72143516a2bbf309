//! A book, the processes that sleep, and those whose connections are lost: what stands under the lock of a run.

ghost use Rattle.std.specs.Prelude.{◌≡◌, [], None, Some, false, true, All, IfOk};
ghost use Rattle.rtrb.specs.Ring.{received};
ghost use Rattle.byte_ledger.specs.Counted.{IsPartOf};
ghost use Rattle.record_book.specs.Counting.{CountsOwn, counted_in};
ghost use Rattle.record_book.specs.Refusals.{resume_refusal, is_ready_in};
ghost use Rattle.call_types.specs.declared.call.Call.{Call};
ghost use Rattle.call_types.specs.declared.request.Request.{Request};
ghost use Rattle.record_book.specs.Seat.{SeatState};
ghost use Rattle.run_history.specs.Fronts.{Grows};
ghost use Rattle.record_book.specs.Book.{BookState};
ghost use Rattle.system_lock.specs.Kernel.{AsksForASeat, CallsBy, EndsBy, HangsUpBy};
ghost use Rattle.system_lock.specs.Proved.Reasons.{OpensBy, IsReason, EndsByReason};
ghost use Rattle.system_lock.specs.Proved.Acts.{TriesBy};
ghost use Rattle.system_lock.specs.Owns.{OwnsUnder};
ghost use Rattle.system_lock.specs.Says.{StandsUnder};
ghost use Rattle.system_lock.specs.System.{is_live_in, is_among, marked_by_watch, AreDistinct, AreLive, AreUnmarked};
ghost use Rattle.system_lock.specs.Proved.Sleepers.{pipe_in};
ghost use Rattle.system_lock.specs.Proved.Watch.{lost_with, asleep_without};
ghost use Rattle.system_lock.specs.Proved.Events.{OpensIn, CallsIn, ExitsIn, ExitIsDue, TriesIn, GivesUpTheLost, IsLeftWaiting, opened_seat, still_asleep, still_lost, with_sleeper};
ghost use Rattle.record_book.specs.Book.{new_book};

use crate::acts;
use crate::acts::{EndedBy, Tried, TriedBy};
use crate::bells::Bells;
use crate::kernel::Why;
use crate::past::Past;
use crate::run::{NewRun, Run};
use crate::stirred::{Stirred, events_spare, opener, pipe_waited};
use crate::watch::{Marked, Watch};
use call_types::call::Call;
use call_types::limits::Limits;
use call_types::refusal::Refusal;
use call_types::request::Request;
use posix_model::laws::reserve_was_kept;
use record_book::book::Book;
use record_book::opening::{Opened, OpenedIn};
use record_book::seat::{Receipt, Seat};
use run_history::front::Front;
use std::alloc::{AllocError, Global};
use std::marker::Model;
use std::sync::Wait;
use trace_ring::trace_ring::TraceEnd;

/// A book, which has the limits that its type names, whose house has no receipt, and from which the end of the trace was taken; its
/// records, as the history has them that its type names; the processes that sleep until the call that they wait in is ready; and those
/// whose connections are lost. No process that sleeps is ready or lost or has ended, and the pipe of each is known. Those that are lost
/// are live, and no two of them are the same.
#[derive(Drop)]
pub struct System<L: Run> {
    book: Book<L>,
    past: Past<L>,
    watch: Watch,
}

impl<L: Run> Model for System<L> {
    ghost use Rattle.std.specs.Prelude.{◌≡◌, [], Some, true};
    ghost use Rattle.system_lock.specs.System.{SystemState};
    ghost use Rattle.system_lock.specs.Proved.Watch.{WatchSound};

    ghost Value = { SystemState };

    ghost view = { λ s. record { book_is = s.book; asleep_are = s.watch.sleepers.asleep.items; lost_are = s.watch.lost.processes.items } };

    ghost invariant = { λ s. WatchSound s.book s.watch × (L.limits ≡ Some s.book.limits) × (s.book.house ≡ Some []) × (s.book.is_traced ≡ true) × (s.past ≡ s.book.history) };
}

/// Adds the record of an opening to those before it, if there is one.
fn add_opening<Rt: Wait, L: Run>(rt: &Rt, past: &mut Past<L>, opened: &Result<OpenedIn<L>, Refusal>)
    requires { (request : Request) × OpensBy request opened.now }
    ensures past { (old new : BookState) (request : Request) → OpensIn old new request opened.now → past.old ≡ old.history → past.new ≡ new.history }
    ensures own { IfOk opened.now (λ o. CountsOwn (opened_seat o).counted (opened_seat o).receipts) }
{
    match opened {
        Ok(Opened::Seated(seat)) => past.add(rt, seat.receipts()[0].record()),
        Ok(Opened::Refused(seat)) => past.add(rt, seat.receipts()[0].record()),
        Err(_) => {}
    }
}

/// Adds the record of a call to those before it, if there is one.
fn add_call<Rt: Wait, L: Run>(rt: &Rt, past: &mut Past<L>, told: &Result<Receipt, Refusal>)
    ensures { (old new : BookState) (s t : SeatState) (call : Call) → CallsIn old new s t call told.now → past.old ≡ old.history → past.new ≡ new.history }
{
    if let Ok(receipt) = told {
        past.add(rt, receipt.record());
    }
}

/// Adds the record of an exit to those before it, if there is one.
fn add_exit<Rt: Wait, L: Run>(rt: &Rt, past: &mut Past<L>, ended: &EndedBy<L>)
    requires { (old : SeatState) × EndsBy old ended.now.seat ended.now.why }
    ensures { (old new : BookState) (s : SeatState) → ExitsIn old new s ended.now.seat ended.now.why → past.old ≡ old.history → past.new ≡ new.history }
{
    if let Why::Foreign = ended.why {
        return;
    }
    match ended.seat.receipts().last() {
        Some(receipt) => past.add(rt, receipt.record()),
        None => unreachable!(),
    }
}

impl<L: Run> System<L> {
    /// A new book, in which no process sleeps or is lost, and the end at which the trace of its records is read.
    pub(crate) fn new(
        alloc: Global,
        limits: Limits,
        run: NewRun,
    ) -> Result<(Self, TraceEnd), AllocError>
        requires named { run ≡ record { names = L.names; book = L.book } }
        requires limits { L.limits ≡ Some limits }
        ensures system { IfOk result (λ pair. pair.0 ≡ record { book_is = record (new_book limits) { is_traced = true }; asleep_are = []; lost_are = [] }) }
        ensures trace { IfOk result (λ pair. received pair.1 ≡ []) }
    {
        let watch = Watch::new(alloc)?;
        let NewRun { blanks, begun } = run;
        let mut book = Book::new(alloc, limits, blanks)?;
        match book.trace_end() {
            Some(trace) => {
                let past = Past::new(begun);
                Ok((System { book, past, watch }, trace))
            }
            None => unreachable!(),
        }
    }

    /// The processes that sleep: none of them waits in a call that is ready, and the connection of none is lost.
    pub fn asleep(&self) -> &[u32]
        ensures those { result.now ≡ self.now.asleep_are }
        ensures none_ready { All (λ process. is_ready_in self.now.book_is process ≡ false) result.now }
        ensures none_lost { AreUnmarked self.now.lost_are result.now }
        ensures live { AreLive self.now.book_is result.now }
        ensures distinct { AreDistinct result.now }
    {
        self.watch.sleepers.asleep.as_slice()
    }

    /// The processes whose connections are lost, in the order in which they were; they are live.
    pub fn lost(&self) -> &[u32]
        ensures those { result.now ≡ self.now.lost_are }
        ensures live { AreLive self.now.book_is result.now }
        ensures distinct { AreDistinct result.now }
    {
        self.watch.lost.processes.as_slice()
    }

    /// The front of the history that has the records of the book, and no more.
    pub fn front(&self) -> &Front<L>
        ensures { result.now ≡ self.now.book_is.history }
    {
        self.past.front()
    }

    /// Sees that the book has all records of a front. It waits for ever where it has not: that does not happen, since only what stands
    /// under the lock adds to the history.
    pub fn has_all_of<Rt: Wait>(&self, rt: &Rt, front: &Front<L>)
        ensures { Grows front.now self.now.book_is.history }
    {
        self.past.has_all_of(rt, front);
    }

    /// The book. Its house has no receipt yet, and the end of its trace was taken.
    pub fn into_book(self) -> Book<L>
        ensures book { result ≡ self.book_is }
        ensures limits { L.limits ≡ Some result.limits }
        ensures house { result.house ≡ Some [] }
        ensures traced { result.is_traced ≡ true }
    {
        self.book
    }

    /// Promises that the book has the limits that the type names, and that its records so far are a legal run. It does nothing.
    fn is_run(&self)
        ensures { StandsUnder L.limits self.now.book_is }
    {
        reserve_was_kept();
        let _sums = self.book.counts();
    }

    /// Whether a process sleeps.
    pub(crate) fn sleeps(&self, process: u32) -> bool {
        self.watch.sleepers.has(process)
    }

    /// Opens a process.
    pub(crate) fn open<Rt: Wait>(
        &mut self,
        rt: &Rt,
        alloc: Global,
        bells: &Bells,
        request: Request,
    ) -> Result<OpenedIn<L>, Refusal>
        requires { AsksForASeat request }
        ensures opens { OpensBy request result }
        ensures event { OpensIn self.old.book_is self.new.book_is request result }
        ensures owns { IfOk result (λ o. OwnsUnder L.limits self.new.book_is.history (opened_seat o)) }
        ensures grows { Grows self.old.book_is.history self.new.book_is.history }
        ensures stood { StandsUnder L.limits self.old.book_is }
        ensures asleep { self.new.asleep_are ≡ still_asleep self.new.book_is self.old.asleep_are }
        ensures lost { self.new.lost_are ≡ still_lost self.new.book_is self.old.lost_are }
    {
        events_spare();
        self.is_run();
        let process = opener(&self.book, &request);
        let opened = acts::open(&mut self.book, alloc, request);
        add_opening(rt, &mut self.past, &opened);
        self.watch
            .wake_stirred(&self.book, bells, Stirred::Anybody { process });
        opened
    }

    /// Records a call, and wakes whom it concerns.
    pub(crate) fn call<Rt: Wait>(
        &mut self,
        rt: &Rt,
        alloc: Global,
        bells: &Bells,
        seat: &mut Seat<L>,
        call: Call,
    ) -> Result<Receipt, Refusal>
        ensures calls { CallsBy seat.old seat.new call result }
        ensures event { CallsIn self.old.book_is self.new.book_is seat.old seat.new call result }
        ensures grows { Grows self.old.book_is.history self.new.book_is.history }
        ensures stood { StandsUnder L.limits self.old.book_is }
        ensures part { IsPartOf seat.old.counted (counted_in self.old.book_is) }
        ensures asleep { self.new.asleep_are ≡ still_asleep self.new.book_is self.old.asleep_are }
        ensures lost { self.new.lost_are ≡ still_lost self.new.book_is self.old.lost_are }
    {
        events_spare();
        self.is_run();
        let stirred = Stirred::by(self.book.machine(), seat.pid(), &call);
        let told = acts::call(&mut self.book, alloc, seat, call);
        add_call(rt, &mut self.past, &told);
        self.watch
            .wake_stirred(&self.book, bells, stirred.told(&told));
        told
    }

    /// Puts a process to sleep whose call waits on this pipe; if its connection is lost, records its exit instead.
    fn sleep_unless_lost<Rt: Wait>(
        &mut self,
        rt: &Rt,
        bells: &Bells,
        seat: Seat<L>,
        pipe: Option<usize>,
    ) -> TriedBy<L>
        requires not_refused { resume_refusal self.old.book_is seat ≡ None }
        requires not_ready { is_ready_in self.old.book_is seat.pid ≡ false }
        requires its_pipe { pipe ≡ pipe_in self.old.book_is seat.pid }
        ensures tries { TriesBy seat result }
        ensures event { TriesIn self.old.book_is self.new.book_is seat result }
        ensures grows { Grows self.old.book_is.history self.new.book_is.history }
        ensures given_up { GivesUpTheLost self.old.lost_are seat result }
        ensures still { IsLeftWaiting self.old self.new seat result }
        ensures asleep { self.new.asleep_are ≡ still_asleep self.new.book_is (with_sleeper self.old.asleep_are result) }
        ensures lost { self.new.lost_are ≡ still_lost self.new.book_is self.old.lost_are }
    {
        let process = seat.pid();
        if self.watch.lost.has(process) {
            return Tried::Ended(self.exit(rt, bells, seat, Why::Lost));
        }
        self.watch.fall_asleep(&self.book, process, pipe);
        Tried::Still(seat)
    }

    /// Takes up the call that a process waits in. Where it is not ready, the process sleeps from now on; but where its connection is lost,
    /// its exit is recorded. That it sleeps takes no memory.
    pub(crate) fn try_resume<Rt: Wait>(
        &mut self,
        rt: &Rt,
        alloc: Global,
        bells: &Bells,
        seat: Seat<L>,
    ) -> TriedBy<L>
        ensures tries { TriesBy seat result }
        ensures event { TriesIn self.old.book_is self.new.book_is seat result }
        ensures grows { Grows self.old.book_is.history self.new.book_is.history }
        ensures stood { StandsUnder L.limits self.old.book_is }
        ensures part { IsPartOf seat.counted (counted_in self.old.book_is) }
        ensures given_up { GivesUpTheLost self.old.lost_are seat result }
        ensures still { IsLeftWaiting self.old self.new seat result }
        ensures asleep { self.new.asleep_are ≡ still_asleep self.new.book_is (with_sleeper self.old.asleep_are result) }
        ensures lost { self.new.lost_are ≡ still_lost self.new.book_is self.old.lost_are }
    {
        events_spare();
        self.is_run();
        let process = seat.pid();
        let pipe = pipe_waited(self.book.machine(), process);
        match acts::resume(&mut self.book, alloc, seat) {
            Tried::Still(seat) => self.sleep_unless_lost(rt, bells, seat, pipe),
            Tried::Resumed { seat, receipt } => {
                self.past.add(rt, receipt.record());
                let stirred = Stirred::at(process, pipe);
                self.watch.wake_stirred(&self.book, bells, stirred);
                Tried::Resumed { seat, receipt }
            }
            Tried::Ended(ended) => {
                add_exit(rt, &mut self.past, &ended);
                self.watch
                    .wake_stirred(&self.book, bells, Stirred::Anybody { process });
                Tried::Ended(ended)
            }
        }
    }

    /// Records the exit of a process for a reason, and wakes whom it concerns.
    fn exit<Rt: Wait>(&mut self, rt: &Rt, bells: &Bells, seat: Seat<L>, reason: Why) -> EndedBy<L>
        requires { IsReason reason }
        ensures ends { EndsByReason seat reason result }
        ensures event { ExitsIn self.old.book_is self.new.book_is seat result.seat result.why }
        ensures grows { Grows self.old.book_is.history self.new.book_is.history }
        ensures due { ExitIsDue self.old.book_is seat result.why }
        ensures part { IsPartOf seat.counted (counted_in self.old.book_is) }
        ensures asleep { self.new.asleep_are ≡ still_asleep self.new.book_is self.old.asleep_are }
        ensures lost { self.new.lost_are ≡ still_lost self.new.book_is self.old.lost_are }
    {
        events_spare();
        let process = seat.pid();
        let ended = acts::exit(&mut self.book, seat, reason);
        add_exit(rt, &mut self.past, &ended);
        self.watch
            .wake_stirred(&self.book, bells, Stirred::Anybody { process });
        ended
    }

    /// Records the exit of a process that is hung up.
    pub(crate) fn hang_up<Rt: Wait>(&mut self, rt: &Rt, bells: &Bells, seat: Seat<L>) -> EndedBy<L>
        ensures hangs_up { HangsUpBy seat result }
        ensures event { ExitsIn self.old.book_is self.new.book_is seat result.seat result.why }
        ensures grows { Grows self.old.book_is.history self.new.book_is.history }
        ensures due { ExitIsDue self.old.book_is seat result.why }
        ensures part { IsPartOf seat.counted (counted_in self.old.book_is) }
        ensures stood { StandsUnder L.limits self.old.book_is }
        ensures asleep { self.new.asleep_are ≡ still_asleep self.new.book_is self.old.asleep_are }
        ensures lost { self.new.lost_are ≡ still_lost self.new.book_is self.old.lost_are }
    {
        self.is_run();
        self.exit(rt, bells, seat, Why::HungUp)
    }

    /// Marks a process as lost, if it is live and not marked yet, and wakes it if it sleeps. It takes no memory.
    pub(crate) fn mark_lost(&mut self, bells: &Bells, process: u32) -> Marked
        ensures book { self.new.book_is ≡ self.old.book_is }
        ensures marked { is_live_in self.old.book_is process ≡ true → is_among self.new.lost_are process ≡ true }
        ensures lost { self.new.lost_are ≡ lost_with self.old.book_is self.old.lost_are process }
        ensures asleep { self.new.asleep_are ≡ asleep_without self.old.book_is self.old.lost_are self.old.asleep_are process }
        ensures its { result ≡ marked_by_watch process }
    {
        self.watch.mark_lost(&self.book, bells, process)
    }
}

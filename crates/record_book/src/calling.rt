//! Calls, and those that wait taken up again.

ghost use Rattle.std.specs.Prelude.{◌≡◌, None, true, false, IfOk, IfErr, OnOk, OnErr};
ghost use Rattle.byte_ledger.specs.Counted.{IsPartOf};
ghost use Rattle.posix_model.specs.Resume.{is_ready};
ghost use Rattle.record_book.specs.Book.{world_now, Records};
ghost use Rattle.record_book.specs.Counting.{counted_in};
ghost use Rattle.record_book.specs.Refusals.{exit_refusal, start_refusal, resume_refusal, is_ready_in, is_too_full, IsDue, ResumeRefused};
ghost use Rattle.record_book.specs.Resumes.{Resumes};

use crate::book::Book;
use crate::seat::{Receipt, Seat};
use byte_ledger::ledgers::Ledgers;
use call_types::act::Act;
use call_types::call::Call;
use call_types::refusal::Refusal;
use std::alloc::{AllocError, Global};

/// What a resume gives.
#[derive(Drop)]
pub enum Resumed {
    /// The record of what came of it: the reply of the call, or how many bytes it moved so far.
    Recorded(Receipt),
    /// The process waits in no call that is ready. Nothing is recorded.
    Still,
}

impl<L: Ledgers> Book<L> {
    /// Records a call that is not refused. On an error nothing changes.
    fn record_call(
        &mut self,
        alloc: Global,
        seat: &mut Seat<L>,
        call: Call,
    ) -> Result<Receipt, AllocError>
        requires free { start_refusal self.old seat.old call ≡ None }
        ensures recorded { IfOk result (λ receipt. Records self.old self.new seat.old seat.new (Act.Call call) receipt) }
        ensures unchanged { OnErr result ((self.new ≡ self.old) × (seat.new ≡ seat.old)) }
    {
        let actor = seat.pid();
        // A match, since `?` would move what was decided once more.
        let decided = match self.progress().call_comes_to(alloc, actor, &call) {
            Ok(decided) => decided,
            Err(error) => return Err(error),
        };
        let act = Act::Call(call);
        self.progress().is_planned(actor, &act, &decided);
        self.record_act(alloc, seat, act, decided)
    }

    /// Records a call of the seat's process, whatever its outcome. The seat gets the receipt too. A `Refusal` is not
    /// recorded, and leaves book and seat as they were. What the seat counts is part of what the book counts.
    pub fn start(
        &mut self,
        alloc: Global,
        seat: &mut Seat<L>,
        call: Call,
    ) -> Result<Receipt, Refusal>
        ensures recorded { IfOk result (λ receipt. Records self.old self.new seat.old seat.new (Act.Call call) receipt) }
        ensures not_refused { OnOk result (start_refusal self.old seat.old call ≡ None) }
        ensures refused { IfErr result (λ refusal. IsDue (start_refusal self.old seat.old call) refusal) }
        ensures unchanged { OnErr result ((self.new ≡ self.old) × (seat.new ≡ seat.old)) }
        ensures part { IsPartOf seat.old.counted (counted_in self.old) }
    {
        self.tallies.have_part(&mut seat.shares);
        if let Some(refusal) = self.start_refusal(seat, &call) {
            return Err(refusal);
        }
        Ok(self.record_call(alloc, seat, call)?)
    }

    /// Whether a process waits in a call that is ready.
    pub fn is_ready(&self, process: u32) -> bool
        ensures { result ≡ is_ready self.now.limits.bounds (world_now self.now) process }
    {
        self.progress().is_ready(process)
    }

    /// Records a resume of a call that is ready. On an error nothing changes.
    fn record_resume(&mut self, alloc: Global, seat: &mut Seat<L>) -> Result<Receipt, AllocError>
        requires ready { is_ready_in self.old seat.old.pid ≡ true }
        requires roomy { is_too_full self.old seat.old.pid Act.Resume ≡ false }
        ensures recorded { IfOk result (λ receipt. Records self.old self.new seat.old seat.new Act.Resume receipt) }
        ensures unchanged { OnErr result ((self.new ≡ self.old) × (seat.new ≡ seat.old)) }
    {
        let actor = seat.pid();
        let decided = self.progress().resume_comes_to(alloc, actor)?;
        self.progress().is_planned(actor, &Act::Resume, &decided);
        self.record_act(alloc, seat, Act::Resume, decided)
    }

    /// Takes up the call that the seat's process waits in, if it is ready. The seat gets the receipt too. Neither a `Refusal` nor
    /// `Still` is recorded, and both leave book and seat as they were. `Still` is told before the run can be full and before memory
    /// can run out. What the seat counts is part of what the book counts.
    pub fn resume(&mut self, alloc: Global, seat: &mut Seat<L>) -> Result<Resumed, Refusal>
        ensures resumed { IfOk result (λ resumed. Resumes self.old self.new seat.old seat.new resumed) }
        ensures not_refused { OnOk result (resume_refusal self.old seat.old ≡ None) }
        ensures refused { IfErr result (λ refusal. ResumeRefused self.old seat.old refusal) }
        ensures unchanged { OnErr result ((self.new ≡ self.old) × (seat.new ≡ seat.old)) }
        ensures part { IsPartOf seat.old.counted (counted_in self.old) }
    {
        self.tallies.have_part(&mut seat.shares);
        if let Some(refusal) = self.exit_refusal(seat) {
            return Err(refusal);
        }
        if !self.is_ready(seat.pid()) {
            return Ok(Resumed::Still);
        }
        if self.progress().resume_overfills(seat.pid()) {
            return Err(Refusal::RunFull);
        }
        Ok(Resumed::Recorded(self.record_resume(alloc, seat)?))
    }
}

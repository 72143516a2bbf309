//! What a run says of an act before it is recorded: whether it is refused, and what it comes to.

ghost use Rattle.std.specs.Prelude.{◌≡◌, ◌≤◌, ◌+◌, [], ◌∷◌, Some, None, true, false, not, nat_le, is_some, if◌then◌else◌, IfOk};
ghost use Rattle.slots.specs.Slots.{slot, live as live_in};
ghost use Rattle.process_table.specs.Processes.{is_here};
ghost use Rattle.posix_model.specs.Exit.{exit, close_run};
ghost use Rattle.posix_model.specs.Join.{is_full};
ghost use Rattle.posix_model.specs.Step.{can_call, comes_to, decided};
ghost use Rattle.record_book.specs.RunState.{next_of};
ghost use Rattle.record_book.specs.Refusals.{call_refusals, exit_refusal, first_refusal, foreign, is_run_full, is_run_ready, start_refusal};
ghost use Rattle.record_book.specs.Proved.Planned.{IsPlanned};

use crate::book::Book;
use crate::progress::Progress;
use crate::seat::Seat;
use byte_ledger::ledgers::Ledgers;
use call_types::act::{Act, HOUSE};
use call_types::call::Call;
use call_types::refusal::Refusal;
use calls::attach::decide_attach;
use calls::decide::{call_adds, decide_call, join_adds};
use calls::exit::{decide_close_run, decide_exit};
use calls::join::{decide_join, is_full};
use calls::resume::decide_resume;
use posix_model::change::Decided;
use posix_model::laws::{acts_are_sound, numbers_rise, processes_are_counted};
use posix_model::reader::WorldReader;
use std::alloc::{AllocError, Global};

impl Progress {
    /// Whether one more record would leave too few for `live` exits and, while the run is open, the closing.
    fn overfills(&self, live: usize) -> bool
        requires { live ≤ live_in self.now.world.processes + 1 }
        ensures { result ≡ not (nat_le ((self.now.counts.records + 1) + (if self.now.world.closed then live else live + 1)) self.now.limits.records) }
    {
        let exits = if self.machine.is_closed() {
            live as u64
        } else {
            live as u64 + 1
        };
        self.counts.records + 1 + exits > self.limits.records()
    }

    /// Whether the record of a call would leave too few records. The process may make a call.
    fn call_overfills(&self, process: u32, call: &Call) -> bool
        requires { can_call (slot self.now.world.processes process) ≡ true }
        ensures { result ≡ is_run_full self.now process (Act.Call call.now) }
    {
        let _process = process;
        processes_are_counted();
        self.overfills(self.machine.live_processes() + call_adds(&self.machine, call))
    }

    /// Whether the record of a join would leave too few records.
    pub fn join_overfills(&self) -> bool
        ensures { result ≡ is_run_full self.now (next_of self.now) Act.Join }
    {
        processes_are_counted();
        self.overfills(self.machine.live_processes() + join_adds(&self.machine))
    }

    /// Whether the record of an attach would leave too few records.
    pub fn attach_overfills(&self, process: u32) -> bool
        ensures { result ≡ is_run_full self.now process Act.Attach }
    {
        let _process = process;
        processes_are_counted();
        self.overfills(self.machine.live_processes())
    }

    /// Whether the record of a resume would leave too few records. The call that the process waits in is ready.
    pub fn resume_overfills(&self, process: u32) -> bool
        requires { is_run_ready self.now process ≡ true }
        ensures { result ≡ is_run_full self.now process Act.Resume }
    {
        let _process = process;
        processes_are_counted();
        self.overfills(self.machine.live_processes())
    }

    /// Whether a process is live and attached.
    #[inline(always)]
    pub fn is_attached(&self, process: u32) -> bool
        ensures { result ≡ is_here (slot self.now.world.processes process) }
    {
        self.machine.is_here(process as usize)
    }

    /// Whether a process waits in a call that is ready.
    pub fn is_ready(&self, process: u32) -> bool
        ensures { result ≡ is_run_ready self.now process }
    {
        calls::resume::is_ready(&self.machine, self.limits.bounds(), process as usize)
    }

    /// Whether no further process can be made.
    pub fn is_full(&self) -> bool
        ensures { result ≡ is_full self.now.world }
    {
        is_full(&self.machine)
    }

    /// The first refusal of a call of a process. A call that is refused is not recorded.
    #[inline(always)]
    pub fn call_refusal(&self, process: u32, call: &Call) -> Option<Refusal>
        ensures { result ≡ first_refusal (call_refusals self.now process call.now) }
    {
        if !self.machine.is_here(process as usize) {
            return Some(Refusal::NotHere);
        }
        if self.machine.parked(process as usize).is_some() {
            return Some(Refusal::Waiting);
        }
        if self.call_overfills(process, call) {
            return Some(Refusal::RunFull);
        }
        None
    }

    /// Promises that what an act comes to can be recorded, if its record fits into the run. It does nothing.
    pub fn is_planned(&self, actor: u32, act: &Act, decided: &Decided)
        requires comes { comes_to self.now.limits.bounds self.now.world actor act.now ≡ Some decided.now }
        requires roomy { is_run_full self.now actor act.now ≡ false }
        ensures { IsPlanned self.now actor act.now decided.now }
    {
        let _actor = actor;
        let _act = act;
        let _decided = decided;
        numbers_rise();
        acts_are_sound();
        processes_are_counted();
        let _bounds = self.limits.bounds();
    }

    /// Promises that the exit of a live process can be recorded. It does nothing.
    pub fn is_exit_planned(&self, process: u32)
        requires { is_some (slot self.now.world.processes process) ≡ true }
        ensures { IsPlanned self.now process Act.Exit (exit process) }
    {
        let _counts = &self.counts;
        processes_are_counted();
        let decided = decide_exit(process as usize);
        self.is_planned(process, &Act::Exit, &decided);
    }

    /// Promises that the closing of an open run can be recorded. It does nothing.
    pub fn is_closing_planned(&self)
        requires { self.now.world.closed ≡ false }
        ensures { IsPlanned self.now HOUSE Act.CloseRun close_run }
    {
        let _counts = &self.counts;
        processes_are_counted();
        let decided = decide_close_run();
        self.is_planned(HOUSE, &Act::CloseRun, &decided);
    }

    /// What a call that is not refused comes to, by its page. An error says that memory ran out.
    #[inline(always)]
    pub fn call_comes_to(
        &self,
        alloc: Global,
        process: u32,
        call: &Call,
    ) -> Result<Decided, AllocError>
        ensures { IfOk result (λ d. d ≡ decided self.now.limits.bounds self.now.world process call.now) }
    {
        decide_call(
            &self.machine,
            alloc,
            self.limits.bounds(),
            process as usize,
            call,
        )
    }

    /// What a join comes to, by its page. An error says that memory ran out.
    pub fn join_comes_to(&self, alloc: Global) -> Result<Decided, AllocError>
        ensures { IfOk result (λ d. comes_to self.now.limits.bounds self.now.world (next_of self.now) Act.Join ≡ Some d) }
    {
        decide_join(&self.machine, alloc)
    }

    /// What an attach comes to, by its page.
    pub fn attach_comes_to(&self, process: u32) -> Decided
        ensures { comes_to self.now.limits.bounds self.now.world process Act.Attach ≡ Some result }
    {
        decide_attach(&self.machine, process as usize)
    }

    /// What a resume of a call that is ready comes to. An error says that memory ran out.
    pub fn resume_comes_to(&self, alloc: Global, process: u32) -> Result<Decided, AllocError>
        requires { is_run_ready self.now process ≡ true }
        ensures { IfOk result (λ d. comes_to self.now.limits.bounds self.now.world process Act.Resume ≡ Some d) }
    {
        let bounds = self.limits.bounds();
        match decide_resume(&self.machine, alloc, bounds, process as usize)? {
            Some(decided) => Ok(decided),
            None => unreachable!(),
        }
    }
}

impl<L: Ledgers> Book<L> {
    /// What is refused first of all that a seat's process does.
    #[inline(always)]
    fn foreign_refusal(&self, seat: &Seat<L>) -> Option<Refusal>
        ensures { result ≡ first_refusal (foreign self.now seat.now ∷ []) }
    {
        let len = self.progress().sums().records;
        if seat.seen() > len {
            return Some(Refusal::Foreign {
                seen: seat.seen(),
                len,
            });
        }
        None
    }

    /// The first refusal of an exit. Every act of the seat's process checks these refusals first.
    #[inline(always)]
    pub(crate) fn exit_refusal(&self, seat: &Seat<L>) -> Option<Refusal>
        ensures { result ≡ exit_refusal self.now seat.now }
    {
        if let Some(refusal) = self.foreign_refusal(seat) {
            return Some(refusal);
        }
        if !self.progress().machine.is_here(seat.pid() as usize) {
            return Some(Refusal::NotHere);
        }
        None
    }

    /// The first refusal of a call. A call that is refused is not recorded.
    #[inline(always)]
    pub(crate) fn start_refusal(&self, seat: &Seat<L>, call: &Call) -> Option<Refusal>
        ensures { result ≡ start_refusal self.now seat.now call.now }
    {
        if let Some(refusal) = self.foreign_refusal(seat) {
            return Some(refusal);
        }
        self.progress().call_refusal(seat.pid(), call)
    }
}

//! How far a run has come.

ghost use Rattle.std.specs.Prelude.{◌≡◌, ◌+◌, ◌≤◌, false, true, is_some, IfOk, OnOk, OnErr};
ghost use Rattle.call_types.specs.declared.limits.TheConstants.{GIVEN_BYTES_MAX, PROCESSES_MAX};
ghost use Rattle.slots.specs.Slots.{live, slot};
ghost use Rattle.process_table.specs.Processes.{awaits};
ghost use Rattle.posix_model.specs.Reserve.{exits_left};
ghost use Rattle.posix_model.specs.Turns.{took, gave};
ghost use Rattle.record_book.specs.RunState.{new_run, grown, next_of};
ghost use Rattle.record_book.specs.Exits.{exit_record, closing_record};
ghost use Rattle.record_book.specs.Proved.Planned.{IsPlanned};

use crate::moved::{BytesMoved, bytes_moved};
use byte_ledger::tallies::Sums;
use call_types::act::{Act, Record};
use call_types::limits::Limits;
use calls::exit::{decide_close_run, decide_exit};
use calls::given::given;
use machine_state::machine::Machine;
use posix_model::change::Change;
use posix_model::reader::WorldReader;
use std::alloc::{AllocError, Global};
use std::marker::Model;

/// The limits of a run, the machine to which its records led, and how many these were and how many bytes they took and gave. Contracts
/// see the machine as its world. The records themselves are not kept.
#[derive(Drop)]
pub struct Progress {
    pub(crate) limits: Limits,
    pub(crate) machine: Machine,
    pub(crate) counts: Sums,
}

impl Model for Progress {
    ghost use Rattle.record_book.specs.RunState.{RunState};

    ghost Value = { RunState };

    ghost use Rattle.record_book.specs.RunSeen.{state_of};
    ghost use Rattle.record_book.specs.Proved.Inside.{IsProgress};

    ghost view = { state_of };

    ghost invariant = { IsProgress };
}

impl Progress {
    /// Before the first record. It takes no memory.
    pub fn new(alloc: Global, limits: Limits) -> Self
        ensures { result ≡ new_run limits }
    {
        let _records = limits.records();
        Progress {
            machine: Machine::new(alloc, limits.bounds().pipe_capacity as usize),
            limits,
            counts: Sums {
                records: 0,
                bytes_in: 0,
                bytes_out: 0,
            },
        }
    }

    /// The number that the next process will have.
    pub fn next_pid(&self) -> u32
        ensures { result ≡ next_of self.now }
    {
        let _records = self.limits.records();
        self.machine.next_process() as u32
    }

    /// Whether the run is closed.
    pub fn is_closed(&self) -> bool
        ensures { result ≡ self.now.world.closed }
    {
        self.machine.is_closed()
    }

    /// Whether a process has no connection yet.
    pub fn awaits(&self, process: u32) -> bool
        ensures { result ≡ awaits (slot self.now.world.processes process) }
    {
        self.machine.awaits(process as usize)
    }

    /// How many records there are, and how many bytes they took and gave.
    pub fn sums(&self) -> Sums
        ensures { result ≡ self.now.counts }
    {
        self.counts
    }

    /// Promises that enough more records are free for the exits and the closing, and that no more processes are live than there may be.
    /// It does nothing.
    pub fn has_reserve(&self)
        ensures reserve { self.now.counts.records + exits_left self.now.world ≤ self.now.limits.records }
        ensures most { self.now.limits.records ≤ 1000000 }
        ensures few { live self.now.world.processes ≤ PROCESSES_MAX }
    {
        let _counts = &self.counts;
        let _records = self.limits.records();
    }

    /// Makes the change of a planned act, and counts the act's record. Returns how many bytes the record took and gave. On an error, which
    /// says that memory ran out, nothing changes.
    #[inline(always)]
    pub fn append(&mut self, item: &Record, change: Change) -> Result<BytesMoved, AllocError>
        requires planned { IsPlanned self.old item.now.actor item.now.act (record { outcome = item.now.outcome; change = change }) }
        ensures grows { OnOk result (self.new ≡ grown self.old item.now) }
        ensures bytes_in { IfOk result (λ moved. moved.bytes_in ≡ took self.old.world item.now) }
        ensures bytes_out { IfOk result (λ moved. moved.bytes_out ≡ gave self.old.world item.now) }
        ensures few_in { IfOk result (λ moved. moved.bytes_in ≤ GIVEN_BYTES_MAX) }
        ensures few_out { IfOk result (λ moved. moved.bytes_out ≤ GIVEN_BYTES_MAX) }
        ensures err { OnErr result (self.new ≡ self.old) }
    {
        let _records = self.limits.records();
        self.machine.reserve_for(&change)?;
        let moved = bytes_moved(&self.machine, item);
        self.counts = Sums {
            records: self.counts.records + 1,
            bytes_in: self.counts.bytes_in + moved.bytes_in,
            bytes_out: self.counts.bytes_out + moved.bytes_out,
        };
        self.machine.apply(given(&item.act), change);
        Ok(moved)
    }

    /// Ends a live process, and counts the record of its exit. It takes no memory.
    pub fn end_process(&mut self, process: u32)
        requires { is_some (slot self.old.world.processes process) ≡ true }
        ensures { self.new ≡ grown self.old (exit_record process) }
    {
        self.is_exit_planned(process);
        let _records = self.limits.records();
        let decided = decide_exit(process as usize);
        self.counts.records += 1;
        self.machine.apply(given(&Act::Exit), decided.change);
    }

    /// Closes an open run, and counts the record of the closing. It takes no memory.
    pub fn close(&mut self)
        requires { self.old.world.closed ≡ false }
        ensures { self.new ≡ grown self.old closing_record }
    {
        self.is_closing_planned();
        let _records = self.limits.records();
        let decided = decide_close_run();
        self.counts.records += 1;
        self.machine.apply(given(&Act::CloseRun), decided.change);
    }
}

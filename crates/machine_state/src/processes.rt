ghost use Rattle.std.specs.Prelude.{◌≡◌, ℕ, ◌<◌, None, length};
ghost use Rattle.call_types.specs.declared.limits.TheConstants.{PROCESSES_MAX};
ghost use Rattle.slots.specs.Slots.{slot, live};
ghost use Rattle.posix_model.specs.Counts.{refs_of};
ghost use Rattle.posix_model.specs.Change.{with_processes};
ghost use Rattle.posix_model.specs.Descriptors.{with_descriptor};
ghost use Rattle.posix_model.specs.Proved.Whole.{EachThere};
ghost use Rattle.posix_model.specs.Kept.{IsThere, IsSettled};
ghost use Rattle.posix_model.specs.Proved.Fits.{CanAdd};
ghost use Rattle.posix_model.specs.Proved.Drops.{without_process, closed_below};
ghost use Rattle.posix_model.specs.Sweep.{sweep};
ghost use Rattle.posix_model.specs.declared.change.ProcessEdit.TheVariants as on_process;
ghost use Rattle.machine_state.specs.Proved.Targets.{EndsAreTheirs};
ghost use Rattle.machine_state.specs.Proved.Room.{KeepsOpenRoom};

use crate::entries::hold_entries;
use crate::machine::Machine;
use call_types::limits::OPEN_MAX;
use posix_model::laws::{exits_close, sweep_leaves_wanted, sweep_releases, sweep_settles};
use process_table::process::{Parked, Process};
use process_table::table::DescriptorTable;

impl Machine {
    /// Adds a process whose descriptors refer to what is there.
    #[inline(always)]
    pub(crate) fn add_process(&mut self, table: DescriptorTable, attached: bool)
        requires fits { CanAdd self.old.world table }
        requires few { live self.old.world.processes < PROCESSES_MAX }
        requires room { 0 < self.old.room.processes }
        ensures world { self.new.world ≡ with_processes self.old.world (on_process.Add table attached) }
        ensures room { KeepsOpenRoom self.old self.new }
    {
        hold_entries(&mut self.descriptions, table.entries());
        self.processes.add(Process::new(table, attached));
    }

    /// Gives a process its connection.
    #[inline(always)]
    pub(crate) fn attach(&mut self, process: usize)
        requires { IsThere self.old.world.processes process }
        ensures world { self.new.world ≡ with_processes self.old.world (on_process.Attach process) }
        ensures room { KeepsOpenRoom self.old self.new }
    {
        self.processes.attach(process);
    }

    /// Lets a process wait in a call.
    #[inline(always)]
    pub(crate) fn park(&mut self, process: usize, parked: Parked)
        requires { IsThere self.old.world.processes process }
        ensures world { self.new.world ≡ with_processes self.old.world (on_process.Park process parked) }
        ensures room { KeepsOpenRoom self.old self.new }
    {
        self.processes.park(process, parked);
    }

    /// The call that a process waits in has moved so many bytes in all.
    #[inline(always)]
    pub(crate) fn set_moved(&mut self, process: usize, moved: u32)
        requires { IsThere self.old.world.processes process }
        ensures world { self.new.world ≡ with_processes self.old.world (on_process.Total process moved) }
        ensures room { KeepsOpenRoom self.old self.new }
    {
        self.processes.set_moved(process, moved);
    }

    /// A process waits in no call any more.
    #[inline(always)]
    pub(crate) fn unpark(&mut self, process: usize)
        requires { IsThere self.old.world.processes process }
        ensures world { self.new.world ≡ with_processes self.old.world (on_process.Unpark process) }
        ensures room { KeepsOpenRoom self.old self.new }
    {
        self.processes.unpark(process);
    }

    /// Marks the run as closed.
    pub(crate) fn close_run(&mut self)
        ensures world { self.new.world ≡ with_processes self.old.world on_process.Close }
        ensures room { KeepsOpenRoom self.old self.new }
    {
        self.closed = true;
    }

    /// Each process has all its descriptors, and nothing waits for a sweep. It does nothing.
    pub fn is_settled(&self)
        ensures tables { EachThere (λ process. length process.table ≡ OPEN_MAX) self.now.world.processes }
        ensures settled { IsSettled self.now.world }
    {
        let _closed = &self.closed;
    }

    /// Closes a descriptor of a process.
    fn close_one(&mut self, process: usize, fd: usize)
        requires there { IsThere self.old.world.processes process }
        requires below { fd < OPEN_MAX }
        requires theirs { EndsAreTheirs self.old.world }
        ensures world { self.new.world ≡ sweep (with_descriptor self.old.world process fd None) }
        ensures capacity { self.new.room.capacity ≡ self.old.room.capacity }
    {
        self.is_settled();
        self.set_entry(process, fd, None);
    }

    /// Closes the open descriptors of a process, one after another.
    fn close_all(&mut self, process: usize)
        requires there { IsThere self.old.world.processes process }
        requires theirs { EndsAreTheirs self.old.world }
        ensures world { self.new.world ≡ closed_below process OPEN_MAX self.old.world }
        ensures capacity { self.new.room.capacity ≡ self.old.room.capacity }
    {
        sweep_leaves_wanted();
        sweep_releases();
        sweep_settles();
        self.is_settled();
        let mut from = 0;
        while let Some(fd) = self.processes.next_open(process, from) {
            self.close_one(process, fd);
            from = fd + 1;
        }
    }

    /// Takes away a process that has no open descriptor.
    fn remove_process(&mut self, process: usize)
        requires { (n : ℕ) → refs_of n (slot self.old.world.processes process) ≡ 0 }
        ensures world { self.new.world ≡ without_process self.old.world process }
        ensures capacity { self.new.room.capacity ≡ self.old.room.capacity }
    {
        self.processes.remove(process);
    }

    /// A process ends: its descriptors are closed, and it is gone.
    pub(crate) fn exit(&mut self, process: usize)
        requires there { IsThere self.old.world.processes process }
        requires theirs { EndsAreTheirs self.old.world }
        ensures world { self.new.world ≡ sweep (with_processes self.old.world (on_process.Exit process)) }
        ensures capacity { self.new.room.capacity ≡ self.old.room.capacity }
    {
        exits_close();
        sweep_releases();
        self.is_settled();
        self.close_all(process);
        self.remove_process(process);
    }
}

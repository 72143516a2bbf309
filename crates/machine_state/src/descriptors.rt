ghost use Rattle.std.specs.Prelude.{◌≡◌, ◌+◌, ◌<◌, ◌≤◌, ◌^◌, true, length, None, Some, ℕ};
ghost use Rattle.call_types.specs.declared.limits.TheConstants.{DESCRIPTIONS_MAX};
ghost use Rattle.slots.specs.Slots.{slot, live, edited};
ghost use Rattle.posix_model.specs.Descriptors.{with_descriptor, with_edit};
ghost use Rattle.posix_model.specs.Change.{with_description, with_table, end_of};
ghost use Rattle.posix_model.specs.Pipes.{pipe_at, pipe_of_fifo, with_pipe, fifo_at, opened_file};
ghost use Rattle.posix_model.specs.Kept.{IsThere};
ghost use Rattle.posix_model.specs.Proved.Fits.{IsFree, CanOpen, CanOpenPair, CanOpenEnd, CanSet};
ghost use Rattle.posix_model.specs.Sweep.{sweep, is_open};
ghost use Rattle.posix_model.specs.declared.change.TableEdit.TheVariants as on_table;
ghost use Rattle.file_table.specs.Proved.Files.{openings};
ghost use Rattle.machine_state.specs.Proved.Targets.{file_of_target, EndsAreTheirs};
ghost use Rattle.machine_state.specs.Proved.Room.{HasEndRoom};

use crate::entries::{drop_entry, hold_entry};
use crate::machine::Machine;
use crate::targets::{add_end, file_of_target, hold_file, pipe_of_target, release};
use call_types::description::{Description, DescriptionEdit, Mode, Target};
use posix_model::laws::{sweep_leaves_wanted, sweep_releases};
use posix_model::world::Fifo;
use slots::ticket::Ticket;

/// A new open file description of an end of a pipe (page of pipe).
fn end_of(pipe: usize, mode: Mode) -> Description
    ensures { result ≡ end_of pipe mode }
{
    Description {
        target: Target::Pipe { pipe },
        offset: 0,
        mode,
        append: false,
        nonblock: false,
    }
}

/// The pipe of a FIFO of which an end is open.
pub(crate) fn pipe_of_fifo(fifo: Option<Fifo>) -> Option<usize>
    ensures { result ≡ pipe_of_fifo fifo }
{
    fifo?.pipe
}

impl Machine {
    /// Gives a description another offset, or other flags.
    #[inline(always)]
    pub(crate) fn describe(&mut self, ticket: &Ticket, edit: DescriptionEdit)
        requires { IsThere self.old.world.descriptions ticket.now }
        ensures world { self.new.world ≡ with_edit self.old.world ticket.now edit }
        ensures capacity { self.new.room.capacity ≡ self.old.room.capacity }
    {
        self.descriptions.describe(ticket, edit);
    }

    /// Lets a free descriptor refer to a new description.
    #[inline(always)]
    pub(crate) fn open(&mut self, process: usize, fd: usize, description: Description)
        requires fits { CanOpen self.old.world process fd description }
        requires few { live self.old.world.descriptions < DESCRIPTIONS_MAX }
        requires room { 0 < self.old.room.descriptions }
        ensures world { self.new.world ≡ with_description self.old.world process fd description }
        ensures capacity { self.new.room.capacity ≡ self.old.room.capacity }
    {
        hold_file(&mut self.files, file_of_target(description.target));
        add_end(
            &mut self.pipes,
            pipe_of_target(description.target),
            description.mode,
        );
        let ticket = self.descriptions.add(description);
        self.processes.set_fd(process, fd, Some(ticket));
    }

    /// Lets a free descriptor refer to a new description of the first end of the next pipe, which is empty.
    fn open_first(&mut self, process: usize, fd: usize, description: Description)
        requires free { IsFree self.old.world process fd }
        requires on_next { pipe_at description.target ≡ Some (length self.old.world.pipes) }
        requires there { (n : ℕ) → file_of_target description.target ≡ Some n → IsThere self.old.world.files n }
        requires few { live self.old.world.descriptions < DESCRIPTIONS_MAX }
        requires room { (0 < self.old.room.descriptions) × (0 < self.old.room.pipes) }
        ensures world { self.new.world ≡ with_description (with_pipe self.old.world) process fd description }
        ensures room { self.new.room.descriptions + 1 ≡ self.old.room.descriptions }
        ensures capacity { self.new.room.capacity ≡ self.old.room.capacity }
    {
        let file = file_of_target(description.target);
        hold_file(&mut self.files, file);
        match self.spare.take() {
            Some(ring) => self.pipes.add(ring, description.mode),
            None => unreachable!(),
        }
        let ticket = self.descriptions.add(description);
        self.processes.set_fd(process, fd, Some(ticket));
    }

    /// Opens both ends of the next pipe (page of pipe).
    pub(crate) fn open_pair(&mut self, process: usize, reading: usize, writing: usize)
        requires fits { CanOpenPair self.old.world process reading writing }
        requires few { live self.old.world.descriptions + 2 ≤ DESCRIPTIONS_MAX }
        requires room { (2 ≤ self.old.room.descriptions) × (0 < self.old.room.pipes) }
        ensures world { self.new.world ≡ with_table self.old.world (on_table.OpenPair process reading writing) }
        ensures capacity { self.new.room.capacity ≡ self.old.room.capacity }
    {
        let pipe = self.pipes.next();
        self.open_first(process, reading, end_of(pipe, Mode::Read));
        self.open(process, writing, end_of(pipe, Mode::Write));
    }

    /// An end of a FIFO was opened once more, on this pipe, of which an end is open.
    fn count_opening(&mut self, file: usize, mode: Mode, pipe: usize)
        requires there { IsThere self.old.world.files file }
        requires opens { is_open self.old.world.descriptions pipe ≡ true }
        requires few { openings mode (fifo_at (slot self.old.world.files file)) + 1 < 2 ^ 64 }
        ensures world { self.new.world ≡ record self.old.world { files = edited file (opened_file mode pipe) self.old.world.files } }
        ensures capacity { self.new.room.capacity ≡ self.old.room.capacity }
    {
        self.files.count_opening(file, mode, pipe);
    }

    /// Opens an end of a FIFO once more, on its pipe, or on the next one where it has none (page of open).
    pub(crate) fn open_end(
        &mut self,
        process: usize,
        fd: usize,
        file: usize,
        description: Description,
    )
        requires fits { CanOpenEnd self.old.world process fd file description }
        requires few { live self.old.world.descriptions < DESCRIPTIONS_MAX }
        requires room { HasEndRoom self.old file description.mode }
        ensures world { self.new.world ≡ with_table self.old.world (on_table.OpenEnd process fd file description) }
        ensures capacity { self.new.room.capacity ≡ self.old.room.capacity }
    {
        match pipe_of_fifo(self.files.fifo_at(file)) {
            Some(pipe) => {
                self.open(process, fd, description);
                self.count_opening(file, description.mode, pipe);
            }
            None => {
                let pipe = self.pipes.next();
                self.open_first(process, fd, description);
                self.count_opening(file, description.mode, pipe);
            }
        }
    }

    /// Lets a descriptor refer to a description that is there, or frees it. The description that it referred to before
    /// goes with its last use, and so do the pipe and the file of that one.
    #[inline(always)]
    pub(crate) fn set_entry(&mut self, process: usize, fd: usize, entry: Option<Ticket>)
        requires fits { CanSet self.old.world process fd entry }
        requires theirs { EndsAreTheirs self.old.world }
        ensures world { self.new.world ≡ sweep (with_descriptor self.old.world process fd entry) }
        ensures capacity { self.new.room.capacity ≡ self.old.room.capacity }
    {
        sweep_releases();
        sweep_leaves_wanted();
        hold_entry(&mut self.descriptions, &entry);
        let old = self.processes.set_fd(process, fd, entry);
        let dropped = drop_entry(&mut self.descriptions, &old);
        release(&mut self.pipes, &mut self.files, dropped);
    }
}

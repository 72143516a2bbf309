ghost use Rattle.std.specs.Prelude.{◌≡◌, ◌-◌, ◌≤◌, [], length, take, drop, unwrap_or, OnOk};
ghost use Rattle.call_types.specs.CallTable.{payload_of};
ghost use Rattle.call_types.specs.Stored.{span_bytes};
ghost use Rattle.slots.specs.Slots.{slot, edited};
ghost use Rattle.process_table.specs.Processes.{parked_of};
ghost use Rattle.posix_model.specs.Kept.{IsThere};
ghost use Rattle.posix_model.specs.Descriptors.{held_in};
ghost use Rattle.posix_model.specs.Change.{bytes_from, after_those, rest_of};
ghost use Rattle.machine_state.specs.Proved.Room.{HasPutRoom, KeepsRoom, KeepsTableRoom};

use crate::machine::Machine;
use call_types::span::Span;
use posix_model::change::DataSource;
use process_table::process::Parked;
use process_table::processes::ProcessTable;
use std::alloc::AllocError;

/// The data of a call that waits, after the bytes that it moved, and no more than so many.
fn waiting_bytes(parked: &Parked, count: usize) -> Span<'_>
    ensures { span_bytes result ≡ take count (drop parked.now.moved (unwrap_or (payload_of parked.now.call) [])) }
{
    match parked.call.get().payload() {
        Some(bytes) => bytes.span().cut(parked.moved as usize, count),
        None => Span::Slice(&[]),
    }
}

/// The data of the call that a process waits in, after the bytes that it moved, and no more than so many.
fn parked_bytes(processes: &ProcessTable, process: usize, count: usize) -> Span<'_>
    ensures { span_bytes result ≡ take count (rest_of (parked_of (slot processes.now.0 process))) }
{
    match processes.parked(process) {
        Some(parked) => waiting_bytes(parked, count),
        None => Span::Slice(&[]),
    }
}

impl Machine {
    /// Makes places for so many more bytes in a pipe, or for as many more as it can hold. An error says that memory ran out.
    #[inline(always)]
    pub(crate) fn reserve_put(&mut self, pipe: usize, count: usize) -> Result<(), AllocError>
        requires { IsThere self.old.world.pipes pipe }
        ensures world { self.new.world ≡ self.old.world }
        ensures room { OnOk result (HasPutRoom self.new pipe count) }
        ensures tables { KeepsTableRoom self.old self.new }
        ensures kept { KeepsRoom self.old.room self.new.room }
    {
        self.pipes.reserve_bytes(pipe, count)
    }

    /// Puts so many bytes of the act, or of a call that waits, into a pipe (page of write).
    #[inline(always)]
    pub(crate) fn put(&mut self, bytes: Span<'_>, pipe: usize, source: DataSource, count: usize)
        requires there { IsThere self.old.world.pipes pipe }
        requires given { count ≤ length (bytes_from self.old.world (span_bytes bytes) source) }
        requires holds { count ≤ self.old.room.capacity - held_in self.old.world pipe }
        requires room { HasPutRoom self.old pipe count }
        ensures world { self.new.world ≡ record self.old.world { pipes = edited pipe (after_those (take count (bytes_from self.old.world (span_bytes bytes.entry) source))) self.old.world.pipes } }
        ensures tables { KeepsTableRoom self.old self.new }
    {
        match source {
            DataSource::Act => self.pipes.put(pipe, bytes.cut(0, count)),
            DataSource::Parked { process } => {
                self.pipes
                    .put(pipe, parked_bytes(&self.processes, process, count));
            }
        }
    }

    /// Takes so many bytes out of a pipe, or all that it holds (page of read).
    #[inline(always)]
    pub(crate) fn take(&mut self, pipe: usize, count: usize)
        requires { IsThere self.old.world.pipes pipe }
        ensures world { self.new.world ≡ record self.old.world { pipes = edited pipe (drop count) self.old.world.pipes } }
        ensures tables { KeepsTableRoom self.old self.new }
    {
        self.pipes.take(pipe, count);
    }
}

//! What can be read as a world of the model. Calls are decided of any such state, by one body for all of them.

ghost use Rattle.std.specs.Prelude.{◌≡◌, ◌≤◌, ◌<◌, ◌^◌, pos, length, take, IfOk, IfSome};
ghost use Rattle.std.specs.Option.{option_copied};
ghost use Rattle.slots.specs.Slots.{slot, lowest, live};
ghost use Rattle.process_table.specs.Processes.{table_of, copied_table, parked_of, is_here, awaits};
ghost use Rattle.call_types.specs.Names.{file_of};
ghost use Rattle.posix_model.specs.Bytes.{bytes_at};
ghost use Rattle.posix_model.specs.Descriptors.{opened, bytes_of, held_in};
ghost use Rattle.posix_model.specs.Pipes.{held_bytes, has_reader, has_writer, fifo_at};
ghost use Rattle.process_table.specs.Tables.{two_lowest};
ghost use Rattle.posix_model.specs.Counts.{links};
ghost use Rattle.posix_model.specs.declared.world.World.{World as Worlds};

use crate::opened::OpenDescriptor;
use crate::world::Fifo;
use call_types::bounded::Content;
use call_types::limits::{OPEN_MAX, TRANSFER_MAX};
use process_table::process::{Parked, Process};
use process_table::table::DescriptorTable;
use std::alloc::{AllocError, Global};

/// A state that can be read as a world.
pub trait WorldReader {
    ghost world: { Self → Worlds };

    /// The process of a number, if it is live.
    fn process(&self, process: usize) -> Option<&Process>
        ensures { option_copied result ≡ slot (world self.now).processes process };

    /// What a descriptor of a process leads to, if it is open.
    fn opened(&self, process: usize, fd: i32) -> Option<OpenDescriptor>
        ensures { result ≡ opened (world self.now) process fd };

    /// What a descriptor of a process leads to, if it is open. Any `usize` may be asked for.
    fn opened_at(&self, process: usize, fd: usize) -> Option<OpenDescriptor>
        ensures { result ≡ opened (world self.now) process (pos fd) };

    /// The length of a regular file, in bytes.
    fn length_of(&self, file: usize) -> usize
        ensures { result ≡ length (bytes_of (world self.now) file) };

    /// At most `count` bytes of a regular file from a position on; none at its end or past it. An error says that
    /// memory ran out.
    fn read_at(
        &self,
        alloc: Global,
        file: usize,
        start: usize,
        count: usize,
    ) -> Result<Content, AllocError>
        requires { count ≤ TRANSFER_MAX }
        ensures content { IfOk result (λ content. content ≡ bytes_at (bytes_of (world self.now) file) start count) }
        ensures within { length (bytes_of (world self.now) file) < 2 ^ 63 };

    /// The file of a name.
    fn file_of(&self, name: &[u8]) -> Option<usize>
        ensures { result ≡ file_of name.now (world self.now).names };

    /// The FIFO of a number, if one stands there.
    fn fifo_at(&self, file: usize) -> Option<Fifo>
        ensures { result ≡ fifo_at (slot (world self.now).files file) };

    /// How many names a file has.
    fn links(&self, file: usize) -> usize
        ensures { result ≡ links (world self.now).names file };

    /// How many bytes a pipe holds now.
    fn held_in(&self, pipe: usize) -> usize
        ensures { result ≡ held_in (world self.now) pipe };

    /// A copy of the first bytes that a pipe holds, at most so many. An error says that memory ran out.
    fn peek(&self, alloc: Global, pipe: usize, count: usize) -> Result<Content, AllocError>
        requires { count ≤ TRANSFER_MAX }
        ensures { IfOk result (λ content. content ≡ take count (held_bytes (world self.now) pipe)) };

    /// Whether a reading end of a pipe is open.
    fn has_reader(&self, pipe: usize) -> bool
        ensures { result ≡ has_reader (world self.now) pipe };

    /// Whether a writing end of a pipe is open.
    fn has_writer(&self, pipe: usize) -> bool
        ensures { result ≡ has_writer (world self.now) pipe };

    /// How many names there are.
    fn name_count(&self) -> usize
        ensures { result ≡ length (world self.now).names };

    /// How many open file descriptions are live.
    fn live_descriptions(&self) -> usize
        ensures { result ≡ live (world self.now).descriptions };

    /// How many processes are live.
    fn live_processes(&self) -> usize
        ensures { result ≡ live (world self.now).processes };

    /// The number of the next file.
    fn next_file(&self) -> usize
        ensures { result ≡ length (world self.now).files };

    /// The number of the next pipe.
    fn next_pipe(&self) -> usize
        ensures { result ≡ length (world self.now).pipes };

    /// The number of the next process.
    fn next_process(&self) -> usize
        ensures { result ≡ length (world self.now).processes };

    /// Whether the run is closed.
    fn is_closed(&self) -> bool
        ensures { result ≡ (world self.now).closed };

    /// Whether a process is live and attached.
    #[inline(always)]
    fn is_here(&self, process: usize) -> bool
        ensures { result ≡ is_here (slot (world self.now).processes process) }
    {
        match self.process(process) {
            Some(process) => process.attached,
            None => false,
        }
    }

    /// Whether a process is live and has no connection yet.
    #[inline(always)]
    fn awaits(&self, process: usize) -> bool
        ensures { result ≡ awaits (slot (world self.now).processes process) }
    {
        match self.process(process) {
            Some(process) => !process.attached,
            None => false,
        }
    }

    /// The call that a process waits in.
    #[inline(always)]
    fn parked(&self, process: usize) -> Option<&Parked>
        ensures { option_copied result ≡ parked_of (slot (world self.now).processes process) }
    {
        match self.process(process) {
            Some(process) => process.parked.as_ref(),
            None => None,
        }
    }

    /// The lowest free descriptor of a process (XSH 2.14, File Descriptor Allocation).
    fn lowest_free(&self, process: usize) -> Option<usize>
        ensures { result ≡ lowest (table_of (slot (world self.now).processes process)) }
    {
        match self.process(process) {
            Some(process) => process.table.lowest_free(),
            None => None,
        }
    }

    /// The two lowest free descriptors of a process (page of pipe).
    fn two_lowest_free(&self, process: usize) -> Option<(usize, usize)>
        ensures exact { result ≡ two_lowest (table_of (slot (world self.now).processes process)) }
        ensures within { IfSome result (λ fds. (fds.0 < OPEN_MAX) × (fds.1 < OPEN_MAX)) }
    {
        match self.process(process) {
            Some(process) => process.table.two_lowest_free(),
            None => None,
        }
    }

    /// A copy of the descriptors of a process (page of fork); of one that is not live none is open. An error says that
    /// memory ran out.
    fn copied_table(&self, alloc: Global, process: usize) -> Result<DescriptorTable, AllocError>
        ensures { IfOk result (λ table. table ≡ copied_table (slot (world self.now).processes process)) }
    {
        match self.process(process) {
            Some(parent) => parent.table.clone(),
            None => DescriptorTable::free(alloc),
        }
    }
}

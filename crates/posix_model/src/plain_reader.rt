//! The plain world can be read as itself.

ghost use Rattle.std.specs.Prelude.{◌≡◌, option_copied};
ghost use Rattle.slots.specs.Slots.{slot};
ghost use Rattle.posix_model.specs.Descriptors.{opened_number};
ghost use Rattle.process_table.specs.Processes.{table_of};
ghost use Rattle.posix_model.specs.Pipes.{held_bytes};

use crate::counts::{links, readers, writers};
use crate::opened::OpenDescriptor;
use crate::reader::WorldReader;
use crate::world::{Fifo, File, World};
use call_types::bounded::Content;
use process_table::process::Process;
use slots::dense::Slots;
use slots::ticket::Ticket;
use std::alloc::{AllocError, Global};

/// The number of the description that a descriptor of a process refers to, if it is open.
fn entry_of(processes: &Slots<Process>, process: usize, fd: usize) -> Option<&Ticket>
    ensures { option_copied result ≡ slot (table_of (slot processes.now process)) fd }
{
    match processes.get(process) {
        Some(process) => process.table.get(fd),
        None => None,
    }
}

/// What a descriptor refers to, by the number of its description.
fn opened_number(world: &World, fd: usize, number: Option<&Ticket>) -> Option<OpenDescriptor>
    ensures { result ≡ opened_number world.now fd (option_copied number.entry) }
{
    let number = number?;
    let description = *world.descriptions.get(number.number())?;
    Some(OpenDescriptor {
        fd,
        number: number.again(),
        description,
    })
}

/// The bytes that a pipe holds; none where it is gone.
pub fn held_bytes(world: &World, pipe: usize) -> &[u8]
    ensures { result.now ≡ held_bytes world.now pipe }
{
    match world.pipes.get(pipe) {
        Some(contents) => contents.as_slice(),
        None => &[],
    }
}

impl WorldReader for World {
    ghost world = { λ w. w };

    fn process(&self, process: usize) -> Option<&Process> {
        self.processes.get(process)
    }

    fn opened(&self, process: usize, fd: i32) -> Option<OpenDescriptor> {
        if fd < 0 {
            return None;
        }
        self.opened_at(process, fd as usize)
    }

    fn opened_at(&self, process: usize, fd: usize) -> Option<OpenDescriptor> {
        opened_number(self, fd, entry_of(&self.processes, process, fd))
    }

    fn length_of(&self, file: usize) -> usize {
        match self.files.get(file) {
            Some(File::Regular(runs)) => runs.len(),
            _ => 0,
        }
    }

    fn read_at(
        &self,
        alloc: Global,
        file: usize,
        start: usize,
        count: usize,
    ) -> Result<Content, AllocError> {
        match self.files.get(file) {
            Some(File::Regular(runs)) => runs.read_at(alloc, start, count),
            _ => Ok(Content::empty()),
        }
    }

    fn file_of(&self, name: &[u8]) -> Option<usize> {
        self.names.file_of(name)
    }

    fn fifo_at(&self, file: usize) -> Option<Fifo> {
        match self.files.get(file) {
            Some(File::Fifo(fifo)) => Some(*fifo),
            _ => None,
        }
    }

    fn links(&self, file: usize) -> usize {
        links(self.names.entries(), file)
    }

    fn held_in(&self, pipe: usize) -> usize {
        held_bytes(self, pipe).len()
    }

    fn peek(&self, alloc: Global, pipe: usize, count: usize) -> Result<Content, AllocError> {
        Content::copied(
            alloc,
            crate::contents::bytes_at(held_bytes(self, pipe), 0, count),
        )
    }

    fn has_reader(&self, pipe: usize) -> bool {
        readers(&self.descriptions, pipe) > 0
    }

    fn has_writer(&self, pipe: usize) -> bool {
        writers(&self.descriptions, pipe) > 0
    }

    fn name_count(&self) -> usize {
        self.names.len()
    }

    fn live_descriptions(&self) -> usize {
        self.descriptions.live()
    }

    fn live_processes(&self) -> usize {
        self.processes.live()
    }

    fn next_file(&self) -> usize {
        self.files.len()
    }

    fn next_pipe(&self) -> usize {
        self.pipes.len()
    }

    fn next_process(&self) -> usize {
        self.processes.len()
    }

    fn is_closed(&self) -> bool {
        self.closed
    }
}

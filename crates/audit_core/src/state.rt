//! The state of an audit, read as a world.

use call_types::bounded::Content;
use machine_state::machine::Machine;
use posix_model::opened::OpenDescriptor;
use posix_model::reader::WorldReader;
use posix_model::world::Fifo;
use process_table::process::Process;
use std::alloc::{AllocError, Global};

/// The machine of an audit, as a type of its own. Calls are compiled once for each type of state that they read, so
/// here and in a recorded run each of them has one caller and is inlined.
#[derive(Drop)]
pub(crate) struct Audited {
    pub(crate) machine: Machine,
}

impl WorldReader for Audited {
    ghost world = { λ a. a.machine.world };

    #[inline(always)]
    fn process(&self, process: usize) -> Option<&Process> {
        self.machine.process(process)
    }

    #[inline(always)]
    fn opened(&self, process: usize, fd: i32) -> Option<OpenDescriptor> {
        self.machine.opened(process, fd)
    }

    #[inline(always)]
    fn opened_at(&self, process: usize, fd: usize) -> Option<OpenDescriptor> {
        self.machine.opened_at(process, fd)
    }

    fn length_of(&self, file: usize) -> usize {
        self.machine.length_of(file)
    }

    fn read_at(
        &self,
        alloc: Global,
        file: usize,
        start: usize,
        count: usize,
    ) -> Result<Content, AllocError> {
        self.machine.read_at(alloc, file, start, count)
    }

    fn file_of(&self, name: &[u8]) -> Option<usize> {
        self.machine.file_of(name)
    }

    fn fifo_at(&self, file: usize) -> Option<Fifo> {
        self.machine.fifo_at(file)
    }

    fn links(&self, file: usize) -> usize {
        self.machine.links(file)
    }

    fn held_in(&self, pipe: usize) -> usize {
        self.machine.held_in(pipe)
    }

    fn peek(&self, alloc: Global, pipe: usize, count: usize) -> Result<Content, AllocError> {
        self.machine.peek(alloc, pipe, count)
    }

    fn has_reader(&self, pipe: usize) -> bool {
        self.machine.has_reader(pipe)
    }

    fn has_writer(&self, pipe: usize) -> bool {
        self.machine.has_writer(pipe)
    }

    fn name_count(&self) -> usize {
        self.machine.name_count()
    }

    fn live_descriptions(&self) -> usize {
        self.machine.live_descriptions()
    }

    fn live_processes(&self) -> usize {
        self.machine.live_processes()
    }

    fn next_file(&self) -> usize {
        self.machine.next_file()
    }

    fn next_pipe(&self) -> usize {
        self.machine.next_pipe()
    }

    fn next_process(&self) -> usize {
        self.machine.next_process()
    }

    fn is_closed(&self) -> bool {
        self.machine.is_closed()
    }
}

use crate::machine::Machine;
use call_types::bounded::Content;
use posix_model::opened::OpenDescriptor;
use posix_model::reader::WorldReader;
use posix_model::world::Fifo;
use process_table::process::Process;
use std::alloc::{AllocError, Global};

impl WorldReader for Machine {
    ghost world = { λ m. m.world };

    #[inline(always)]
    fn process(&self, process: usize) -> Option<&Process> {
        self.processes.get(process)
    }

    #[inline(always)]
    fn opened(&self, process: usize, fd: i32) -> Option<OpenDescriptor> {
        let fd = usize::try_from(fd).ok()?;
        self.opened_at(process, fd)
    }

    #[inline(always)]
    fn opened_at(&self, process: usize, fd: usize) -> Option<OpenDescriptor> {
        let ticket = self.processes.descriptor(process, fd)?;
        let description = *self.descriptions.get(ticket)?;
        Some(OpenDescriptor {
            fd,
            number: ticket.again(),
            description,
        })
    }

    fn length_of(&self, file: usize) -> usize {
        match self.files.extents(file) {
            Some(bytes) => bytes.len(),
            None => 0,
        }
    }

    fn read_at(
        &self,
        alloc: Global,
        file: usize,
        start: usize,
        count: usize,
    ) -> Result<Content, AllocError> {
        match self.files.extents(file) {
            Some(bytes) => bytes.content_at(alloc, start, count),
            None => Ok(Content::empty()),
        }
    }

    fn file_of(&self, name: &[u8]) -> Option<usize> {
        self.names.find(name)
    }

    fn fifo_at(&self, file: usize) -> Option<Fifo> {
        self.files.fifo_at(file)
    }

    fn links(&self, file: usize) -> usize {
        self.files.links(file)
    }

    fn held_in(&self, pipe: usize) -> usize {
        self.pipes.held_in(pipe)
    }

    fn peek(&self, alloc: Global, pipe: usize, count: usize) -> Result<Content, AllocError> {
        self.pipes.peek(alloc, pipe, count)
    }

    fn has_reader(&self, pipe: usize) -> bool {
        self.readers(pipe) > 0
    }

    fn has_writer(&self, pipe: usize) -> bool {
        self.writers(pipe) > 0
    }

    fn name_count(&self) -> usize {
        self.names.len()
    }

    fn live_descriptions(&self) -> usize {
        self.descriptions.live()
    }

    fn live_processes(&self) -> usize {
        self.processes.live()
    }

    fn next_file(&self) -> usize {
        self.files.next()
    }

    fn next_pipe(&self) -> usize {
        self.pipes.next()
    }

    fn next_process(&self) -> usize {
        self.processes.next()
    }

    fn is_closed(&self) -> bool {
        self.closed
    }
}

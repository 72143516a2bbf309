//! The processes whose connections are lost.

ghost use Rattle.std.specs.Prelude.{◌≡◌, ◌<◌, ◌≤◌, ◌∷◌, ◌++◌, [], IfOk, vec_capacity, vec_len};
ghost use Rattle.call_types.specs.declared.limits.TheConstants.{PROCESSES_MAX};
ghost use Rattle.system_lock.specs.System.{is_live_in, is_among};
ghost use Rattle.system_lock.specs.Proved.Events.{still_lost};

use byte_ledger::ledgers::Ledgers;
use call_types::limits::PROCESSES_MAX;
use posix_model::reader::WorldReader;
use record_book::book::Book;
use std::alloc::{AllocError, Global};

/// The processes whose connections are lost, in the order in which they were. There is room for as many as can be live at once.
#[derive(Drop)]
pub(crate) struct Lost {
    pub(crate) processes: Vec<u32>,
    ghost room: { PROCESSES_MAX ≤ vec_capacity processes },
}

/// Whether a process is live.
pub(crate) fn is_live<L: Ledgers>(book: &Book<L>, process: u32) -> bool
    ensures { result ≡ is_live_in book.now process }
{
    book.machine().process(process as usize).is_some()
}

impl Lost {
    /// No process yet.
    pub(crate) fn new(alloc: Global) -> Result<Self, AllocError>
        ensures { IfOk result (λ lost. lost.processes.items ≡ []) }
    {
        Ok(Lost {
            processes: Vec::with_capacity(alloc, PROCESSES_MAX)?,
        })
    }

    /// Whether the connection of a process is lost.
    pub(crate) fn has(&self, process: u32) -> bool
        ensures { result ≡ is_among self.now.processes.items process }
    {
        self.processes.contains(&process)
    }

    /// Marks one process more. It takes no memory.
    pub(crate) fn mark(&mut self, process: u32)
        requires few { vec_len self.old.processes < PROCESSES_MAX }
        ensures { self.new.processes.items ≡ self.old.processes.items ++ process ∷ [] }
    {
        self.processes.push_reserved(process);
    }

    /// Takes those out that have ended.
    pub(crate) fn forget_ended<L: Ledgers>(&mut self, book: &Book<L>)
        ensures { self.new.processes.items ≡ still_lost book.now self.old.processes.items }
    {
        self.processes.retain(|process| is_live(book, *process));
    }
}

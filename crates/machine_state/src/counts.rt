//! The counts of a machine, told as they are stored. Each of them is the one that the model takes afresh, of all that refers to a thing.

ghost use Rattle.std.specs.Prelude.{◌≡◌};
ghost use Rattle.posix_model.specs.Counts.{refs, holders, readers, writers};

use crate::machine::Machine;
use slots::ticket::Ticket;

impl Machine {
    /// How many descriptors refer to an open file description; none where it is gone.
    pub fn references(&self, description: &Ticket) -> usize
        ensures { result ≡ refs self.now.world.processes description.now }
    {
        self.descriptions.references(description)
    }

    /// How many open file descriptions hold a file; none where it is gone: its uses that are not names.
    pub fn holders(&self, file: usize) -> usize
        ensures { result ≡ holders self.now.world.descriptions file }
    {
        self.files.uses(file) - self.files.links(file)
    }

    /// How many open ends of a pipe can read; none where it is gone (page of read).
    #[inline(always)]
    pub fn readers(&self, pipe: usize) -> usize
        ensures { result ≡ readers self.now.world.descriptions pipe }
    {
        self.pipes.readers(pipe)
    }

    /// How many open ends of a pipe can write; none where it is gone (page of write).
    #[inline(always)]
    pub fn writers(&self, pipe: usize) -> usize
        ensures { result ≡ writers self.now.world.descriptions pipe }
    {
        self.pipes.writers(pipe)
    }
}

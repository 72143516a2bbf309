//! What wakes the threads whose processes sleep.

ghost use Rattle.std.specs.Prelude.{◌≡◌, vec_len};

use std::alloc::{AllocError, Global};
use std::sync::Condvar;

/// One bell for each process that can be live at once (PROCESSES_MAX).
const BELLS: usize = 64;

/// Bells, of which each process has one: those whose numbers differ by a multiple of 64 share it.
#[derive(Drop)]
pub(crate) struct Bells {
    bells: Vec<Condvar>,
    ghost all: { vec_len bells ≡ 64 },
}

impl Bells {
    /// Bells that nobody waits for.
    pub(crate) fn new(alloc: Global) -> Result<Self, AllocError> {
        let mut bells = Vec::with_capacity(alloc, BELLS)?;
        for _bell in 0..BELLS {
            bells.push_reserved(Condvar::new());
        }
        Ok(Bells { bells })
    }

    /// The bell of a process.
    pub(crate) fn of(&self, process: u32) -> &Condvar {
        &self.bells[process as usize % BELLS]
    }
}

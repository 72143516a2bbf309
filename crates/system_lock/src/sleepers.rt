//! The processes that sleep.

ghost use Rattle.std.specs.Prelude.{◌≡◌, ℕ, ◌==◌, ◌<◌, ◌≤◌, ◌∷◌, ◌++◌, [], Option, map, position, vec_len, vec_capacity, IfOk};
ghost use Rattle.call_types.specs.declared.limits.TheConstants.{PROCESSES_MAX};
ghost use Rattle.system_lock.specs.System.{AreDistinct, is_among};
ghost use Rattle.system_lock.specs.Proved.Sleeping.{without};

use crate::bells::Bells;
use call_types::limits::PROCESSES_MAX;
use std::alloc::{AllocError, Global};

/// The processes that sleep until the call that they wait in is ready; and the pipe on which the call of each waits, in the same order.
/// There is room for as many as can be live at once.
#[derive(Drop)]
pub(crate) struct Sleepers {
    pub(crate) asleep: Vec<u32>,
    pub(crate) pipes: Vec<Option<usize>>,
    ghost room: { PROCESSES_MAX ≤ vec_capacity asleep },
    ghost room_for_pipes: { PROCESSES_MAX ≤ vec_capacity pipes },
}

impl Sleepers {
    /// Nobody sleeps.
    pub(crate) fn new(alloc: Global) -> Result<Self, AllocError>
        ensures asleep { IfOk result (λ sleepers. sleepers.asleep.items ≡ []) }
        ensures pipes { IfOk result (λ sleepers. sleepers.pipes.items ≡ []) }
    {
        Ok(Sleepers {
            asleep: Vec::with_capacity(alloc, PROCESSES_MAX)?,
            pipes: Vec::with_capacity(alloc, PROCESSES_MAX)?,
        })
    }

    /// Whether a process sleeps.
    pub(crate) fn has(&self, process: u32) -> bool
        ensures { result ≡ is_among self.now.asleep.items process }
    {
        self.asleep.contains(&process)
    }

    /// Puts a process among those that sleep, whose call waits on this pipe. It takes no memory.
    pub(crate) fn fall_asleep(&mut self, process: u32, pipe: Option<usize>)
        requires few { vec_len self.old.asleep < PROCESSES_MAX }
        requires paired { vec_len self.old.pipes ≡ vec_len self.old.asleep }
        ensures asleep { self.new.asleep.items ≡ self.old.asleep.items ++ process ∷ [] }
        ensures pipes { self.new.pipes.items ≡ self.old.pipes.items ++ pipe ∷ [] }
    {
        self.asleep.push_reserved(process);
        self.pipes.push_reserved(pipe);
    }

    /// The place of a process among those that sleep.
    fn place_of(&self, process: u32) -> Option<usize>
        ensures { result ≡ position (λ other. other == process) self.now.asleep.items }
    {
        self.asleep.iter().position(|other| *other == process)
    }

    /// Takes a process out and wakes it, if it sleeps.
    pub(crate) fn take_out(&mut self, bells: &Bells, process: u32)
        requires distinct { AreDistinct self.old.asleep.items }
        requires paired { vec_len self.old.pipes ≡ vec_len self.old.asleep }
        ensures asleep { self.new.asleep.items ≡ without self.old.asleep.items process }
        ensures pipes { (f : ℕ → Option ℕ) → self.old.pipes.items ≡ map f self.old.asleep.items → self.new.pipes.items ≡ map f self.new.asleep.items }
    {
        if let Some(at) = self.place_of(process) {
            bells.of(process).notify_all();
            self.asleep.remove(at);
            self.pipes.remove(at);
        }
    }
}

ghost use Rattle.std.specs.Prelude.{◌≡◌, ◌+◌, ◌<◌, ◌≤◌, ◌∷◌, ◌++◌, [], Some, None, true, is_some, length, slice_set, option_copied, IfOk, IfSome, IfNone, OnOk, IsOk};
ghost use Rattle.slots.specs.Slots.{slot, live, edited};
ghost use Rattle.call_types.specs.declared.limits.TheConstants.{OPEN_MAX};
ghost use Rattle.process_table.specs.Tables.{IsNextOpen, IsFreeFrom};
ghost use Rattle.process_table.specs.Processes.{table_of, parked_of, with_entry, with_connection, with_parked, with_total};

use crate::process::{Parked, Process};
use crate::table::DescriptorTable;
use slots::keyed::Keyed;
use slots::ticket::Ticket;
use std::alloc::{AllocError, Global};
use std::marker::Model;

/// How many places there are for keys: many more than processes may be live, so that few of these share one.
const PLACES: usize = 1024;

/// In `places`: no live process has this entry.
const NOBODY: usize = usize::MAX;

/// The live processes. Contracts see a slot for each number that was ever given, and for how many more processes there is room.
#[derive(Drop)]
pub struct ProcessTable {
    processes: Keyed<Process>,
    // By a number modulo 1,024: the live process that has the place, and the key to look under first. A process that found its place
    // taken is looked for among all. What stands here costs time if it is wrong, and changes no answer.
    places: [(usize, usize); PLACES],
}

impl Model for ProcessTable {
    ghost use Rattle.std.specs.Prelude.{List, Option, ℕ};
    ghost use Rattle.process_table.specs.declared.process.Process.{Process as Processes};

    ghost Value = { List (Option Processes) × ℕ };

    ghost view = { λ table. table.processes };
}

impl ProcessTable {
    /// No process yet, and no number given.
    pub fn new(alloc: Global) -> Self
        ensures { result.0 ≡ [] }
    {
        ProcessTable {
            processes: Keyed::new(alloc),
            places: [(NOBODY, 0); PLACES],
        }
    }

    /// The number of the next process.
    pub fn next(&self) -> usize
        ensures { result ≡ length self.now.0 }
    {
        self.processes.next()
    }

    /// How many processes are live.
    pub fn live(&self) -> usize
        ensures { result ≡ live self.now.0 }
    {
        self.processes.live()
    }

    /// A number, with the key under which its process is looked for first.
    #[inline(always)]
    fn ticket(&self, process: usize) -> Ticket
        ensures { result ≡ process }
    {
        let (_owner, key) = self.places[process % PLACES];
        Ticket::new(process, key)
    }

    /// The process of a number, if it is live.
    #[inline(always)]
    pub fn get(&self, process: usize) -> Option<&Process>
        ensures { option_copied result ≡ slot self.now.0 process }
    {
        self.processes.get(&self.ticket(process))
    }

    /// The call that a process waits in.
    #[inline(always)]
    pub fn parked(&self, process: usize) -> Option<&Parked>
        ensures { option_copied result ≡ parked_of (slot self.now.0 process) }
    {
        match self.get(process) {
            Some(process) => process.parked.as_ref(),
            None => None,
        }
    }

    /// What a descriptor of a process refers to, if it is open.
    #[inline(always)]
    pub fn descriptor(&self, process: usize, fd: usize) -> Option<&Ticket>
        ensures { option_copied result ≡ slot (table_of (slot self.now.0 process)) fd }
    {
        match self.get(process) {
            Some(process) => process.table.get(fd),
            None => None,
        }
    }

    /// The least descriptor of a process from a number on that is open.
    pub fn next_open(&self, process: usize, from: usize) -> Option<usize>
        ensures least { IfSome result (IsNextOpen (table_of (slot self.now.0 process)) from) }
        ensures none { IfNone result (IsFreeFrom (table_of (slot self.now.0 process)) from) }
        ensures within { IfSome result (λ fd. fd < OPEN_MAX) }
    {
        match self.get(process) {
            Some(process) => process.table.next_open(from),
            None => None,
        }
    }

    /// Makes room for one more process; an error says that memory or numbers ran out.
    pub fn reserve(&mut self) -> Result<(), AllocError>
        ensures slots { self.new.0 ≡ self.old.0 }
        ensures room { OnOk result (0 < self.new.1) }
        ensures kept { self.old.1 ≤ self.new.1 }
        ensures succeeds { 0 < self.old.1 → IsOk result }
    {
        self.processes.reserve()
    }

    /// Gives the next number to a process, for which there is room.
    pub fn add(&mut self, process: Process)
        requires { 0 < self.old.1 }
        ensures slots { self.new.0 ≡ self.old.0 ++ Some process ∷ [] }
        ensures room { self.new.1 + 1 ≡ self.old.1 }
    {
        let ticket = self.processes.push(process);
        let place = ticket.number() % PLACES;
        if self.places[place].0 == NOBODY {
            self.places[place] = (ticket.number(), ticket.key());
        }
    }

    /// Lets a descriptor of a live process refer to a description, or frees it; what it referred to before.
    pub fn set_fd(&mut self, process: usize, fd: usize, entry: Option<Ticket>) -> Option<Ticket>
        requires { is_some (slot self.old.0 process) ≡ true }
        ensures slots { self.new.0 ≡ edited process (with_entry fd entry) self.old.0 }
        ensures room { self.new.1 ≡ self.old.1 }
        ensures old { result ≡ slot (table_of (slot self.old.0 process)) fd }
    {
        let ticket = self.ticket(process);
        self.processes.value_mut(&ticket).table.replace(fd, entry)
    }

    /// Marks a live process as connected.
    pub fn attach(&mut self, process: usize)
        requires { is_some (slot self.old.0 process) ≡ true }
        ensures slots { self.new.0 ≡ edited process with_connection self.old.0 }
        ensures room { self.new.1 ≡ self.old.1 }
    {
        let ticket = self.ticket(process);
        self.processes.value_mut(&ticket).attached = true;
    }

    /// Lets a live process wait in a call.
    pub fn park(&mut self, process: usize, parked: Parked)
        requires { is_some (slot self.old.0 process) ≡ true }
        ensures slots { self.new.0 ≡ edited process (with_parked (Some parked)) self.old.0 }
        ensures room { self.new.1 ≡ self.old.1 }
    {
        let ticket = self.ticket(process);
        self.processes.value_mut(&ticket).parked = Some(parked);
    }

    /// The call that a live process waits in, if it waits in one, has moved so many bytes in all.
    pub fn set_moved(&mut self, process: usize, moved: u32)
        requires { is_some (slot self.old.0 process) ≡ true }
        ensures slots { self.new.0 ≡ edited process (with_total moved) self.old.0 }
        ensures room { self.new.1 ≡ self.old.1 }
    {
        let ticket = self.ticket(process);
        if let Some(parked) = &mut self.processes.value_mut(&ticket).parked {
            parked.moved = moved;
        }
    }

    /// Ends the wait of a live process.
    pub fn unpark(&mut self, process: usize)
        requires { is_some (slot self.old.0 process) ≡ true }
        ensures slots { self.new.0 ≡ edited process (with_parked None) self.old.0 }
        ensures room { self.new.1 ≡ self.old.1 }
    {
        let ticket = self.ticket(process);
        self.processes.value_mut(&ticket).parked = None;
    }

    /// Removes a process; its number is not given again. It does nothing if the process is gone.
    pub fn remove(&mut self, process: usize)
        ensures slots { self.new.0 ≡ slice_set self.old.0 process None }
        ensures room { self.old.1 ≤ self.new.1 }
        ensures most { self.new.1 ≤ self.old.1 + 1 }
    {
        let ticket = self.ticket(process);
        self.processes.remove(&ticket);
        let place = process % PLACES;
        if self.places[place].0 == process {
            self.places[place] = (NOBODY, 0);
        }
    }
}

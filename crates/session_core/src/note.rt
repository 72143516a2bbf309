//! What the two threads of a session tell each other.

ghost use Rattle.std.specs.Prelude.{◌≡◌};

use std::marker::Model;
use std::sync::{Condvar, Mutex, Wait};
use std::thread::Parker;

/// What is known of the process of a session.
#[derive(Clone, Copy, Debug, PartialEq, Eq)]
enum Process {
    Unknown,
    Opened(u32),
    /// There is none, and there will be none as long as the thread that reads goes on.
    None,
}

/// The process of a session, once it is known whether there is one. Only a note gives it. Contracts see the number, if there is one.
#[derive(Drop)]
pub struct KnownProcess {
    process: Option<u32>,
}

impl Model for KnownProcess {
    ghost use Rattle.std.specs.Prelude.{ℕ, Option};

    ghost Value = { Option ℕ };

    ghost view = { λ k. k.process };
}

impl KnownProcess {
    /// The number of the process, if there is one.
    pub fn number(&self) -> Option<u32>
        ensures { result ≡ self.now }
    {
        self.process
    }
}

/// What stands in a note.
#[derive(Drop)]
struct Lines {
    read_ended: bool,
    process: Process,
}

/// Whether the thread that reads has ended, and which process the session has; and where the thread that answers sleeps.
#[derive(Drop)]
pub struct Note {
    lines: Mutex<Lines>,
    changed: Condvar,
    bed: Parker,
}

impl Note {
    /// Nothing is known yet.
    pub fn new() -> Self {
        Note {
            lines: Mutex::new(Lines {
                read_ended: false,
                process: Process::Unknown,
            }),
            changed: Condvar::new(),
            bed: Parker::new(),
        }
    }

    /// Tells that no more is read, and wakes the thread that answers.
    pub fn end_reading<R: Wait>(&self, rt: &R) {
        self.lines.lock(rt).read_ended = true;
        self.wake();
    }

    /// Whether no more is read.
    pub(crate) fn has_ended<R: Wait>(&self, rt: &R) -> bool {
        self.lines.lock(rt).read_ended
    }

    /// Tells that this process was opened.
    pub(crate) fn opened<R: Wait>(&self, rt: &R, process: u32) {
        self.lines.lock(rt).process = Process::Opened(process);
        self.changed.notify_all();
    }

    /// Tells that there is no process, unless one was opened.
    pub(crate) fn none_opened<R: Wait>(&self, rt: &R) {
        let mut lines = self.lines.lock(rt);
        if lines.process == Process::Unknown {
            lines.process = Process::None;
        }
        self.changed.notify_all();
    }

    /// Waits until it is known whether there is a process.
    pub fn process<R: Wait>(&self, rt: &R) -> KnownProcess {
        let lines = self.changed.wait_while(rt, self.lines.lock(rt), |lines| {
            lines.process == Process::Unknown
        });
        let process = match lines.process {
            Process::Opened(process) => Some(process),
            Process::Unknown | Process::None => None,
        };
        KnownProcess { process }
    }

    /// Wakes the thread that answers, now or as soon as it sleeps.
    pub fn wake(&self) {
        self.bed.unpark();
    }

    /// Sleeps until it is woken; it may also wake up for no reason.
    pub(crate) fn sleep<R: Wait>(&self, rt: &R) {
        self.bed.park(rt);
    }
}

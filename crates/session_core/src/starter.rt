//! What starts the threads of sessions.

ghost use Rattle.std.specs.Prelude.{◌≡◌, IfOk, OnErr, OnOk};
ghost use Rattle.logged_streams.specs.Streams.{one_more};

use std::marker::Model;
use std::thread;
use std::thread::{Promise, PromisedHandle, Threads};

/// No thread could be started.
#[derive(Clone, Copy, Debug, PartialEq, Eq)]
pub struct StartFailed;

/// The system could not start a thread. Nothing but `start` makes one.
#[derive(Drop)]
pub struct Refused {
    made_here: (),
}

/// What decides whether a thread is started, and counts those that could not be.
pub trait Starter: Sized {
    ghost use Rattle.std.specs.Prelude.{ℕ, true, false};
    ghost use Rattle.session_core.specs.Starting.{added};

    /// How many threads could not be started; the greatest number stands for that many or more.
    ghost failures: { Self → ℕ };

    /// Whether the system is asked for one more thread. A thread for which it is not counts as one that could not be started.
    fn asks(&mut self) -> bool
        ensures asked { result ≡ true → failures self.new ≡ failures self.old }
        ensures kept_back { result ≡ false → failures self.new ≡ one_more (failures self.old) };

    /// Counts a thread that the system could not start.
    fn count(&mut self, refused: Refused)
        ensures { failures self.new ≡ one_more (failures self.old) };

    /// Another starter of the same kind, which has failed at nothing yet.
    fn another(&self) -> Self
        ensures { failures result ≡ 0 };

    /// Counts the failures of another as its own.
    fn absorb(&mut self, other: Self)
        ensures { failures self.new ≡ added (failures self.old) (failures other) };
}

/// Starts a thread, which keeps its promise where it returns.
pub fn start<
    Rt: Threads,
    S: Starter,
    T: Send + Drop + 'static,
    P: Promise<T> + Drop,
    F: FnOnce() -> T + Send + 'static,
>(rt: &Rt, starter: &mut S, promise: P, run: F) -> Result<PromisedHandle<T, P>, StartFailed>
    requires runs { F.pre run }
    requires keeps { (r : T) → F.post run r → P.kept_by promise r }
    ensures ok { IfOk result (λ thread. thread.promise ≡ promise) }
    ensures started { OnOk result (S.failures starter.new ≡ S.failures starter.old) }
    ensures refused { OnErr result (S.failures starter.new ≡ one_more (S.failures starter.old)) }
{
    if !starter.asks() {
        return Err(StartFailed);
    }
    match thread::spawn_with(rt, promise, run) {
        Ok(thread) => Ok(thread),
        Err(_) => {
            starter.count(Refused { made_here: () });
            Err(StartFailed)
        }
    }
}

/// Asks the system for each thread. Contracts see how many could not be started.
#[derive(Drop)]
pub struct SystemThreads {
    failures: u64,
}

impl Model for SystemThreads {
    ghost use Rattle.std.specs.Prelude.{ℕ};

    ghost Value = { ℕ };

    ghost view = { λ s. s.failures };
}

impl SystemThreads {
    /// No thread was started yet.
    pub fn new() -> Self
        ensures { result ≡ 0 }
    {
        SystemThreads { failures: 0 }
    }
}

impl Starter for SystemThreads {
    ghost failures = { λ s. s };

    fn asks(&mut self) -> bool {
        true
    }

    fn count(&mut self, _refused: Refused) {
        self.failures = self.failures.saturating_add(1);
    }

    fn another(&self) -> Self {
        SystemThreads::new()
    }

    fn absorb(&mut self, other: Self) {
        self.failures = self.failures.saturating_add(other.failures);
    }
}

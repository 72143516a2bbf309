//! A gate that holds one answer back.

use session_core::gate::Gate;
use std::sync::atomic::{AtomicBool, Ordering};
use std::thread;
use std::time::{Clock, Duration};

/// How long it waits before it is asked again for an answer that it held back, in microseconds. A session asks a thousand times, so
/// the other one has a tenth of a second at least.
const PAUSE: u64 = 100;

/// It lets the answer at place 0 through once an answer of the other session was let through, and all others at once.
#[derive(Drop)]
pub(crate) struct OthersFirst<Rt: Clock + Drop> {
    clock: Rt,
    /// Whether an answer of session 0 was let through.
    first: AtomicBool,
    /// Whether one of the other session was.
    other: AtomicBool,
}

impl<Rt: Clock + Drop> OthersFirst<Rt> {
    pub(crate) fn new(clock: Rt) -> Self {
        OthersFirst {
            clock,
            first: AtomicBool::new(false),
            other: AtomicBool::new(false),
        }
    }

    /// The marks of a session and of the other one: whether an answer of it was let through.
    fn own_and_other(&self, session: u64) -> (&AtomicBool, &AtomicBool) {
        match session {
            0 => (&self.first, &self.other),
            _ => (&self.other, &self.first),
        }
    }
}

impl<Rt: Clock + Drop> Gate for OthersFirst<Rt> {
    ghost use Rattle.std.specs.Prelude.{false};

    ghost is_open = { false };

    ghost said = { λ _ _ _. Unit {0} };

    fn may_write(&self, session: u64, place: u64) -> bool {
        let (own, other) = self.own_and_other(session);
        if place == 0 && !other.load(Ordering::SeqCst) {
            thread::sleep(&self.clock, Duration::from_micros(PAUSE));
            return false;
        }
        own.store(true, Ordering::SeqCst);
        true
    }

    fn is_always_open(&self) -> bool {
        false
    }
}

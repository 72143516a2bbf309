ghost use Rattle.std.specs.Prelude.{◌≡◌};
ghost use Rattle.call_types.specs.declared.refusal.Refusal.TheVariants.{NoMemory};

use std::alloc::AllocError;

/// Why nothing was recorded. Machine and history are as they were. The number is the byte of the refusal in an answer.
#[derive(Clone, Copy, Debug, PartialEq, Eq)]
pub enum Refusal {
    /// Memory ran out (17).
    NoMemory,
    /// The record would leave too few for the exits and the closing (18).
    RunFull,
    /// The process has a parked call (19).
    Waiting,
    /// The seat's process is not live and attached (20).
    NotHere,
    /// The seat has seen more records than this book holds (21).
    Foreign { seen: u64, len: u64 },
}

impl From<AllocError> for Refusal {
    ghost from_gives = { λ _ refusal. refusal ≡ NoMemory };

    fn from(_error: AllocError) -> Refusal {
        Refusal::NoMemory
    }
}

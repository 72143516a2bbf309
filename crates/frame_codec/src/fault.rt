//! Why a payload is not read, or a frame not written.

ghost use Rattle.std.specs.Prelude.{◌≡◌};

use std::alloc::AllocError;

/// Why a payload isn't read.
#[derive(Clone, Copy, Debug, PartialEq, Eq)]
pub enum PayloadFault {
    /// The payload spells no value of its kind.
    Malformed,
    /// Memory ran out.
    NoMemory,
}

impl From<AllocError> for PayloadFault {
    ghost use Rattle.frame_codec.specs.declared.fault.PayloadFault.TheVariants.{NoMemory};

    ghost from_gives = { λ _ e. e ≡ NoMemory };

    fn from(_fault: AllocError) -> PayloadFault {
        PayloadFault::NoMemory
    }
}

/// Why a value's frame isn't written.
#[derive(Clone, Copy, Debug, PartialEq, Eq)]
pub enum EncodeFault {
    /// No frame spells the value: a field is out of its range, or the frame would be longer than one may be.
    Unspellable,
    /// Memory ran out.
    NoMemory,
}

impl From<AllocError> for EncodeFault {
    ghost use Rattle.frame_codec.specs.declared.fault.EncodeFault.TheVariants.{NoMemory};

    ghost from_gives = { λ _ e. e ≡ NoMemory };

    fn from(_fault: AllocError) -> EncodeFault {
        EncodeFault::NoMemory
    }
}

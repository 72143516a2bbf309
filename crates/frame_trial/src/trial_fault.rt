//! How a trial fails.
use frame_codec::fault::EncodeFault;
use std::alloc::AllocError;
use std::fmt;

/// Why a trial has no lines.
#[derive(Clone, Copy, Debug, PartialEq, Eq)]
pub enum TrialFault {
    /// A piece was refused for want of memory, and so it was when it was given again.
    RefusedTwice,
    /// A value was read of which no frame can be written.
    Unspellable,
    /// The words are none that the program takes.
    Usage,
    /// The input failed.
    CannotRead,
    /// The output failed.
    CannotWrite,
    /// Memory was wanting to read the stream or to gather the lines.
    NoMemory,
}

impl TrialFault {
    /// The exit status of the program; 1 says that the decoder is at fault.
    pub fn status(self) -> u8 {
        match self {
            TrialFault::RefusedTwice | TrialFault::Unspellable => 1,
            TrialFault::Usage => 2,
            TrialFault::CannotRead | TrialFault::CannotWrite => 4,
            TrialFault::NoMemory => 5,
        }
    }
}

impl fmt::Display for TrialFault {
    fn fmt<W: fmt::Write>(&self, f: &mut fmt::Formatter<W>) -> fmt::Result {
        match self {
            TrialFault::RefusedTwice => f.write_str("a piece was refused twice\n"),
            TrialFault::Unspellable => f.write_str("a value has no frame\n"),
            TrialFault::Usage => f.write_str(
                "usage: frame_trial show|decode|encode requests|answers|records N M\n",
            ),
            TrialFault::CannotRead => f.write_str("cannot read\n"),
            TrialFault::CannotWrite => f.write_str("cannot write\n"),
            TrialFault::NoMemory => f.write_str("no memory\n"),
        }
    }
}

impl From<AllocError> for TrialFault {
    fn from(_error: AllocError) -> TrialFault {
        TrialFault::NoMemory
    }
}

impl From<EncodeFault> for TrialFault {
    fn from(fault: EncodeFault) -> TrialFault {
        match fault {
            EncodeFault::Unspellable => TrialFault::Unspellable,
            EncodeFault::NoMemory => TrialFault::NoMemory,
        }
    }
}

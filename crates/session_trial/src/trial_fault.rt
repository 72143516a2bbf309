//! How a trial fails.
use script_text::fault::ReadFault;
use std::alloc::AllocError;
use std::fmt;

/// Why a trial has no lines.
#[derive(Clone, Copy, Debug, PartialEq, Eq)]
pub enum TrialFault {
    /// The words are none that the program takes.
    Usage,
    /// The input failed.
    CannotRead,
    /// The output failed.
    CannotWrite,
    /// Memory was wanting to begin the run or to gather the lines.
    NoMemory,
}

impl TrialFault {
    /// The exit status of the program.
    pub fn status(self) -> u8 {
        match self {
            TrialFault::Usage => 2,
            TrialFault::CannotRead | TrialFault::CannotWrite => 4,
            TrialFault::NoMemory => 5,
        }
    }
}

impl fmt::Display for TrialFault {
    fn fmt<W: fmt::Write>(&self, f: &mut fmt::Formatter<W>) -> fmt::Result {
        match self {
            TrialFault::Usage => f.write_str(
                "usage: session_trial RECORDS KERNEL READS WRITES ACT..\n",
            ),
            TrialFault::CannotRead => f.write_str("cannot read\n"),
            TrialFault::CannotWrite => f.write_str("cannot write\n"),
            TrialFault::NoMemory => f.write_str("no memory\n"),
        }
    }
}

impl From<AllocError> for TrialFault {
    fn from(_error: AllocError) -> TrialFault {
        TrialFault::NoMemory
    }
}

impl From<ReadFault> for TrialFault {
    fn from(fault: ReadFault) -> TrialFault {
        match fault {
            ReadFault::BadLine { .. } => TrialFault::Usage,
            ReadFault::NoMemory => TrialFault::NoMemory,
        }
    }
}

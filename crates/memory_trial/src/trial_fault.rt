//! How a trial fails.
use script_text::fault::ScriptFault;
use std::alloc::AllocError;
use std::fmt;

/// Why a trial has no lines.
#[derive(Clone, Copy, Debug, PartialEq, Eq)]
pub enum TrialFault {
    /// An act, by its number from 1, for which memory was wanting changed something.
    Changed { act: u64 },
    /// An act was refused for want of memory, and so it was when it was given again.
    RefusedTwice { act: u64 },
    /// An exit or a closing was refused for want of memory, of which it takes none.
    EndRefused { act: u64 },
    /// An act was recorded, and its seat has no receipt of it.
    NoReceipt,
    /// The words are none that the program takes.
    Usage,
    /// A line of the script is no act, or it has too many bytes.
    BadScript,
    /// The input failed.
    CannotRead,
    /// The output failed.
    CannotWrite,
    /// Memory was wanting to read the script, to make the run or the book, or to gather the lines.
    NoMemory,
}

impl TrialFault {
    /// The exit status of the program; 1 says that the run or the book is at fault.
    pub fn status(self) -> u8 {
        match self {
            TrialFault::Changed { .. }
            | TrialFault::RefusedTwice { .. }
            | TrialFault::EndRefused { .. }
            | TrialFault::NoReceipt => 1,
            TrialFault::Usage => 2,
            TrialFault::BadScript => 3,
            TrialFault::CannotRead | TrialFault::CannotWrite => 4,
            TrialFault::NoMemory => 5,
        }
    }
}

impl fmt::Display for TrialFault {
    fn fmt<W: fmt::Write>(&self, f: &mut fmt::Formatter<W>) -> fmt::Result {
        match self {
            TrialFault::Changed { act } => write!(f, "act {act}: its refusal changed something\n"),
            TrialFault::RefusedTwice { act } => write!(f, "act {act}: refused twice\n"),
            TrialFault::EndRefused { act } => write!(f, "act {act}: an end is refused\n"),
            TrialFault::NoReceipt => f.write_str("no receipt\n"),
            TrialFault::Usage => f.write_str(
                "usage: memory_trial script|calls [RECORDS [CAPACITY]]\n",
            ),
            TrialFault::BadScript => f.write_str("not a script\n"),
            TrialFault::CannotRead => f.write_str("cannot read\n"),
            TrialFault::CannotWrite => f.write_str("cannot write\n"),
            TrialFault::NoMemory => f.write_str("no memory\n"),
        }
    }
}

impl From<AllocError> for TrialFault {
    fn from(_error: AllocError) -> TrialFault {
        TrialFault::NoMemory
    }
}

impl From<ScriptFault> for TrialFault {
    fn from(fault: ScriptFault) -> TrialFault {
        match fault {
            ScriptFault::BadLine { .. } | ScriptFault::TooLong => TrialFault::BadScript,
            ScriptFault::NoMemory => TrialFault::NoMemory,
        }
    }
}

//! How a trial fails.
use run_core::report::RunFault;
use std::alloc::AllocError;
use std::fmt;

/// Why a trial has no report.
#[derive(Clone, Copy, Debug, PartialEq, Eq)]
pub enum TrialFault {
    /// The words are none that the program takes.
    Usage,
    /// The output failed.
    CannotWrite,
    /// The run gave none; or memory was wanting to begin it.
    Run(RunFault),
}

impl TrialFault {
    /// The exit status of the program.
    pub fn status(self) -> u8 {
        match self {
            TrialFault::Usage => 2,
            TrialFault::CannotWrite => 4,
            TrialFault::Run(RunFault::NoMemory) => 5,
            TrialFault::Run(RunFault::NoThread) => 6,
            TrialFault::Run(RunFault::Missing) => 7,
            TrialFault::Run(RunFault::Disagree { .. }) => 8,
        }
    }
}

impl fmt::Display for TrialFault {
    fn fmt<W: fmt::Write>(&self, f: &mut fmt::Formatter<W>) -> fmt::Result {
        match self {
            TrialFault::Usage => f.write_str("usage: run_trial RECORDS\n"),
            TrialFault::CannotWrite => f.write_str("cannot write\n"),
            TrialFault::Run(fault) => write!(f, "{fault}\n"),
        }
    }
}

impl From<RunFault> for TrialFault {
    fn from(fault: RunFault) -> TrialFault {
        TrialFault::Run(fault)
    }
}

impl From<AllocError> for TrialFault {
    fn from(_error: AllocError) -> TrialFault {
        TrialFault::Run(RunFault::NoMemory)
    }
}

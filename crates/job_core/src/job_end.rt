//! How a job ends.
ghost use Rattle.std.specs.Prelude.{◌≡◌};
ghost use Rattle.job_core.specs.JobEnds.{ended_status};

use script_text::fault::{Expected, ScriptFault};
use std::alloc::AllocError;
use std::fmt;

/// Why a line of a race cannot stand where it does.
#[derive(Clone, Copy, Debug, PartialEq, Eq)]
pub enum Unfit {
    /// After the line `race` it is no call of a process, but a join, an attach or an exit.
    NoCall,
    /// Its process is not there, is not attached or waits in a call.
    Refused,
    /// Before the line `race` it is a call that waits.
    Waits,
    /// After the line `race` it is a call of a process that is not attached when the race begins.
    NotAttached,
}

impl fmt::Display for Unfit {
    ghost use Rattle.std.specs.Prelude.{Some};
    ghost use Rattle.job_core.specs.JobEnds.{unfit_text};

    ghost output = { λ why. Some (unfit_text why) };

    fn fmt<W: fmt::Write>(&self, f: &mut fmt::Formatter<W>) -> fmt::Result {
        f.write_str(match self {
            Unfit::NoCall => "not a call\nexpected a call of a process, as p0 read 0 5",
            Unfit::Refused =>
                "refused\nexpected an act that leaves a record: a join, an attach, or a call or exit of an attached process",
            Unfit::Waits => "waits\nexpected a call that comes back before the race",
            Unfit::NotAttached =>
                "not attached\nexpected a call of a process that is attached when the race begins",
        })
    }
}

/// How a job ended.
#[derive(Clone, Copy, Debug, PartialEq, Eq)]
pub enum JobEnd {
    /// All was done and written.
    Done,
    /// A line of the script is no act; line and column are counted from 1. Nothing was written.
    BadLine {
        line: usize,
        column: usize,
        expected: Expected,
    },
    /// The same of a line that ends in a carriage return, in place of what is expected.
    CarriageReturn {
        line: usize,
        column: usize,
    },
    /// The same of a comment or a string that stands in a plain script.
    NeedsText {
        line: usize,
        column: usize,
    },
    /// The same of a word in place of data that begins as a string and is none, or one of too many bytes.
    BadString {
        line: usize,
        column: usize,
    },
    /// The script has more than 16,777,216 bytes, as it is given or with digits in place of strings. Nothing was run or written.
    TooLong,
    /// The input failed, or could not be opened. Of a trace that is shown, lines may have been written, and of one that is
    /// migrated, bytes; else nothing was run or written.
    CannotRead,
    /// The output failed, or a file for a trace could not be made. A front of the right output was written, and nothing else.
    CannotWrite,
    /// Memory ran out. Of a trace that is shown, lines may have been written, and of one that is migrated, bytes; else nothing was.
    NoMemory,
    /// There is no socket to listen on, or accepting failed; the sessions before were served and reported.
    CannotListen,
    /// The trace is not whole, or may not last, since its sink or memory failed; the run was reported.
    TraceFault,
    /// A thread could not be started; the sessions before were served. They were reported where only the reader of one could not be.
    NoThread,
    /// Shares of some seats are missing, so nothing was reported.
    MissingShare,
    /// The receipts of the sessions, the records and those that the trace is of differ, at this place at the least, so nothing was reported.
    Disagree {
        place: u64,
    },
    /// A record of the trace is not what the model gives; the verdict was written.
    IllegalTrace,
    /// The trace is legal, but it has bytes after its last whole record, or that is not the closing of its run; the verdict was written.
    Incomplete,
    /// The trace is legal, since it has no whole record; the verdict was written.
    NothingJudged,
    /// The trace has no header, or a frame that spells no record; the verdict was written, or the line of its migration.
    MalformedTrace,
    /// All whole records were shown, and so many bytes of one, or of the header, that is not finished are left over.
    Rest {
        bytes: u64,
    },
    /// The records were shown up to a frame that spells none, or is too long, at this byte of the trace; at 0 it has no header.
    Malformed {
        at: u64,
    },
    /// A line of the race cannot stand there; lines are counted from 1. Nothing was written.
    BadRace {
        line: usize,
        why: Unfit,
    },
    /// What a call of the race is to answer is no answer; line and column are counted from 1. Nothing was written.
    BadAnswer {
        line: usize,
        column: usize,
    },
    /// The script has no line `race`, or no act before it. Nothing was written.
    NoRace,
    /// The race has more than so many positions. Nothing was written.
    TooManyStates {
        most: u64,
    },
    /// No outcome of the race agrees with what its calls are to answer; the lines of the calls and the last one were written.
    NoneAgrees,
    /// The race has no outcome of the number that was asked for. Nothing was written.
    NoSuchOutcome,
}

impl JobEnd {
    /// The exit status of the program.
    pub fn status(self) -> u8
        ensures { result ≡ ended_status self }
    {
        match self {
            JobEnd::Done | JobEnd::NothingJudged | JobEnd::Rest { .. } => 0,
            JobEnd::NoneAgrees | JobEnd::NoSuchOutcome | JobEnd::Incomplete => 1,
            JobEnd::BadLine { .. } | JobEnd::CarriageReturn { .. } | JobEnd::TooLong => 3,
            JobEnd::NeedsText { .. } | JobEnd::BadString { .. } => 3,
            JobEnd::BadRace { .. } | JobEnd::BadAnswer { .. } | JobEnd::NoRace => 3,
            JobEnd::CannotRead | JobEnd::CannotWrite | JobEnd::CannotListen | JobEnd::TraceFault =>
                4,
            JobEnd::NoMemory | JobEnd::NoThread => 5,
            JobEnd::MissingShare | JobEnd::Disagree { .. } => 6,
            JobEnd::IllegalTrace => 7,
            JobEnd::MalformedTrace | JobEnd::Malformed { .. } => 8,
            JobEnd::TooManyStates { .. } => 9,
        }
    }
}

impl fmt::Display for JobEnd {
    ghost use Rattle.std.specs.Prelude.{Some};
    ghost use Rattle.job_core.specs.JobEnds.{ended_text};

    ghost output = { λ ended. Some (ended_text ended) };

    fn fmt<W: fmt::Write>(&self, f: &mut fmt::Formatter<W>) -> fmt::Result {
        match self {
            JobEnd::Done | JobEnd::IllegalTrace | JobEnd::MalformedTrace | JobEnd::NoneAgrees => Ok(
                (),
            ),
            JobEnd::BadLine {
                line,
                column,
                expected,
            } => write!(
                f,
                "line {line} column {column}: not an act\nexpected {expected}\n"
            ),
            JobEnd::CarriageReturn { line, column } => write!(
                f,
                "line {line} column {column}: not an act\nexpected a line without a carriage return at its end\n"
            ),
            JobEnd::NeedsText { line, column } => write!(
                f,
                "line {line} column {column}: not an act\nexpected an act; comments and strings are read with --text\n"
            ),
            JobEnd::BadString { line, column } => write!(
                f,
                "line {line} column {column}: not an act\nexpected a string of at most 65700 bytes, as \"hi\\n\": bytes from 32 to 126, \\n, \\t, \\r, \\\" and \\\\, and a quote that ends the word\n"
            ),
            JobEnd::TooLong => f.write_str("script too long\nexpected at most 16777216 bytes\n"),
            JobEnd::CannotRead => f.write_str("cannot read\n"),
            JobEnd::CannotWrite => f.write_str("cannot write\n"),
            JobEnd::NoMemory => f.write_str("no memory\n"),
            JobEnd::CannotListen => f.write_str("cannot listen\n"),
            JobEnd::TraceFault => f.write_str("trace fault\n"),
            JobEnd::NoThread => f.write_str("no thread\n"),
            JobEnd::MissingShare => f.write_str("missing share\n"),
            JobEnd::Disagree { place } => write!(f, "disagree at {place}\n"),
            JobEnd::Rest { bytes } => write!(f, "rest {bytes}\n"),
            JobEnd::Malformed { at } => write!(f, "malformed {at}\n"),
            JobEnd::BadRace { line, why } => write!(f, "line {line}: {why}\n"),
            JobEnd::BadAnswer { line, column } => write!(
                f,
                "line {line} column {column}: not an answer\nexpected ? or an answer, as 5, x6869, ok, error EBADF, waits 0 or -\n"
            ),
            JobEnd::NoRace => f.write_str(
                "no race\nexpected a line race after the acts before it\n",
            ),
            JobEnd::TooManyStates { most } => write!(
                f,
                "too many states: more than {most}\nexpected at most {most} states; --states takes up to 100000000\n"
            ),
            JobEnd::NoSuchOutcome => f.write_str("no such outcome\n"),
            JobEnd::Incomplete => f.write_str(
                "not complete\nexpected house close-run as the last record, and nothing after it\n",
            ),
            JobEnd::NothingJudged => f.write_str(
                "nothing to judge: the trace has no whole record\n",
            ),
        }
    }
}

impl From<AllocError> for JobEnd {
    ghost use Rattle.std.specs.Prelude.{◌≡◌};
    ghost use Rattle.job_core.specs.declared.job_end.JobEnd.TheVariants.{NoMemory};

    ghost from_gives = { λ _ ended. ended ≡ NoMemory };

    fn from(_error: AllocError) -> JobEnd {
        JobEnd::NoMemory
    }
}

impl From<ScriptFault> for JobEnd {
    ghost use Rattle.std.specs.Prelude.{◌≡◌};
    ghost use Rattle.job_core.specs.Replay.{end_of_fault};

    ghost from_gives = { λ fault ended. ended ≡ end_of_fault fault };

    fn from(fault: ScriptFault) -> JobEnd {
        match fault {
            ScriptFault::BadLine {
                line,
                column,
                expected,
            } => JobEnd::BadLine {
                line,
                column,
                expected,
            },
            ScriptFault::TooLong => JobEnd::TooLong,
            ScriptFault::NoMemory => JobEnd::NoMemory,
        }
    }
}

//! Why a line or a script is not read.

ghost use Rattle.std.specs.Prelude.{◌≡◌};

use std::alloc::AllocError;
use std::fmt;

/// What could stand where a line of a script is no act.
#[derive(Clone, Copy, Debug, PartialEq, Eq)]
pub enum Expected {
    /// A process, or an act without one: `join` or `close-run`.
    Actor,
    /// Before a race: a process, `join`, or the line `race`.
    ActorOrRace,
    /// In a race: a process.
    Process,
    /// An act of a process.
    Act,
    /// In a race: a call.
    Call,
    Descriptor,
    /// An offset or a length.
    Position,
    /// How many bytes.
    Count,
    Name,
    Data,
    Flags,
    /// Where an offset begins.
    Whence,
    /// Nothing more.
    End,
}

impl fmt::Display for Expected {
    ghost use Rattle.std.specs.Prelude.{Some};
    ghost use Rattle.script_text.specs.Expected.{expected_text};

    ghost output = { λ expected. Some (expected_text expected) };

    fn fmt<W: fmt::Write>(&self, f: &mut fmt::Formatter<W>) -> fmt::Result {
        f.write_str(match self {
            Expected::Actor => "a process, as p0, or join or close-run",
            Expected::ActorOrRace => "a process, as p0, or join or race",
            Expected::Process => "a process, as p0",
            Expected::Act => "a call, attach, resume or exit",
            Expected::Call => "a call",
            Expected::Descriptor => "a descriptor, from -2147483648 to 2147483647",
            Expected::Position => {
                "an offset or a length, from -9223372036854775808 to 9223372036854775807"
            }
            Expected::Count => "a count of bytes, from 0 to 4294967295",
            Expected::Name => "a name of at most 255 bytes, as a or a%20b",
            Expected::Data => "data of at most 65700 bytes, as x6869 or 61*512",
            Expected::Flags => {
                "r, w, rw or -, and after it ,creat ,excl ,trunc ,append ,nonblock in this order"
            }
            Expected::Whence => "set, cur or end",
            Expected::End => "the end of the line",
        })
    }
}

/// Why a line isn't read.
#[derive(Clone, Copy, Debug, PartialEq, Eq)]
pub enum ReadFault {
    /// The line is no act. The column, from 1, is that of the first byte of the first word that isn't
    /// allowed there, or one past the last byte where a word is missing; with what could stand there.
    BadLine { column: usize, expected: Expected },
    /// Memory ran out.
    NoMemory,
}

/// Why a script isn't read.
#[derive(Clone, Copy, Debug, PartialEq, Eq)]
pub enum ScriptFault {
    /// The first line that is no act, counted from 1, and the column as for a line alone.
    BadLine {
        line: usize,
        column: usize,
        expected: Expected,
    },
    /// The script has more than `SCRIPT_MAX` bytes.
    TooLong,
    /// Memory ran out.
    NoMemory,
}

/// Why words aren't read.
#[derive(Clone, Copy, Debug)]
pub(crate) enum WordFault {
    /// A word isn't allowed or is missing where so many bytes of the line remain.
    At {
        remaining: usize,
        expected: Expected,
    },
    NoMemory,
}

impl From<AllocError> for WordFault {
    ghost use Rattle.script_text.specs.declared.fault.WordFault.TheVariants.{NoMemory};

    ghost from_gives = { λ _ e. e ≡ NoMemory };

    fn from(_fault: AllocError) -> WordFault {
        WordFault::NoMemory
    }
}

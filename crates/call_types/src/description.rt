//! Open file descriptions (XBD 3, Open File Description), and what they refer to.

ghost use Rattle.std.specs.Prelude.{◌≡◌};
ghost use Rattle.call_types.specs.Descriptions.{can_read, can_write, described, flag_if, flags_of};

use crate::flags::OpenFlags;
use bitflags::Flags;

/// What an open file description refers to, by number.
#[derive(Clone, Copy)]
pub enum Target {
    Regular { file: usize },
    Pipe { pipe: usize },
    Fifo { file: usize, pipe: usize },
}

/// What a file was opened for. For a pipe or FIFO it says which end.
#[derive(Clone, Copy)]
pub enum Mode {
    Read,
    Write,
    ReadWrite,
}

impl Mode {
    /// Whether it allows reads.
    pub fn can_read(self) -> bool
        ensures { result ≡ can_read self }
    {
        match self {
            Mode::Read | Mode::ReadWrite => true,
            Mode::Write => false,
        }
    }

    /// Whether it allows writes.
    pub fn can_write(self) -> bool
        ensures { result ≡ can_write self }
    {
        match self {
            Mode::Write | Mode::ReadWrite => true,
            Mode::Read => false,
        }
    }
}

/// An open file description (XBD 3, Open File Description). The offset is in bytes, below 2^63.
#[derive(Clone, Copy)]
pub struct Description {
    pub target: Target,
    pub offset: u64,
    pub mode: Mode,
    pub append: bool,
    pub nonblock: bool,
}

/// What changes in an open file description. What it is open on, and for what, stays.
#[derive(Clone, Copy)]
pub enum DescriptionEdit {
    /// Its offset, in bytes.
    Offset { offset: u64 },
    /// Its flags, of those that can be set (page of fcntl, F_SETFL).
    Flags { append: bool, nonblock: bool },
}

/// The flag, if it is set.
fn flag_if(set: bool, flag: OpenFlags) -> OpenFlags
    ensures { result.0 ≡ flag_if set flag.0 }
{
    if set { flag } else { OpenFlags::empty() }
}

impl Description {
    /// How it is accessed, append and nonblock (page of fcntl, F_GETFL).
    pub fn flags(&self) -> OpenFlags
        ensures { result ≡ flags_of self.now }
    {
        let reading = flag_if(self.mode.can_read(), OpenFlags::READ);
        let writing = flag_if(self.mode.can_write(), OpenFlags::WRITE);
        let appending = flag_if(self.append, OpenFlags::APPEND);
        let nonblocking = flag_if(self.nonblock, OpenFlags::NONBLOCK);
        reading.union(writing).union(appending.union(nonblocking))
    }

    /// Makes an edit.
    pub fn edit(&mut self, edit: DescriptionEdit)
        ensures { self.new ≡ described edit self.old }
    {
        match edit {
            DescriptionEdit::Offset { offset } => self.offset = offset,
            DescriptionEdit::Flags { append, nonblock } => {
                self.append = append;
                self.nonblock = nonblock;
            }
        }
    }
}

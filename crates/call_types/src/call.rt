use crate::bounded::{Name, Payload};
use crate::flags::OpenFlags;
use crate::whence::Whence;

/// One file call, as a process gives it. Descriptors are any `i32`; which are open is for the call to say.
#[derive(Clone, Debug, Drop)]
pub enum Call {
    /// Opens a name (page of open).
    Open {
        name: Name,
        flags: OpenFlags,
    },
    /// Frees a descriptor (page of close).
    Close {
        fd: i32,
    },
    /// Reads at most `count` bytes (page of read).
    Read {
        fd: i32,
        count: u32,
    },
    /// Writes the bytes (page of write).
    Write {
        fd: i32,
        bytes: Payload,
    },
    /// Reads at most `count` bytes from a position on, in bytes (page of read, pread).
    Pread {
        fd: i32,
        start: i64,
        count: u32,
    },
    /// Writes the bytes from a position on, in bytes (page of write, pwrite).
    Pwrite {
        fd: i32,
        start: i64,
        bytes: Payload,
    },
    /// Moves the offset to so many bytes past a base (its page).
    Lseek {
        fd: i32,
        offset: i64,
        whence: Whence,
    },
    /// Sets the length of a file, in bytes (page of ftruncate).
    Ftruncate {
        fd: i32,
        len: i64,
    },
    /// A second descriptor of the same open file description (page of dup).
    Dup {
        fd: i32,
    },
    /// Lets descriptor `to` refer to the open file description of `fd` (page of dup2).
    Dup2 {
        fd: i32,
        to: i32,
    },
    /// Makes a pipe, and opens its two ends (page of pipe).
    Pipe,
    /// Gives a new FIFO a name (page of mkfifo).
    Mkfifo {
        name: Name,
    },
    /// Gives a file one more name (page of link).
    Link {
        old: Name,
        new: Name,
    },
    /// Takes a name away (page of unlink).
    Unlink {
        name: Name,
    },
    /// Tells kind, size and links of a file (page of fstat).
    Fstat {
        fd: i32,
    },
    /// Makes a child with the same descriptors (page of fork).
    Fork,
    /// Tells how a file was opened, and its flags (page of fcntl, F_GETFL).
    Getfl {
        fd: i32,
    },
    /// Gives an open file description other flags, of those that stay with it (page of fcntl, F_SETFL).
    Setfl {
        fd: i32,
        flags: OpenFlags,
    },
    /// Gives the file of a name another name in its place (page of rename).
    Rename {
        old: Name,
        new: Name,
    },
}

impl Call {
    ghost use Rattle.std.specs.Prelude.{◌≡◌, ◌↔◌, true};
    ghost use Rattle.std.specs.Option.{option_copied};
    ghost use Rattle.call_types.specs.CallTable.{payload_of};

    /// The data that the call gives to write, if it is one that writes.
    pub fn payload(&self) -> Option<&Payload>
        ensures { option_copied result ≡ payload_of self.now }
    {
        match self {
            Call::Write { bytes, .. } => Some(bytes),
            Call::Pwrite { bytes, .. } => Some(bytes),
            _ => None,
        }
    }

    ghost use Rattle.call_types.specs.CallTable.{parts, FieldsShort};

    /// No field is longer than a call may give it: names and data are as long as their types let them be. It does nothing.
    pub fn fields_are_short(&self)
        ensures { FieldsShort (parts self.now).entry.fields (parts self.now).values }
    {
        match self {
            Call::Open { name, .. } => {
                let _bytes = name.as_slice();
            }
            Call::Write { bytes, .. } => {
                let _len = bytes.len();
            }
            Call::Pwrite { bytes, .. } => {
                let _len = bytes.len();
            }
            Call::Mkfifo { name } => {
                let _bytes = name.as_slice();
            }
            Call::Link { old, new } => {
                let _old = old.as_slice();
                let _new = new.as_slice();
            }
            Call::Unlink { name } => {
                let _bytes = name.as_slice();
            }
            Call::Rename { old, new } => {
                let _old = old.as_slice();
                let _new = new.as_slice();
            }
            _ => {}
        }
    }

    /// Whether this is the same call as another, with the same arguments.
    pub fn is_same(&self, other: &Call) -> bool
        ensures { (result ≡ true) ↔ (self.now ≡ other.now) }
    {
        match self {
            Call::Open { name, flags } =>
                matches!(other, Call::Open { name: n, flags: f } if name.is_same(n) && *flags == *f),
            Call::Close { fd } => matches!(other, Call::Close { fd: f } if *fd == *f),
            Call::Read { fd, count } =>
                matches!(other, Call::Read { fd: f, count: c } if *fd == *f && *count == *c),
            Call::Write { fd, bytes } =>
                matches!(other, Call::Write { fd: f, bytes: b } if *fd == *f && bytes.is_same(b)),
            Call::Pread { fd, start, count } =>
                matches!(other, Call::Pread { fd: f, start: s, count: c } if *fd == *f && *start == *s && *count == *c),
            Call::Pwrite { fd, start, bytes } =>
                matches!(other, Call::Pwrite { fd: f, start: s, bytes: b } if *fd == *f && *start == *s && bytes.is_same(b)),
            Call::Lseek { fd, offset, whence } =>
                matches!(other, Call::Lseek { fd: f, offset: o, whence: w } if *fd == *f && *offset == *o && *whence == *w),
            Call::Ftruncate { fd, len } =>
                matches!(other, Call::Ftruncate { fd: f, len: l } if *fd == *f && *len == *l),
            Call::Dup { fd } => matches!(other, Call::Dup { fd: f } if *fd == *f),
            Call::Dup2 { fd, to } =>
                matches!(other, Call::Dup2 { fd: f, to: t } if *fd == *f && *to == *t),
            Call::Pipe => matches!(other, Call::Pipe),
            Call::Mkfifo { name } => matches!(other, Call::Mkfifo { name: n } if name.is_same(n)),
            Call::Link { old, new } =>
                matches!(other, Call::Link { old: o, new: n } if old.is_same(o) && new.is_same(n)),
            Call::Unlink { name } => matches!(other, Call::Unlink { name: n } if name.is_same(n)),
            Call::Fstat { fd } => matches!(other, Call::Fstat { fd: f } if *fd == *f),
            Call::Fork => matches!(other, Call::Fork),
            Call::Getfl { fd } => matches!(other, Call::Getfl { fd: f } if *fd == *f),
            Call::Setfl { fd, flags } =>
                matches!(other, Call::Setfl { fd: f, flags: g } if *fd == *f && *flags == *g),
            Call::Rename { old, new } =>
                matches!(other, Call::Rename { old: o, new: n } if old.is_same(o) && new.is_same(n)),
        }
    }
}

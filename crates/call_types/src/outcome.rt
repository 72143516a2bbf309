use crate::bounded::Content;
use crate::errno::Errno;

/// What a file is, as fstat tells it.
#[derive(Clone, Copy, Debug, PartialEq, Eq)]
pub enum FileType {
    /// A regular file.
    Regular,
    /// A pipe with a name.
    Fifo,
    /// A pipe without a name.
    Pipe,
}

/// What fstat tells: the size in bytes, the number of names and the kind.
#[derive(Clone, Copy, Debug, PartialEq, Eq)]
pub struct Stat {
    /// The size in bytes, at most 1,099,511,627,776.
    pub size: u64,
    /// How many names the file has.
    pub links: u32,
    /// What the file is.
    pub kind: FileType,
}

/// The answer that ends a call.
#[derive(Clone, Debug, Drop)]
pub enum Reply {
    /// The call has no value.
    Done,
    /// A descriptor, an offset, a process number, or how many bytes moved.
    Number(u64),
    /// What was read.
    Data(Content),
    /// The two ends of a pipe, the reading one first.
    Pair(u32, u32),
    /// What fstat tells.
    Stat(Stat),
    /// The call is refused and changed nothing, except that EPIPE for a resume ends the call that waited.
    Error(Errno),
}

/// What a record says of its act. A count of bytes moved is the total of the call so far.
#[derive(Clone, Debug, Drop)]
pub enum Outcome {
    /// The call has ended.
    Reply(Reply),
    /// The call waits, and moved so many bytes at once.
    Parked { moved: u32 },
    /// The call goes on waiting, with so many bytes moved.
    Part { moved: u32 },
}

ghost use Rattle.std.specs.Prelude.{◌≡◌};
ghost use Rattle.posix_model.specs.Pages.{tells, does, acts, refused};

use crate::kept_name::KeptName;
use call_types::bounded::Name;
use call_types::description::{Description, DescriptionEdit};
use call_types::errno::Errno;
use call_types::outcome::{Outcome, Reply};
use process_table::process::Parked;
use process_table::table::DescriptorTable;
use slots::ticket::Ticket;

/// Which bytes go into a pipe.
#[derive(Clone, Copy)]
pub enum DataSource {
    /// The data of the act's own call, from its first byte on.
    Act,
    /// The data of the call that a process waits in, after the bytes that it moved.
    Parked { process: usize },
}

/// What an act changes in the names of files that are there.
#[derive(Drop)]
pub enum NameEdit {
    /// A file has one more name.
    Add { name: Name, file: usize },
    /// A name is taken away.
    Remove { name: Name },
    /// A file has the new name in place of the old one. What the new one led to has one name less.
    Move { old: Name, new: KeptName },
}

/// What an act changes in names, files and pipes; new pipes come with their ends, in a `TableEdit`. All numbers are found already; positions and lengths are in bytes.
#[derive(Drop)]
pub enum FileEdit {
    /// Nothing.
    Nothing,
    /// The first `count` bytes of the act are written to a regular file from a position on.
    Bytes {
        file: usize,
        start: usize,
        count: usize,
    },
    /// A regular file has this length.
    Resize {
        file: usize,
        len: usize,
    },
    /// The names of files that are there change.
    Names(NameEdit),
    /// An empty regular file has a new name.
    MakeFile {
        name: Name,
    },
    /// A FIFO has a new name.
    MakeFifo {
        name: Name,
    },
    /// So many bytes go into a pipe, after those that it holds.
    Put {
        pipe: usize,
        source: DataSource,
        count: usize,
    },
    /// So many bytes leave a pipe, or all that it holds; those first that went in first.
    Take {
        pipe: usize,
        count: usize,
    },
}

/// What an act changes in processes.
#[derive(Drop)]
pub enum ProcessEdit {
    /// Nothing.
    Nothing,
    /// The next process has this table, with or without a connection, and waits in no call.
    Add {
        table: DescriptorTable,
        attached: bool,
    },
    /// A process has its connection.
    Attach {
        process: usize,
    },
    /// A process waits in a call.
    Park {
        process: usize,
        parked: Parked,
    },
    /// The call that a process waits in has moved so many bytes in all.
    Total {
        process: usize,
        moved: u32,
    },
    /// A process waits in no call any more.
    Unpark {
        process: usize,
    },
    /// A process is gone.
    Exit {
        process: usize,
    },
    /// The run is closed.
    Close,
}

/// What an act changes in descriptors and open file descriptions, with the pipes and openings that come with an end. All numbers are
/// found already.
#[derive(Drop)]
pub enum TableEdit {
    /// Nothing.
    Nothing,
    /// A description has another offset, or other flags.
    Describe {
        number: Ticket,
        edit: DescriptionEdit,
    },
    /// A free descriptor refers to a new description.
    Open {
        process: usize,
        fd: usize,
        description: Description,
    },
    /// Two free descriptors refer to the two ends of the next pipe, which is empty.
    OpenPair {
        process: usize,
        reading: usize,
        writing: usize,
    },
    /// A free descriptor refers to a new description of an end of a FIFO, which is opened once more. Where the FIFO has no
    /// pipe, the next one, empty, becomes its pipe.
    OpenEnd {
        process: usize,
        fd: usize,
        file: usize,
        description: Description,
    },
    /// A descriptor refers to this description, or is free.
    Entry {
        process: usize,
        fd: usize,
        entry: Option<Ticket>,
    },
}

/// What an act changes, before the sweep: first files and pipes, then processes, then descriptors.
#[derive(Drop)]
pub struct Change {
    pub files: FileEdit,
    pub process: ProcessEdit,
    pub table: TableEdit,
}

/// What an act comes to: its outcome, and what it changes.
#[derive(Drop)]
pub struct Decided {
    pub outcome: Outcome,
    pub change: Change,
}

/// What one try of a call comes to that may wait: it ends with a reply, or it waits, having moved so many bytes in all.
#[derive(Drop)]
pub enum Try {
    /// The call ends.
    Ends { reply: Reply, edit: FileEdit },
    /// The call waits.
    Waits { moved: u32, edit: FileEdit },
}

/// A reply, with an edit of files and one of descriptors.
pub fn does(reply: Reply, files: FileEdit, table: TableEdit) -> Decided
    ensures { result ≡ does reply files table }
{
    Decided {
        outcome: Outcome::Reply(reply),
        change: Change {
            files,
            process: ProcessEdit::Nothing,
            table,
        },
    }
}

/// A reply, with an edit of processes.
pub fn acts(reply: Reply, process: ProcessEdit) -> Decided
    ensures { result ≡ acts reply process }
{
    Decided {
        outcome: Outcome::Reply(reply),
        change: Change {
            files: FileEdit::Nothing,
            process,
            table: TableEdit::Nothing,
        },
    }
}

/// A reply, and no change.
pub fn tells(reply: Reply) -> Decided
    ensures { result ≡ tells reply }
{
    does(reply, FileEdit::Nothing, TableEdit::Nothing)
}

/// A recorded error, which changes nothing.
pub fn refused(error: Errno) -> Decided
    ensures { result ≡ refused error }
{
    tells(Reply::Error(error))
}

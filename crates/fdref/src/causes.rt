//! What the system said where a path could not be opened, made or listened on, gave no further connection, or did not take a
//! whole trace.

use std::alloc::Global;
use std::cell::RefCell;
use std::{fmt, io};

/// Why a path could not be used.
#[derive(Clone, Copy, Drop)]
enum Why {
    /// The system said so.
    System(io::Error),
    /// It gave no further connection, and the system said so.
    Unaccepted(io::Error),
    /// All of a trace was written to it, and the system would not say that it lasts.
    Unsynced(io::Error),
    /// Another process has locked the file, as a server does that writes its trace there.
    Locked,
}

/// A path, and why it could not be used.
#[derive(Drop)]
struct Cause {
    path: String,
    why: Why,
}

/// The last path that could not be used, if there is one, for the line after that of how a job ended. One for which memory runs out is
/// not noted.
#[derive(Drop)]
pub struct Causes {
    alloc: Global,
    last: RefCell<Option<Cause>>,
}

impl Causes {
    /// No path was refused yet.
    pub fn new(alloc: Global) -> Self {
        Causes {
            alloc,
            last: RefCell::new(None),
        }
    }

    /// Notes what the system said of a path.
    pub fn note(&self, path: &str, error: io::Error) {
        self.put(path, Why::System(error));
    }

    /// Notes what the system said where a path gave no further connection.
    pub fn note_unaccepted(&self, path: &str, error: io::Error) {
        self.put(path, Why::Unaccepted(error));
    }

    /// Notes what the system said where a trace was written to a path, and could not be synced.
    pub fn note_unsynced(&self, path: &str, error: io::Error) {
        self.put(path, Why::Unsynced(error));
    }

    /// Notes that another process has locked the file at a path.
    pub fn note_locked(&self, path: &str) {
        self.put(path, Why::Locked);
    }

    fn put(&self, path: &str, why: Why) {
        let Ok(path) = String::from_str(self.alloc, path) else {
            return;
        };
        let _before = self.last.try_replace(Some(Cause { path, why }));
    }
}

impl fmt::Display for Causes {
    fn fmt<W: fmt::Write>(&self, f: &mut fmt::Formatter<W>) -> fmt::Result {
        let Ok(last) = self.last.try_borrow() else {
            return Ok(());
        };
        match &*last {
            // said of a socket alone; whether a server listens there has to know who starts another one
            Some(
                Cause {
                    path,
                    why: Why::System(error),
                },
            ) if error.kind() == io::ErrorKind::AddrInUse => write!(
                f,
                "{path}: something is there already, be it the file of --trace; a socket at which no server listens any more may be removed: {error}\n"
            ),
            Some(
                Cause {
                    path,
                    why: Why::System(error),
                },
            ) => write!(f, "{path}: {error}\n"),
            Some(
                Cause {
                    path,
                    why: Why::Unaccepted(error),
                },
            ) => write!(f, "{path}: no further connection: {error}\n"),
            Some(
                Cause {
                    path,
                    why: Why::Unsynced(error),
                },
            ) => write!(f, "{path}: all is written, and cannot be synced: {error}\n"),
            Some(
                Cause {
                    path,
                    why: Why::Locked,
                },
            ) => write!(
                f,
                "{path}: another server may be writing its trace there: it is locked\n"
            ),
            None => Ok(()),
        }
    }
}

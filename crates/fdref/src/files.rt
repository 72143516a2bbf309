//! Files, by their names.

use crate::causes::Causes;
use crate::perform::Opens;
use crate::trace_file::{TraceFile, TraceLoss};
use std::fs::{File, OpenOptions, TryLockError};
use std::{fs, io};

/// What Linux says of a read of a directory.
const EISDIR: i32 = 21;

/// Why no file is had for a trace.
enum Unmade {
    System(io::Error),
    Locked,
}

impl From<io::Error> for Unmade {
    fn from(error: io::Error) -> Unmade {
        Unmade::System(error)
    }
}

/// The files of the system.
#[derive(Drop)]
pub struct SystemFiles<'a> {
    pub rt: &'a HostRuntime,
    pub causes: &'a Causes,
}

impl<'a> SystemFiles<'a> {
    /// A file that can be read, and is no directory.
    fn readable(&self, path: &str) -> io::Result<File> {
        let file = fs::open(self.rt, path)?;
        if file.metadata()?.is_dir() {
            return Err(io::Error::from_raw_os_error(EISDIR));
        }
        Ok(file)
    }

    /// A file for a trace. Where the file system has locks it is emptied only once it is locked, so the trace of a server that runs stays
    /// as it is. What is no file of bytes, as `/dev/null`, is not locked.
    fn writable(&self, path: &str) -> Result<File, Unmade> {
        let file = OpenOptions::new()
            .write(true)
            .create(true)
            .open(self.rt, path)?;
        if file.metadata()?.is_file() {
            match file.try_lock() {
                Err(TryLockError::WouldBlock) => return Err(Unmade::Locked),
                // a file system without locks
                Ok(()) | Err(TryLockError::Error(_)) => {}
            }
            file.set_len(0)?;
        }
        Ok(file)
    }
}

impl<'a> Opens for SystemFiles<'a> {
    ghost use Rattle.std.specs.Prelude.{None, ⊤};

    type File = File;

    type Sink = TraceFile;

    type New = File;

    ghost bytes_at = { λ _ _. None };

    ghost is_unmade = { λ _ _. ⊤ };

    ghost is_taken = { λ _ _. ⊤ };

    fn open(&self, path: &str) -> Option<File> {
        match self.readable(path) {
            Ok(file) => Some(file),
            Err(error) => {
                self.causes.note(path, error);
                None
            }
        }
    }

    fn create(&self, path: &str) -> Option<TraceFile> {
        match self.writable(path) {
            Ok(file) => Some(TraceFile::new(file)),
            Err(Unmade::System(error)) => {
                self.causes.note(path, error);
                None
            }
            Err(Unmade::Locked) => {
                self.causes.note_locked(path);
                None
            }
        }
    }

    fn create_new(&self, path: &str) -> Option<File> {
        match File::create_new(self.rt, path) {
            Ok(file) => Some(file),
            Err(error) => {
                self.causes.note(path, error);
                None
            }
        }
    }

    fn note_loss(&self, path: &str, sink: &TraceFile) {
        match sink.loss() {
            Some(TraceLoss::Unwritten(error)) => self.causes.note(path, error),
            Some(TraceLoss::Unsynced(error)) => self.causes.note_unsynced(path, error),
            None => {}
        }
    }
}

//! The file of a trace.

ghost use Rattle.std.specs.Prelude.{◌≡◌};

use logged_streams::writer::LoggedWriter;
use std::fs::File;
use std::io;
use std::io::Write;
use trace_writer::sink::{Sink, SinkFailed};

/// A file, and why the last write took no byte, if it took none.
#[derive(Drop)]
struct NotedFile {
    file: File,
    said: Option<io::Error>,
}

impl Write for NotedFile {
    fn write(&mut self, bytes: &[u8]) -> io::Result<usize> {
        let written = self.file.write(bytes);
        self.said = match &written {
            Ok(0) => Some(io::Error::other("a write took no byte")),
            Ok(_) => None,
            Err(error) => Some(*error),
        };
        written
    }

    fn flush(&mut self) -> io::Result<()> {
        self.file.flush()
    }
}

/// Why a file has no whole trace, or one that may not last.
#[derive(Clone, Copy, Drop)]
pub enum TraceLoss {
    /// A write failed, and the system said so.
    Unwritten(io::Error),
    /// All was written, and could not be synced.
    Unsynced(io::Error),
}

/// A file that takes a trace, and what the system said where it did not. A write that is interrupted is tried again, sixteen times at
/// most.
#[derive(Drop)]
pub struct TraceFile {
    file: LoggedWriter<NotedFile>,
    failures: u64,
    is_synced: bool,
    loss: Option<TraceLoss>,
}

impl TraceFile {
    /// This file, which takes a trace from where it stands.
    pub fn new(file: File) -> Self
        ensures { result.failures ≡ 0 }
    {
        TraceFile {
            file: LoggedWriter::new(NotedFile { file, said: None }),
            failures: 0,
            is_synced: false,
            loss: None,
        }
    }

    /// What the system said of its last call that failed, if one did.
    pub fn loss(&self) -> Option<TraceLoss> {
        self.loss
    }
}

impl Sink for TraceFile {
    ghost use Rattle.std.specs.Prelude.{true};

    ghost contents = { λ s. s.file.contents };

    ghost failures = { λ s. s.failures };

    ghost is_synced = { λ s. s.is_synced };

    ghost is_sound = { λ s. true };

    fn write(&mut self, bytes: &[u8]) -> Result<usize, SinkFailed> {
        self.is_synced = false;
        match self.file.write_some(bytes) {
            Ok(count) => Ok(count),
            Err(_) => {
                self.failures += 1;
                self.loss = match self.file.get_ref().said {
                    Some(error) => Some(TraceLoss::Unwritten(error)),
                    None => None,
                };
                Err(SinkFailed)
            }
        }
    }

    fn sync(&mut self) -> Result<(), SinkFailed> {
        match self.file.get_ref().file.sync_all() {
            Ok(()) => {
                self.is_synced = true;
                Ok(())
            }
            Err(error) => {
                self.failures += 1;
                self.loss = Some(TraceLoss::Unsynced(error));
                Err(SinkFailed)
            }
        }
    }

    fn failures(&self) -> u64 {
        self.failures
    }
}

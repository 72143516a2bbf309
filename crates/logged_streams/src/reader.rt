//! A reader with a log of its reads.

ghost use Rattle.std.specs.Prelude.{◌≡◌, ◌<◌, ◌≤◌, length};
ghost use Rattle.logged_streams.specs.Streams.{fresh_log, ReadsOnce};

use crate::stream_log::{Gave, StreamLog, gave_of};
use std::io::Read;
use std::marker::Model;

/// A reader, and what became of its reads. Contracts see it as a `LoggedReaderState`.
#[derive(Drop)]
pub struct LoggedReader<R: Read> {
    reader: R,
    log: StreamLog,
}

impl<R: Read> Model for LoggedReader<R> {
    ghost use Rattle.logged_streams.specs.Streams.{LoggedReaderState};

    ghost Value = { LoggedReaderState };

    ghost view = { λ s. record { remaining = R.remaining s.reader; log = s.log } };
}

impl<R: Read> LoggedReader<R> {
    /// A reader that was not read yet.
    pub fn new(reader: R) -> Self
        ensures { result ≡ record { remaining = R.remaining reader; log = fresh_log } }
    {
        LoggedReader {
            reader,
            log: StreamLog::new(),
        }
    }

    /// What became of its reads.
    pub fn log(&self) -> &StreamLog
        ensures { result.now ≡ self.now.log }
    {
        &self.log
    }

    /// The reader, and what became of its reads.
    pub fn into_parts(self) -> (R, StreamLog)
        ensures reader { R.remaining result.0 ≡ self.remaining }
        ensures log { result.1 ≡ self.log }
        ensures few { result.1.interruptions ≤ 16 }
    {
        let _few = self.log.interruptions();
        (self.reader, self.log)
    }

    /// Reads once, into a buffer that is not empty.
    pub fn read(&mut self, buffer: &mut [u8]) -> Gave
        requires room { 0 < length buffer.old }
        requires few { self.old.log.interruptions < 16 }
        ensures reads { ReadsOnce self.old self.new buffer.new result }
        ensures long { length buffer.new ≡ length buffer.old }
    {
        let told = self.reader.read(buffer);
        let gave = gave_of(told, Gave::Nothing);
        self.log.note(gave);
        gave
    }
}

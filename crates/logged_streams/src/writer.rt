//! A writer with a log of its writes.

ghost use Rattle.std.specs.Prelude.{◌≡◌, ◌+◌, ◌*◌, ◌<◌, ◌≤◌, true, length, IfOk, OnOk, OnErr};
ghost use Rattle.std.specs.Io.KnownBytes.{Keeps};
ghost use Rattle.logged_streams.specs.Streams.{fresh_log, asked, WritesFront, WritesNone, SomeWritten, IsBroken, IsWell};
ghost use Rattle.logged_streams.specs.Proved.Writes.{WritesOnce};

use crate::gate::Gate;
use crate::stream_log::{Gave, INTERRUPTIONS_MAX, StreamLog, gave_of};
use std::io::Write;
use std::marker::Model;

/// Nothing more is to be written: the writer has failed, was interrupted sixteen times in a row, or there was no leave to write.
#[derive(Drop)]
pub struct WriterFailed;

/// A writer, and what became of its writes. Contracts see it as a `LoggedWriterState`.
#[derive(Drop)]
pub struct LoggedWriter<W: Write> {
    writer: W,
    log: StreamLog,
}

impl<W: Write> Model for LoggedWriter<W> {
    ghost use Rattle.logged_streams.specs.Streams.{LoggedWriterState};

    ghost Value = { LoggedWriterState };

    ghost view = { λ s. record { contents = W.contents s.writer; log = s.log } };
}

impl<W: Write> LoggedWriter<W> {
    /// A writer to which nothing was written yet.
    pub fn new(writer: W) -> Self
        ensures { result ≡ record { contents = W.contents writer; log = fresh_log } }
    {
        LoggedWriter {
            writer,
            log: StreamLog::new(),
        }
    }

    /// What became of its writes.
    pub fn log(&self) -> &StreamLog
        ensures { result.now ≡ self.now.log }
    {
        &self.log
    }

    /// The writer. What is written past the log would not be noted, so it is lent to be read only.
    pub fn get_ref(&self) -> &W
        ensures { W.contents result.now ≡ self.now.contents }
    {
        &self.writer
    }

    /// Asks a gate once whether an answer of a session may be written, and notes what it says.
    pub fn ask<G: Gate>(&mut self, gate: &G, session: u64, place: u64) -> bool
        requires { self.old.log.refusals < 1000 }
        ensures asks { self.new ≡ record { contents = self.old.contents; log = asked self.old.log result } }
        ensures always { G.is_open ≡ true → result ≡ true }
        ensures said { G.said session place result }
    {
        let is_let = gate.may_write(session, place);
        self.log.note_leave(is_let);
        is_let
    }

    /// Writes once, of bytes that are not empty.
    fn write(&mut self, bytes: &[u8]) -> Gave
        requires { self.old.log.interruptions < 16 }
        ensures { WritesOnce self.old self.new bytes.now result }
    {
        let told = self.writer.write(bytes);
        let gave = gave_of(told, Gave::Failed);
        self.log.note(gave);
        gave
    }

    /// Writes some of the bytes, at least one, from the first on; an error says that the writer is broken.
    #[tactic(auto, using(crate::proofs::WriteLemmas::noted_leave, crate::proofs::WriteLemmas::noted_calls))]
    pub fn write_some(&mut self, bytes: &[u8]) -> Result<usize, WriterFailed>
        ensures ok { IfOk result (λ count. SomeWritten self.old.contents self.new.contents bytes.now count) }
        ensures sound { OnOk result (self.new.log.failed ≡ self.old.log.failed) }
        ensures err { OnErr result (WritesNone self.old self.new) }
        ensures few { self.new.log.calls ≤ self.old.log.calls + INTERRUPTIONS_MAX }
        ensures leave { self.new.log.refusals ≡ self.old.log.refusals }
    {
        while self.log.interruptions() < INTERRUPTIONS_MAX {
            match self.write(bytes) {
                Gave::Bytes(count) => return Ok(count),
                Gave::Interrupted => {}
                Gave::Nothing | Gave::Failed => return Err(WriterFailed),
            }
        }
        Err(WriterFailed)
    }

    /// Flushes what was written.
    fn flush(&mut self) -> Result<(), WriterFailed>
        ensures keeps { Keeps self.old.contents self.new.contents }
        ensures ok { OnOk result (self.new.log ≡ self.old.log) }
        ensures err { OnErr result (IsBroken self.new.log) }
        ensures calls { self.new.log.calls ≡ self.old.log.calls }
        ensures leave { self.new.log.refusals ≡ self.old.log.refusals }
    {
        match self.writer.flush() {
            Ok(()) => Ok(()),
            Err(_) => {
                self.log.note_failure();
                Err(WriterFailed)
            }
        }
    }

    /// Writes bytes and flushes them: how many were written, and whether all went well.
    pub fn write_all(&mut self, bytes: &[u8]) -> (usize, Result<(), WriterFailed>)
        ensures front { WritesFront self.old.contents self.new.contents bytes.now result.0 }
        ensures whole { OnOk result.1 (result.0 ≡ length bytes.now) }
        ensures sound { OnOk result.1 (IsWell self.old.log self.new.log result.0) }
        ensures broken { OnErr result.1 (IsBroken self.new.log) }
        ensures few { self.new.log.calls ≤ self.old.log.calls + INTERRUPTIONS_MAX * (result.0 + 1) }
        ensures leave { self.new.log.refusals ≡ self.old.log.refusals }
    {
        let mut written: usize = 0;
        while written < bytes.len() {
            let (_, rest) = bytes.split_at(written);
            match self.write_some(rest) {
                Ok(count) => written += count,
                Err(failed) => return (written, Err(failed)),
            }
        }
        (written, self.flush())
    }
}

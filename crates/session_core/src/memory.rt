//! Readers and writers over memory. They fail, are interrupted, and give or take few bytes, as they are told to.

ghost use Rattle.std.specs.Prelude.{◌≡◌, ◌+◌, ◌≤◌, ◌⊎◌, [], Some, None, true, false, min, length, IfOk, IfErr, OnOk, OnErr};
ghost use Rattle.std.specs.Io.{ReadsAtMost, WritesAtMost};
ghost use Rattle.std.specs.Io.KnownBytes.{ReadConsumes, WriteAppends, Keeps};
ghost use Rattle.std.specs.IoError.{error_kind};
ghost use Rattle.logged_streams.specs.Streams.{one_more};
ghost use Rattle.session_core.specs.Proved.Memory.{fault_of, fails_now, given_count, GivesFront};

use crate::connection::Connection;
use std::alloc::Global;
use std::io;
use std::io::{Error, ErrorKind, Read, Write};
use std::marker::Model;

/// How a stream over memory answers its calls, which count from 1.
#[derive(Clone, Copy, Debug, PartialEq, Eq)]
pub struct Manner {
    /// How many bytes a call gives or takes at most. A reader that is not at its end gives at least one.
    pub most: usize,
    /// Which call fails, if one does.
    pub fails_at: Option<u64>,
    /// How many calls are interrupted before each one that is not.
    pub interruptions: u32,
    /// Which flush of a writer fails, if one does. Flushes are counted by themselves.
    pub flush_fails_at: Option<u64>,
}

impl Manner {
    /// The fault that the call of this number meets, if it meets one.
    fn fault(self, call: u64) -> Option<ErrorKind>
        ensures { result ≡ fault_of self call }
    {
        if self.fails_at == Some(call) {
            return Some(ErrorKind::ConnectionReset);
        }
        if call % (u64::from(self.interruptions) + 1) == 0 {
            None
        } else {
            Some(ErrorKind::Interrupted)
        }
    }
}

/// A reader of bytes in memory.
#[derive(Drop)]
pub struct MemoryReader {
    bytes: Vec<u8>,
    handed: usize,
    calls: u64,
    manner: Manner,
}

impl Model for MemoryReader {
    ghost use Rattle.std.specs.Prelude.{◌≤◌, drop, vec_len};
    ghost use Rattle.session_core.specs.MemoryStreams.{ReaderState};

    ghost Value = { ReaderState };

    ghost view = { λ r. record { rest = drop r.handed r.bytes.items; calls = r.calls; manner = r.manner } };

    ghost invariant = { λ r. r.handed ≤ vec_len r.bytes };
}

impl MemoryReader {
    /// A reader of these bytes.
    pub fn new(bytes: Vec<u8>, manner: Manner) -> Self
        ensures { result ≡ record { rest = bytes.items; calls = 0; manner = manner } }
    {
        MemoryReader {
            bytes,
            handed: 0,
            calls: 0,
            manner,
        }
    }

    /// Gives as many bytes as there are, as fit, and as it may.
    fn give(&mut self, buffer: &mut [u8]) -> usize
        ensures gives { GivesFront self.old self.new buffer.new result }
        ensures long { length buffer.new ≡ length buffer.old }
    {
        let (_, rest) = self.bytes.as_slice().split_at(self.handed);
        let count = buffer.len().min(self.manner.most.max(1)).min(rest.len());
        let (front, _) = rest.split_at(count);
        buffer[..count].copy_from_slice(front);
        self.handed += count;
        count
    }
}

impl Read for MemoryReader {
    ghost remaining = { λ r. Some r.rest };

    /// Gives bytes, fails or is interrupted, as it was told to.
    fn read(&mut self, buffer: &mut [u8]) -> io::Result<usize>
        ensures bound { ReadsAtMost result buffer.new }
        ensures bytes { ReadConsumes (Some self.old.rest) (Some self.new.rest) result buffer.new }
        ensures calls { self.new.calls ≡ one_more self.old.calls }
        ensures faulty { IfErr result (λ error. fault_of self.old.manner self.new.calls ≡ Some (error_kind error)) }
        ensures sound { OnOk result (fault_of self.old.manner self.new.calls ≡ None) }
        ensures count { IfOk result (λ count. count ≡ given_count self.old.manner.most (length buffer.old) (length self.old.rest)) }
        ensures manner { self.new.manner ≡ self.old.manner }
    {
        self.calls = self.calls.saturating_add(1);
        match self.manner.fault(self.calls) {
            Some(kind) => Err(Error::from(kind)),
            None => Ok(self.give(buffer)),
        }
    }
}

/// A writer whose bytes stay in memory. It also fails where memory runs out.
#[derive(Drop)]
pub struct MemoryWriter {
    bytes: Vec<u8>,
    calls: u64,
    flushes: u64,
    manner: Manner,
}

impl Model for MemoryWriter {
    ghost use Rattle.session_core.specs.MemoryStreams.{WriterState};

    ghost Value = { WriterState };

    ghost view = { λ w. record { bytes = w.bytes.items; calls = w.calls; flushes = w.flushes; manner = w.manner } };
}

impl MemoryWriter {
    /// A writer that holds nothing yet.
    pub fn new(alloc: Global, manner: Manner) -> Self
        ensures { result ≡ record { bytes = []; calls = 0; flushes = 0; manner = manner } }
    {
        MemoryWriter {
            bytes: Vec::new(alloc),
            calls: 0,
            flushes: 0,
            manner,
        }
    }

    /// How often it was flushed.
    pub fn flushes(&self) -> u64
        ensures { result ≡ self.now.flushes }
    {
        self.flushes
    }

    /// The bytes that it was given.
    pub fn bytes(&self) -> &[u8]
        ensures { result.now ≡ self.now.bytes }
    {
        self.bytes.as_slice()
    }
}

impl Write for MemoryWriter {
    ghost contents = { λ w. Some w.bytes };

    /// Takes bytes, fails or is interrupted, as it was told to. It also fails where memory runs out.
    fn write(&mut self, buffer: &[u8]) -> io::Result<usize>
        ensures bound { WritesAtMost result buffer.now }
        ensures bytes { WriteAppends (Some self.old.bytes) (Some self.new.bytes) result buffer.now }
        ensures calls { self.new.calls ≡ one_more self.old.calls }
        ensures faulty { IfErr result (λ error. (fault_of self.old.manner self.new.calls ≡ Some (error_kind error)) ⊎ (error_kind error ≡ ErrorKind.OutOfMemory)) }
        ensures sound { OnOk result (fault_of self.old.manner self.new.calls ≡ None) }
        ensures count { IfOk result (λ count. count ≡ min (length buffer.now) self.old.manner.most) }
        ensures others { (self.new.flushes ≡ self.old.flushes) × (self.new.manner ≡ self.old.manner) }
    {
        self.calls = self.calls.saturating_add(1);
        if let Some(kind) = self.manner.fault(self.calls) {
            return Err(Error::from(kind));
        }
        let (front, _) = buffer.split_at(buffer.len().min(self.manner.most));
        self.bytes.extend_from_slice(front)?;
        Ok(front.len())
    }

    /// Fails if it was told to. There is nothing to write.
    fn flush(&mut self) -> io::Result<()>
        ensures bytes { Keeps (Some self.old.bytes) (Some self.new.bytes) }
        ensures same { self.new ≡ record self.old { flushes = one_more self.old.flushes } }
        ensures faulty { OnErr result (fails_now self.old.manner.flush_fails_at self.new.flushes ≡ true) }
        ensures sound { OnOk result (fails_now self.old.manner.flush_fails_at self.new.flushes ≡ false) }
    {
        self.flushes = self.flushes.saturating_add(1);
        if self.manner.flush_fails_at == Some(self.flushes) {
            return Err(Error::from(ErrorKind::ConnectionReset));
        }
        Ok(())
    }
}

impl Connection for MemoryWriter {
    ghost was_shut = { λ _. Unit {0} };

    /// Memory has no other end.
    fn shut(&self) {}
}

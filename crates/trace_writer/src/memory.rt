//! A sink over memory, which fails as it is told to.

ghost use Rattle.std.specs.Prelude.{◌≡◌, ◌+◌, ◌<◌, ◌^◌};
ghost use Rattle.trace_writer.specs.Memory.{fresh_sink};

use crate::sink::{Sink, SinkFailed};
use std::alloc::Global;
use std::marker::Model;

/// How a sink over memory answers its calls.
#[derive(Clone, Copy, Debug, PartialEq, Eq)]
pub struct Manner {
    /// How many bytes a write takes at most. It takes at least one.
    pub most: usize,
    /// Which write fails, if one does; the first is number 1.
    pub fails_at: Option<u64>,
    /// Whether a sync fails.
    pub sync_fails: bool,
}

impl Manner {
    /// Each write takes all bytes, and nothing fails.
    pub fn sound() -> Self {
        Manner {
            most: usize::MAX,
            fails_at: None,
            sync_fails: false,
        }
    }

    /// The first write fails.
    pub fn refusing() -> Self {
        Manner {
            fails_at: Some(1),
            ..Manner::sound()
        }
    }

    /// A write takes at most so many bytes, and that of this number fails.
    pub fn failing_at(write: u64, most: usize) -> Self {
        Manner {
            most,
            fails_at: Some(write),
            ..Manner::sound()
        }
    }

    /// Each write takes all bytes, and a sync fails.
    pub fn unsyncable() -> Self {
        Manner {
            sync_fails: true,
            ..Manner::sound()
        }
    }
}

/// A sink whose bytes stay in memory. For want of memory it fails too. Contracts see it as a `MemoryState`.
#[derive(Drop)]
pub struct MemorySink {
    bytes: Vec<u8>,
    writes: u64,
    failures: u64,
    is_synced: bool,
    manner: Manner,
}

impl Model for MemorySink {
    ghost use Rattle.trace_writer.specs.Memory.{MemoryState};

    ghost Value = { MemoryState };

    ghost view = { λ s. record { bytes = s.bytes.items; failures = s.failures; is_synced = s.is_synced } };
}

impl MemorySink {
    /// A sink that holds nothing yet.
    pub fn new(alloc: Global, manner: Manner) -> Self
        ensures { result ≡ fresh_sink }
    {
        MemorySink {
            bytes: Vec::new(alloc),
            writes: 0,
            failures: 0,
            is_synced: false,
            manner,
        }
    }

    /// The bytes that it took.
    pub fn bytes(&self) -> &[u8]
        ensures { result.now ≡ self.now.bytes }
    {
        self.bytes.as_slice()
    }

    /// How often it was written to.
    pub fn writes(&self) -> u64 {
        self.writes
    }

    /// Fails.
    fn fail(&mut self) -> SinkFailed
        requires { self.old.failures + 1 < 2 ^ 64 }
        ensures { self.new ≡ record self.old { failures = self.old.failures + 1 } }
    {
        self.failures += 1;
        SinkFailed
    }
}

impl Sink for MemorySink {
    ghost use Rattle.std.specs.Prelude.{Some, true};

    ghost contents = { λ s. Some s.bytes };

    ghost failures = { λ s. s.failures };

    ghost is_synced = { λ s. s.is_synced };

    ghost is_sound = { λ s. true };

    fn write(&mut self, bytes: &[u8]) -> Result<usize, SinkFailed> {
        self.is_synced = false;
        self.writes = self.writes.saturating_add(1);
        if self.manner.fails_at == Some(self.writes) {
            return Err(self.fail());
        }
        let (front, _) = bytes.split_at(bytes.len().min(self.manner.most.max(1)));
        if self.bytes.extend_from_slice(front).is_err() {
            return Err(self.fail());
        }
        Ok(front.len())
    }

    fn sync(&mut self) -> Result<(), SinkFailed> {
        if self.manner.sync_fails {
            return Err(self.fail());
        }
        self.is_synced = true;
        Ok(())
    }

    fn failures(&self) -> u64 {
        self.failures
    }
}

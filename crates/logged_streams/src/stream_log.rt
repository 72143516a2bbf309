//! What became of the calls on a stream.

ghost use Rattle.std.specs.Prelude.{◌≡◌, true, false, ◌+◌, ◌<◌, ◌≤◌, ◌⊎◌, ◌↔◌, ◌==◌, if◌then◌else◌, IfOk, IfErr};
ghost use Rattle.std.specs.IoError.{error_kind};
ghost use Rattle.logged_streams.specs.declared.stream_log.Gave.TheVariants as gave;
ghost use Rattle.logged_streams.specs.Streams.{fresh_log, noted, asked};

use std::io;
use std::io::ErrorKind;
use std::marker::Model;

/// How many interruptions in a row are a fault.
pub const INTERRUPTIONS_MAX: u32 = 16;

/// How many refusals in a row are a fault.
pub const REFUSALS_MAX: u32 = 1_000;

/// What one call on a stream gave.
#[derive(Clone, Copy, Debug, PartialEq, Eq)]
pub enum Gave {
    /// So many bytes were read or written.
    Bytes(usize),
    /// The reader is at its end.
    Nothing,
    /// The call was interrupted.
    Interrupted,
    /// The call failed, or the writer took no byte.
    Failed,
}

/// What became of the calls on one stream. Only those calls change it.
#[derive(Debug, Drop)]
pub struct StreamLog {
    calls: u64,
    moved: u64,
    interruptions: u32,
    failed: bool,
    refusals: u32,
}

impl Model for StreamLog {
    ghost use Rattle.logged_streams.specs.Streams.{LogState};

    ghost Value = { LogState };

    ghost view = { λ log. record { calls = log.calls; moved = log.moved; interruptions = log.interruptions; failed = log.failed; refusals = log.refusals } };

    ghost use Rattle.std.specs.Prelude.{◌≤◌};

    ghost invariant = { λ log. (log.interruptions ≤ 16) × (log.refusals ≤ 1000) };
}

impl StreamLog {
    /// No call yet.
    pub fn new() -> Self
        ensures { result ≡ fresh_log }
    {
        StreamLog {
            calls: 0,
            moved: 0,
            interruptions: 0,
            failed: false,
            refusals: 0,
        }
    }

    /// How many reads or writes there were.
    pub fn calls(&self) -> u64
        ensures { result ≡ self.now.calls }
    {
        self.calls
    }

    /// How many of them gave or took bytes.
    pub fn moved(&self) -> u64
        ensures { result ≡ self.now.moved }
    {
        self.moved
    }

    /// How many of the last calls were interrupted, one after another.
    pub fn interruptions(&self) -> u32
        ensures value { result ≡ self.now.interruptions }
        ensures few { result ≤ 16 }
    {
        self.interruptions
    }

    /// Whether a call failed. A writer that takes no byte, or that can't be flushed, has failed too.
    pub fn has_failed(&self) -> bool
        ensures { result ≡ self.now.failed }
    {
        self.failed
    }

    /// How many times in a row leave to write was refused, up to now. It stays 0 where nobody asks for leave.
    pub fn refusals(&self) -> u32
        ensures value { result ≡ self.now.refusals }
        ensures few { result ≤ 1000 }
    {
        self.refusals
    }

    /// Notes what one call gave.
    pub(crate) fn note(&mut self, gave: Gave)
        requires { self.old.interruptions < 16 }
        ensures { self.new ≡ noted self.old gave }
    {
        self.calls = self.calls.saturating_add(1);
        match gave {
            Gave::Bytes(_) => {
                self.moved = self.moved.saturating_add(1);
                self.interruptions = 0;
            }
            Gave::Nothing => self.interruptions = 0,
            Gave::Interrupted => self.interruptions += 1,
            Gave::Failed => {
                self.interruptions = 0;
                self.failed = true;
            }
        }
    }

    /// Notes that a call other than a read or a write failed: a flush.
    pub(crate) fn note_failure(&mut self)
        ensures { self.new ≡ record self.old { failed = true } }
    {
        self.failed = true;
    }

    /// Notes whether leave to write was given.
    pub(crate) fn note_leave(&mut self, is_given: bool)
        requires { self.old.refusals < 1000 }
        ensures { self.new ≡ asked self.old is_given }
    {
        if is_given {
            self.refusals = 0;
        } else {
            self.refusals += 1;
        }
    }
}

/// What a call that returned `told` gave; `none` is what a return of 0 bytes means.
pub(crate) fn gave_of(told: io::Result<usize>, none: Gave) -> Gave
    ensures ok { IfOk told (λ count. result ≡ (if count == 0 then none else gave.Bytes count)) }
    ensures interrupted { IfErr told (λ error. (result ≡ gave.Interrupted) ↔ (error_kind error ≡ ErrorKind.Interrupted)) }
    ensures failed { IfErr told (λ error. (result ≡ gave.Interrupted) ⊎ (result ≡ gave.Failed)) }
{
    match told {
        Ok(0) => none,
        Ok(count) => Gave::Bytes(count),
        Err(error) if error.kind() == ErrorKind::Interrupted => Gave::Interrupted,
        Err(_) => Gave::Failed,
    }
}

//! What takes the bytes of a trace.

ghost use Rattle.std.specs.Prelude.{◌≡◌, ◌+◌, ◌<◌, ◌^◌, ℕ, Bool, true, List, Option, length, IfOk, OnOk, OnErr};
ghost use Rattle.std.specs.Io.KnownBytes.{Keeps};
ghost use Rattle.logged_streams.specs.Streams.{SomeWritten, WritesFront};

use logged_streams::laws::fronts_grow;

/// The sink failed.
#[derive(Clone, Copy, Debug, PartialEq, Eq)]
pub struct SinkFailed;

/// What takes the bytes of a trace, and counts its own failures.
pub trait Sink {
    /// The bytes that it took, where that is known.
    ghost contents: { Self → Option (List ℕ) };

    /// How many of its calls failed.
    ghost failures: { Self → ℕ };

    /// Whether it was synced after the last write.
    ghost is_synced: { Self → Bool };

    /// Whether it may still be called. A failed call does not promise that: after a failure, stop calling it unless you
    /// know more about the sink.
    ghost is_sound: { Self → Bool };

    /// Takes a front of the bytes that is not empty, or fails and takes none.
    fn write(&mut self, bytes: &[u8]) -> Result<usize, SinkFailed>
        requires sound { is_sound self.old ≡ true }
        requires some { 0 < length bytes.now }
        requires few { failures self.old + 1 < 2 ^ 64 }
        ensures ok { IfOk result (λ count. SomeWritten (contents self.old) (contents self.new) bytes.now count) }
        ensures sound { OnOk result ((failures self.new ≡ failures self.old) × (is_sound self.new ≡ true)) }
        ensures keeps { OnErr result (Keeps (contents self.old) (contents self.new)) }
        ensures err { OnErr result (failures self.new ≡ failures self.old + 1) };

    /// Sees to it that what the sink took lasts, as fsync does, or fails.
    fn sync(&mut self) -> Result<(), SinkFailed>
        requires sound { is_sound self.old ≡ true }
        requires few { failures self.old + 1 < 2 ^ 64 }
        ensures keeps { Keeps (contents self.old) (contents self.new) }
        ensures ok { OnOk result ((failures self.new ≡ failures self.old) × (is_synced self.new ≡ true)) }
        ensures err { OnErr result (failures self.new ≡ failures self.old + 1) };

    /// How many of its calls failed.
    fn failures(&self) -> u64
        ensures { result ≡ failures self.now };
}

/// Writes bytes until all are written or the sink fails: how many were written.
pub(crate) fn write_all<S: Sink>(sink: &mut S, bytes: &[u8]) -> (usize, Result<(), SinkFailed>)
    requires sound { S.is_sound sink.old ≡ true }
    requires few { S.failures sink.old + 1 < 2 ^ 64 }
    ensures front { WritesFront (S.contents sink.old) (S.contents sink.new) bytes.now result.0 }
    ensures whole { OnOk result.1 ((result.0 ≡ length bytes.now) × (S.failures sink.new ≡ S.failures sink.old) × (S.is_sound sink.new ≡ true)) }
    ensures broken { OnErr result.1 (S.failures sink.new ≡ S.failures sink.old + 1) }
{
    fronts_grow();
    let mut written: usize = 0;
    while written < bytes.len() {
        let (_, rest) = bytes.split_at(written);
        match sink.write(rest) {
            Ok(count) => written += count,
            Err(failed) => return (written, Err(failed)),
        }
    }
    (written, Ok(()))
}

//! A trace of version 1 that is written as one of version 2, as its bytes come, in any pieces.

ghost use Rattle.std.specs.Prelude.{◌≡◌, ◌+◌, ◌≤◌, ◌++◌, length, IfOk, IfNone, IfSome};
ghost use Rattle.call_types.specs.Writing.{Appends};
ghost use Rattle.frame_codec.specs.Trace.{header_1};
ghost use Rattle.trace_writer.specs.Proved.Migrating.{IsUnderWay, LacksHeader, MayPass, PassesOn, TakesHeader, TakesPiece, fault_at, frames_length, fresh_migration, header_between, left_over, sent_of};

use frame_codec::decoder::{Decoder, Progress};
use frame_codec::frame_kind::Records;
use frame_codec::laws::pieces_go_on;
use frame_codec::trace::{HEADER_1_LENGTH, HEADER_2_LENGTH, ToldLimits, put_header};
use std::alloc::{AllocError, Global};
use std::marker::Model;

/// The header of version 1.
const HEADER_1: [u8; 8] = *b"FDTRACE1";

/// A trace of version 1 that is being written as one of version 2. It holds less than one frame of it, and keeps no record. Contracts
/// see it as a `MigrationState`.
#[derive(Drop)]
pub(crate) struct Migration {
    /// How many bytes of the old header were met.
    met: usize,
    /// Sees where frames end, and whether they are frames. It holds the bytes since the last whole one.
    decoder: Decoder<Records>,
    /// How many records there are so far.
    records: u64,
    /// How many bytes their frames have.
    passed: u64,
}

impl Model for Migration {
    ghost use Rattle.std.specs.Prelude.{◌≤◌, length};
    ghost use Rattle.frame_codec.specs.Trace.{header_1};
    ghost use Rattle.trace_writer.specs.MigrationState.{MigrationState};

    ghost Value = { MigrationState };

    ghost view = { λ m. record { met = m.met; decoder = m.decoder; records = m.records; passed = m.passed } };

    ghost invariant = { λ m. m.met ≤ length header_1 };
}

/// How many bytes of the old header are met with a piece, and what comes after them in it; nothing where one of them is another byte than
/// the header's.
fn after_header(met: usize, piece: &[u8]) -> Option<(usize, &[u8])>
    requires { met ≤ length header_1 }
    ensures lacks { IfNone result (LacksHeader met piece.now) }
    ensures takes { IfSome result (λ found. TakesHeader met found.0 piece.now found.1.now) }
{
    let (_, wanted) = HEADER_1.as_slice().split_at(met);
    let count = wanted.len().min(piece.len());
    let (front, rest) = piece.split_at(count);
    if front != &wanted[..count] {
        return None;
    }
    Some((met + count, rest))
}

/// Appends the new header, if the old one is whole only now.
fn put_between(out: &mut Vec<u8>, before: usize, met: usize) -> Result<(), AllocError>
    ensures { Appends result out.old.items out.new.items (header_between before met) }
{
    if before < HEADER_1_LENGTH && met >= HEADER_1_LENGTH {
        put_header(out, &ToldLimits::version_1())?;
    }
    Ok(())
}

/// How many of so many bytes belong to whole frames, where so many bytes were before them and so many are held.
fn frames_length(told: Progress, before: u64, long: usize, held: usize) -> usize
    ensures { result ≡ frames_length told before long held }
{
    match told {
        Progress::More => long.saturating_sub(held),
        Progress::Malformed { at } | Progress::TooLong { at } => at.saturating_sub(before) as usize,
    }
}

/// The byte of the trace at which a fault is, from the byte after the header that the decoder tells.
fn fault_at(told: Progress) -> Option<u64>
    ensures { result ≡ fault_at told }
{
    match told {
        Progress::More => None,
        Progress::Malformed { at } | Progress::TooLong { at } => {
            Some(at.saturating_add(HEADER_1_LENGTH as u64))
        }
    }
}

impl Migration {
    /// Before the first byte. It takes no memory.
    pub(crate) fn new(alloc: Global) -> Self
        ensures { result ≡ fresh_migration }
    {
        Migration {
            met: 0,
            decoder: Decoder::new(alloc),
            records: 0,
            passed: 0,
        }
    }

    /// How many records there are so far.
    pub(crate) fn records(&self) -> u64
        ensures { result ≡ self.now.records }
    {
        self.records
    }

    /// How many bytes of the new trace were passed on; the greatest number stands for those past it.
    pub(crate) fn sent(&self) -> u64
        ensures { result ≡ sent_of self.now }
    {
        if self.met < HEADER_1_LENGTH {
            return 0;
        }
        self.passed.saturating_add(HEADER_2_LENGTH as u64)
    }

    /// What is left over, if no byte comes after those that were taken.
    pub(crate) fn left_over(&self) -> &[u8]
        ensures { result.now ≡ left_over self.now }
    {
        if self.met < HEADER_1_LENGTH {
            let (front, _) = HEADER_1.as_slice().split_at(self.met);
            return front;
        }
        self.decoder.held()
    }

    /// Takes bytes that come after the header, and appends the frames that are whole with them: where the first fault is, if there is one.
    fn take_body(&mut self, out: &mut Vec<u8>, piece: &[u8]) -> Result<Option<u64>, AllocError>
        requires { MayPass self.old (length piece.now) }
        ensures met { self.new.met ≡ self.old.met }
        ensures passes { IfOk result (λ found. PassesOn piece.now self.old self.new out.old.items out.new.items found) }
    {
        pieces_go_on::<Records>();
        let start = out.len();
        out.extend_from_slice(self.decoder.held())?;
        out.extend_from_slice(piece)?;
        let long = out.len() - start;
        let fed = self.decoder.feed(piece)?;
        let count = frames_length(fed.progress, self.passed, long, self.decoder.held_len());
        out.truncate(start + count);
        self.passed += count as u64;
        self.records += fed.values.len() as u64;
        Ok(fault_at(fed.progress))
    }

    /// Takes the next bytes of the trace, of any length, and leaves in `out` what is to be written of them: where the first fault is, if
    /// there is one. After an error (memory ran out) or a fault do not go on.
    pub(crate) fn take(
        &mut self,
        out: &mut Vec<u8>,
        piece: &[u8],
    ) -> Result<Option<u64>, AllocError>
        requires { IsUnderWay self.old (length piece.now) }
        ensures { IfOk result (λ found. TakesPiece piece.now self.old self.new out.new.items found) }
    {
        out.clear();
        let Some((met, rest)) = after_header(self.met, piece) else {
            return Ok(Some(0));
        };
        put_between(out, self.met, met)?;
        self.met = met;
        self.take_body(out, rest)
    }
}

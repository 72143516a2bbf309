//! The bytes of a trace after its header, judged as they come, in any pieces.

ghost use Rattle.std.specs.Prelude.{◌≡◌, ◌≤◌, true, is_some, IfOk, length};
ghost use Rattle.call_types.specs.declared.limits.TheConstants.{OFFSET_MAX};
ghost use Rattle.audit_core.specs.Proved.Taking.{fault_at, fresh_body, TakesAfter, TakesBody};

use crate::judge::Judge;
use crate::judging::Judging;
use crate::verdict::{Ending, Verdict};
use frame_codec::decoder::{Decoder, FedTo, Progress};
use frame_codec::frame_kind::Records;
use frame_codec::laws::pieces_go_on;
use frame_codec::trace::ToldLimits;
use std::alloc::{AllocError, Global};
use std::marker::Model;

/// What is audited after a header. It holds less than one frame, and keeps no record.
#[derive(Drop)]
pub(crate) struct Body {
    /// How many bytes the header has.
    headed: u64,
    decoder: Decoder<Records>,
    judging: Judging,
}

impl Model for Body {
    ghost use Rattle.audit_core.specs.TraceState.{BodyState};

    ghost Value = { BodyState };

    ghost view = { λ b. record { headed = b.headed; decoder = b.decoder; judge = b.judging.judge } };
}

/// The verdict on a fault of frames, if there is one, after a header of so many bytes.
fn fault_at(told: Progress, headed: u64) -> Option<Verdict>
    ensures { result ≡ fault_at told headed }
{
    match told {
        Progress::More => None,
        Progress::Malformed { at } | Progress::TooLong { at } => Some(Verdict::Malformed {
            at: at.saturating_add(headed),
        }),
    }
}

impl Body {
    /// Before the first byte after a header of so many bytes that tells this. It takes no memory.
    pub(crate) fn new(alloc: Global, told: ToldLimits, headed: u64) -> Self
        requires { told.bounds.file_size ≤ OFFSET_MAX }
        ensures { result ≡ fresh_body told headed }
    {
        Body {
            headed,
            decoder: Decoder::new(alloc),
            judging: Judging {
                alloc,
                judge: Judge::new(alloc, told),
                expected: None,
            },
        }
    }

    /// How many whole records there were.
    pub(crate) fn records(&self) -> u64
        ensures { result ≡ self.now.judge.place }
    {
        self.judging.judge.place()
    }

    /// How the whole records end.
    pub(crate) fn ending(&self) -> Ending
        ensures { result ≡ self.now.judge.ending }
    {
        self.judging.judge.ending()
    }

    /// How many bytes come after the last whole record.
    pub(crate) fn rest(&self) -> u64
        ensures { result ≡ length self.now.decoder.held }
    {
        self.decoder.held_len() as u64
    }

    /// Takes the next bytes, of any length, and judges the records that they complete. Returns the verdict once no further byte can
    /// change it. After an error (memory or numbers ran out) do not go on.
    pub(crate) fn take(&mut self, piece: &[u8]) -> Result<Option<Verdict>, AllocError>
        ensures { IfOk result (λ found. TakesBody piece.now self.old self.new found) }
    {
        pieces_go_on::<Records>();
        match self.decoder.feed_to(piece, &mut self.judging)? {
            FedTo::All(progress) => Ok(fault_at(progress, self.headed)),
            FedTo::Enough => Ok(Some(Verdict::Illegal {
                place: self.judging.judge.place(),
                expected: self.judging.expected.take(),
            })),
        }
    }
}

/// Takes the next bytes after a header that was met, as `Body::take` does.
pub(crate) fn take_after(
    body: &mut Option<Body>,
    piece: &[u8],
) -> Result<Option<Verdict>, AllocError>
    requires { is_some body.old ≡ true }
    ensures { IfOk result (λ found. TakesAfter piece.now body.old body.new found) }
{
    match body {
        Some(body) => body.take(piece),
        None => unreachable!(),
    }
}

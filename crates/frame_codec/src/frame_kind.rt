//! What a stream of frames carries: requests, answers or records.

ghost use Rattle.std.specs.Prelude.{◌≡◌};
ghost use Rattle.frame_codec.specs.Frames.{GivesValue};

use crate::answer::Answer;
use crate::answers::answer_of;
use crate::fault::PayloadFault;
use crate::records::record_of;
use crate::requests::request_of;
use call_types::act::Record;
use call_types::limits::RECORD_LENGTH_MAX;
use call_types::request::Request;
use std::alloc::Global;

/// The bytes of a request's payload, at most.
pub const REQUEST_LENGTH_MAX: usize = 65_792;

/// What the payloads of a stream spell, and how long they may be.
pub trait FrameKind {
    ghost use Rattle.std.specs.Prelude.{ℕ, List};

    /// What a payload spells.
    type Value: Drop;

    ghost most: { ℕ };

    ghost spells: { Self.Value → List ℕ → Type 0 };

    /// How many bytes a payload has, at most.
    fn most() -> usize
        ensures { result ≡ most };

    /// The value that a payload spells.
    fn value(alloc: Global, payload: &[u8]) -> Result<Self::Value, PayloadFault>
        ensures { GivesValue spells result payload.now };
}

/// The requests that clients send.
pub struct Requests;

impl FrameKind for Requests {
    ghost use Rattle.frame_codec.specs.Requests.{SpellsRequest};

    type Value = Request;

    ghost most = { 65792 };

    ghost spells = { SpellsRequest };

    fn most() -> usize {
        REQUEST_LENGTH_MAX
    }

    fn value(alloc: Global, payload: &[u8]) -> Result<Request, PayloadFault> {
        request_of(alloc, payload)
    }
}

/// The answers that clients are sent.
pub struct Answers;

impl FrameKind for Answers {
    ghost use Rattle.frame_codec.specs.Answers.{SpellsAnswer};

    type Value = Answer;

    ghost most = { 66048 };

    ghost spells = { SpellsAnswer };

    fn most() -> usize {
        RECORD_LENGTH_MAX
    }

    fn value(alloc: Global, payload: &[u8]) -> Result<Answer, PayloadFault> {
        answer_of(alloc, payload)
    }
}

/// The records of a run, as a trace has them.
pub struct Records;

impl FrameKind for Records {
    ghost use Rattle.frame_codec.specs.Records.{SpellsRecord};

    type Value = Record;

    ghost most = { 66048 };

    ghost spells = { SpellsRecord };

    fn most() -> usize {
        RECORD_LENGTH_MAX
    }

    fn value(alloc: Global, payload: &[u8]) -> Result<Record, PayloadFault> {
        record_of(alloc, payload)
    }
}

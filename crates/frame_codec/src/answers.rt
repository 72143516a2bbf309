//! Answers, read from their payloads.

ghost use Rattle.std.specs.Int.{w64};
ghost use Rattle.frame_codec.specs.declared.answer.Answer.TheVariants as answers;
ghost use Rattle.frame_codec.specs.Proved.Reading.{Gives, as_at, two_at, number_at, payload_at};
ghost use Rattle.frame_codec.specs.Proved.ReadingAnswers.{outcome_at, refusal_at, recorded_of, answer_at};

use crate::answer::Answer;
use crate::fault::PayloadFault;
use crate::fields::number64;
use crate::outcomes::{outcome, refusal};
use std::alloc::Global;

/// The place and the outcome of a record.
fn recorded(alloc: Global, bytes: &[u8]) -> Result<(Answer, &[u8]), PayloadFault>
    ensures { Gives (λ x. (x.0, x.1.now)) result (as_at (two_at (number_at w64) outcome_at) recorded_of bytes.now) }
{
    let (place, rest) = number64(bytes)?;
    let (outcome, rest) = outcome(alloc, rest)?;
    Ok((Answer::Recorded { place, outcome }, rest))
}

/// The refusal at the front.
fn refused(bytes: &[u8]) -> Result<(Answer, &[u8]), PayloadFault>
    ensures { Gives (λ x. (x.0, x.1.now)) result (as_at refusal_at answers.Refused bytes.now) }
{
    let (refusal, rest) = refusal(bytes)?;
    Ok((Answer::Refused(refusal), rest))
}

/// The answer at the front.
fn answer(alloc: Global, bytes: &[u8]) -> Result<(Answer, &[u8]), PayloadFault>
    ensures { Gives (λ x. (x.0, x.1.now)) result (answer_at bytes.now) }
{
    match bytes {
        [1, rest @ ..] => recorded(alloc, rest),
        [2, rest @ ..] => refused(rest),
        _ => Err(PayloadFault::Malformed),
    }
}

/// The answer of a payload.
pub(crate) fn answer_of(alloc: Global, payload: &[u8]) -> Result<Answer, PayloadFault>
    ensures { Gives (λ x. x) result (payload_at answer_at payload.now) }
{
    let (answer, rest) = answer(alloc, payload)?;
    if !rest.is_empty() {
        return Err(PayloadFault::Malformed);
    }
    Ok(answer)
}

//! Records, read from their payloads.

ghost use Rattle.std.specs.Prelude.{◌≡◌};
ghost use Rattle.call_types.specs.declared.act.Act.TheVariants as acts;
ghost use Rattle.frame_codec.specs.Proved.Reading.{Gives, as_at, payload_at};
ghost use Rattle.frame_codec.specs.Proved.ReadingRequests.{call_at};
ghost use Rattle.frame_codec.specs.Proved.ReadingRecords.{act_at, may_act, acted_at, record_at};

use crate::calls::call;
use crate::fault::PayloadFault;
use crate::fields::number32;
use crate::outcomes::outcome;
use call_types::act::{Act, HOUSE, Record};
use std::alloc::Global;

/// The call at the front.
fn called(alloc: Global, bytes: &[u8]) -> Result<(Act, &[u8]), PayloadFault>
    ensures { Gives (λ x. (x.0, x.1.now)) result (as_at call_at acts.Call bytes.now) }
{
    let (call, rest) = call(alloc, bytes)?;
    Ok((Act::Call(call), rest))
}

/// The act at the front.
#[tactic(auto, unfolding(crate::specs::Proved::ReadingRecords::act_at))]
fn act(alloc: Global, bytes: &[u8]) -> Result<(Act, &[u8]), PayloadFault>
    ensures { Gives (λ x. (x.0, x.1.now)) result (act_at bytes.now) }
{
    match bytes {
        [] => Err(PayloadFault::Malformed),
        [1, rest @ ..] => Ok((Act::Join, rest)),
        [2, rest @ ..] => Ok((Act::Attach, rest)),
        [3, rest @ ..] => Ok((Act::Resume, rest)),
        [4, rest @ ..] => Ok((Act::Exit, rest)),
        [5, rest @ ..] => Ok((Act::CloseRun, rest)),
        [_, ..] => called(alloc, bytes),
    }
}

/// Whether an act may have an actor.
pub(crate) fn is_its_actor(act: &Act, actor: u32) -> bool
    ensures { result ≡ may_act act.now actor }
{
    match act {
        Act::CloseRun => actor == HOUSE,
        Act::Join | Act::Attach | Act::Call(_) | Act::Resume | Act::Exit => true,
    }
}

/// The actor at the front, and its act.
fn acted(alloc: Global, bytes: &[u8]) -> Result<((u32, Act), &[u8]), PayloadFault>
    ensures { Gives (λ x. (x.0, x.1.now)) result (acted_at bytes.now) }
{
    let (actor, rest) = number32(bytes)?;
    let (act, rest) = act(alloc, rest)?;
    if !is_its_actor(&act, actor) {
        return Err(PayloadFault::Malformed);
    }
    Ok(((actor, act), rest))
}

/// The record at the front.
fn front_record(alloc: Global, bytes: &[u8]) -> Result<(Record, &[u8]), PayloadFault>
    ensures { Gives (λ x. (x.0, x.1.now)) result (record_at bytes.now) }
{
    let ((actor, act), rest) = acted(alloc, bytes)?;
    let (outcome, rest) = outcome(alloc, rest)?;
    Ok((
        Record {
            actor,
            act,
            outcome,
        },
        rest,
    ))
}

/// The record of a payload.
pub(crate) fn record_of(alloc: Global, payload: &[u8]) -> Result<Record, PayloadFault>
    ensures { Gives (λ x. x) result (payload_at record_at payload.now) }
{
    let (record, rest) = front_record(alloc, payload)?;
    if !rest.is_empty() {
        return Err(PayloadFault::Malformed);
    }
    Ok(record)
}

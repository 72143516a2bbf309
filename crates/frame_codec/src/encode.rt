//! Requests, answers and records as whole frames. A frame's length stands before its payload, so it is counted first.
#![tactic(auto, using(crate::proofs::Fronts::keeps_after), unfolding(crate::specs::Fields::number_bytes))]

ghost use Rattle.std.specs.Prelude.{◌≡◌, ◌+◌, ◌≤◌, true, false, length};
ghost use Rattle.call_types.specs.Writing.{Appends};
ghost use Rattle.call_types.specs.declared.request.Request.TheVariants as requests;
ghost use Rattle.frame_codec.specs.declared.answer.Answer.TheVariants as answers;
ghost use Rattle.frame_codec.specs.Fields.{number_bytes};
ghost use Rattle.frame_codec.specs.Requests.{request_bytes, SpellsRequest};
ghost use Rattle.frame_codec.specs.Answers.{reply_bytes, outcome_bytes, refusal_bytes, answer_bytes};
ghost use Rattle.frame_codec.specs.Records.{act_bytes, record_bytes, SpellsRecord};
ghost use Rattle.frame_codec.specs.Frames.{frame, IsFrame, HasNoFrame};
ghost use Rattle.frame_codec.specs.Encoding.{Encodes};
ghost use Rattle.frame_codec.specs.declared.frame_kind.TheConstants.{REQUEST_LENGTH_MAX};

use crate::answer::Answer;
use crate::begun::HEAD;
use crate::calls::{encode_call, fields_bytes};
use crate::fault::EncodeFault;
use crate::put::{put_byte, put_u32, put_u64};
use crate::ranges::{call_fits, call_flags_fit, flags_fit, number_fits, record_is_in_range};
use crate::records::is_its_actor;
use crate::written_outcomes::{put_outcome, put_refusal};
use call_types::act::{Act, Record};
use call_types::limits::RECORD_LENGTH_MAX;
use call_types::outcome::{Outcome, Reply};
use call_types::refusal::Refusal;
use call_types::request::Request;
use std::alloc::AllocError;

/// How many bytes a request's payload has.
#[tactic(auto, using(crate::proofs::Lengths::call_length, crate::proofs::Lengths::attach_length))]
fn request_length(request: &Request) -> u32
    ensures { result ≡ length (request_bytes request.now) }
{
    match request {
        Request::Join => 1,
        Request::Attach { .. } => 5,
        Request::Call(call) => fields_bytes(call),
    }
}

/// Appends the payload of an attach.
#[tactic(auto, using(crate::proofs::Fronts::keeps_after))]
fn put_attach(out: &mut Vec<u8>, process: u32) -> Result<(), AllocError>
    ensures { Appends result out.old.items out.new.items (request_bytes (requests.Attach process)) }
{
    put_byte(out, 2)?;
    put_u32(out, process)?;
    Ok(())
}

/// Appends the payload of a request.
#[tactic(auto)]
fn put_request(out: &mut Vec<u8>, request: &Request) -> Result<(), AllocError>
    ensures { Appends result out.old.items out.new.items (request_bytes request.now) }
{
    match request {
        Request::Join => put_byte(out, 1),
        Request::Attach { process } => put_attach(out, *process),
        Request::Call(call) => encode_call(out, call),
    }
}

/// Whether a request has a frame: its flags are in range.
fn request_has_frame(request: &Request) -> bool
    ensures framed { result ≡ true → IsFrame SpellsRequest REQUEST_LENGTH_MAX request.now (frame (request_bytes request.now)) }
    ensures none { result ≡ false → HasNoFrame SpellsRequest REQUEST_LENGTH_MAX request.now }
{
    match request {
        Request::Join => true,
        Request::Attach { process } => {
            number_fits(*process);
            true
        }
        Request::Call(call) => {
            call_fits(call);
            call_flags_fit(call)
        }
    }
}

/// Appends the length of a request's payload, and the payload.
#[tactic(auto, using(crate::proofs::Fronts::keeps_after))]
fn put_request_frame(out: &mut Vec<u8>, request: &Request) -> Result<(), AllocError>
    ensures { Appends result out.old.items out.new.items (frame (request_bytes request.now)) }
{
    put_u32(out, request_length(request))?;
    put_request(out, request)?;
    Ok(())
}

/// Appends a request's frame, which reads as the request. An open or a setfl with a bit that is no flag has none: then nothing is
/// appended. After want of memory the bytes before are still the front.
pub fn encode_request(out: &mut Vec<u8>, request: &Request) -> Result<(), EncodeFault>
    ensures { Encodes SpellsRequest REQUEST_LENGTH_MAX request.now (frame (request_bytes request.now)) result out.old.items out.new.items }
{
    if !request_has_frame(request) {
        return Err(EncodeFault::Unspellable);
    }
    put_request_frame(out, request)?;
    Ok(())
}

/// How many bytes a reply has.
fn reply_length(reply: &Reply) -> u32
    ensures exact { result ≡ length (reply_bytes reply.now) }
    ensures few { result ≤ 65541 }
{
    match reply {
        Reply::Done => 1,
        Reply::Number(_) => 9,
        Reply::Data(bytes) => 5 + bytes.len() as u32,
        Reply::Pair(..) => 9,
        Reply::Stat(_) => 14,
        Reply::Error(_) => 2,
    }
}

/// How many bytes an outcome has.
fn outcome_length(outcome: &Outcome) -> u32
    ensures exact { result ≡ length (outcome_bytes outcome.now) }
    ensures few { result ≤ 65541 }
{
    match outcome {
        Outcome::Reply(reply) => reply_length(reply),
        Outcome::Parked { .. } => 5,
        Outcome::Part { .. } => 5,
    }
}

/// How many bytes a refusal has.
fn refusal_length(refusal: Refusal) -> u32
    ensures exact { result ≡ length (refusal_bytes refusal) }
    ensures few { result ≤ 17 }
{
    match refusal {
        Refusal::Foreign { .. } => 17,
        _ => 1,
    }
}

/// How many bytes the answer of a record has.
#[tactic(auto, using(crate::proofs::Lengths::recorded_length))]
fn recorded_length(place: u64, outcome: &Outcome) -> u32
    ensures { result ≡ length (answer_bytes (answers.Recorded place outcome.now)) }
{
    let _place = place;
    9 + outcome_length(outcome)
}

/// Appends the payload of a record's answer.
#[tactic(auto, using(crate::proofs::Fronts::keeps_after), unfolding(crate::specs::Answers::answer_bytes))]
fn put_recorded(out: &mut Vec<u8>, place: u64, outcome: &Outcome) -> Result<(), AllocError>
    ensures { Appends result out.old.items out.new.items (answer_bytes (answers.Recorded place outcome.now)) }
{
    put_byte(out, 1)?;
    put_u64(out, place)?;
    put_outcome(out, outcome)?;
    Ok(())
}

/// Appends the frame of the answer of the record at a place, which counts from 0. An error says that memory ran out; the bytes
/// before are still the front.
#[tactic(auto, using(crate::proofs::Fronts::keeps_after))]
pub fn encode_recorded(out: &mut Vec<u8>, place: u64, outcome: &Outcome) -> Result<(), AllocError>
    ensures { Appends result out.old.items out.new.items (frame (answer_bytes (answers.Recorded place outcome.now))) }
{
    put_u32(out, recorded_length(place, outcome))?;
    put_recorded(out, place, outcome)?;
    Ok(())
}

/// How many bytes the answer of a refusal has.
#[tactic(auto, unfolding(crate::specs::Answers::answer_bytes))]
fn refused_length(refusal: Refusal) -> u32
    ensures { result ≡ length (answer_bytes (answers.Refused refusal)) }
{
    1 + refusal_length(refusal)
}

/// Appends the payload of a refusal's answer.
#[tactic(auto, using(crate::proofs::Fronts::keeps_after), unfolding(crate::specs::Answers::answer_bytes))]
fn put_refused(out: &mut Vec<u8>, refusal: Refusal) -> Result<(), AllocError>
    ensures { Appends result out.old.items out.new.items (answer_bytes (answers.Refused refusal)) }
{
    put_byte(out, 2)?;
    put_refusal(out, refusal)?;
    Ok(())
}

/// Appends the frame of the answer that nothing was recorded. An error says that memory ran out; the bytes before are still the front.
#[tactic(auto, using(crate::proofs::Fronts::keeps_after))]
pub fn encode_refused(out: &mut Vec<u8>, refusal: Refusal) -> Result<(), AllocError>
    ensures { Appends result out.old.items out.new.items (frame (answer_bytes (answers.Refused refusal))) }
{
    put_u32(out, refused_length(refusal))?;
    put_refused(out, refusal)?;
    Ok(())
}

/// Appends an answer's frame. An error says that memory ran out; the bytes before are still the front.
#[tactic(auto)]
pub fn encode_answer(out: &mut Vec<u8>, answer: &Answer) -> Result<(), AllocError>
    ensures { Appends result out.old.items out.new.items (frame (answer_bytes answer.now)) }
{
    match answer {
        Answer::Recorded { place, outcome } => encode_recorded(out, *place, outcome),
        Answer::Refused(refusal) => encode_refused(out, *refusal),
    }
}

/// How many bytes an act has.
#[tactic(auto, using(crate::proofs::Lengths::call_length))]
fn act_length(act: &Act) -> u32
    ensures exact { result ≡ length (act_bytes act.now) }
    ensures few { result ≤ 65717 }
{
    match act {
        Act::Call(call) => fields_bytes(call),
        Act::Join | Act::Attach | Act::Resume | Act::Exit | Act::CloseRun => 1,
    }
}

/// How many bytes the frame of a record has at most: 8, and those of the longest act and of the longest outcome. No record of a run
/// has both.
pub const RECORD_FRAME_MAX: usize = 131_266;

/// How many bytes a record's payload has.
#[tactic(auto, using(crate::proofs::Lengths::record_length))]
fn record_length(record: &Record) -> u32
    ensures exact { result ≡ length (record_bytes «record».now) }
    ensures few { result ≤ 131262 }
{
    4 + act_length(&record.act) + outcome_length(&record.outcome)
}

/// The length in bytes of the frame that `encode_record` writes for a record.
#[tactic(auto, using(crate::proofs::Lengths::frame_length))]
pub fn record_frame_length(record: &Record) -> usize
    ensures exact { result ≡ length (frame (record_bytes «record».now)) }
    ensures few { result ≤ RECORD_FRAME_MAX }
{
    HEAD + record_length(record) as usize
}

/// Appends an act.
#[tactic(auto)]
fn put_act(out: &mut Vec<u8>, act: &Act) -> Result<(), AllocError>
    ensures { Appends result out.old.items out.new.items (act_bytes act.now) }
{
    match act {
        Act::Join => put_byte(out, 1),
        Act::Attach => put_byte(out, 2),
        Act::Call(call) => encode_call(out, call),
        Act::Resume => put_byte(out, 3),
        Act::Exit => put_byte(out, 4),
        Act::CloseRun => put_byte(out, 5),
    }
}

/// Appends the payload of a record.
#[tactic(auto, using(crate::proofs::Fronts::keeps_after), unfolding(crate::specs::Records::record_bytes))]
fn put_record(out: &mut Vec<u8>, record: &Record) -> Result<(), AllocError>
    ensures { Appends result out.old.items out.new.items (record_bytes «record».now) }
{
    put_u32(out, record.actor)?;
    put_act(out, &record.act)?;
    put_outcome(out, &record.outcome)?;
    Ok(())
}

/// Appends the length of a record's payload, and the payload.
#[tactic(auto, using(crate::proofs::Fronts::keeps_after))]
fn put_record_frame(out: &mut Vec<u8>, record: &Record) -> Result<(), AllocError>
    ensures { Appends result out.old.items out.new.items (frame (record_bytes «record».now)) }
{
    put_u32(out, record_length(record))?;
    put_record(out, record)?;
    Ok(())
}

/// Whether a record has a frame, which would have so many bytes: its flags are in range, its act may have its actor, and it is no longer
/// than a record may be.
fn has_frame(record: &Record, room: usize) -> bool
    requires { room ≡ length (frame (record_bytes «record».now)) }
    ensures framed { result ≡ true → IsFrame SpellsRecord RECORD_LENGTH_MAX «record».now (frame (record_bytes «record».now)) }
    ensures none { result ≡ false → HasNoFrame SpellsRecord RECORD_LENGTH_MAX «record».now }
{
    record_is_in_range(record);
    if !flags_fit(&record.act) {
        return false;
    }
    if !is_its_actor(&record.act, record.actor) {
        return false;
    }
    room <= HEAD + RECORD_LENGTH_MAX
}

/// Appends a record's frame, which reads as the record. Some records have none: those with a bit that is no flag, a closing by
/// another actor than `HOUSE`, and those of more than `RECORD_LENGTH_MAX` bytes, as a long write that is answered with long data. Then
/// nothing is appended. After want of memory the bytes before are still the front. See `records_have_frames`.
pub fn encode_record(out: &mut Vec<u8>, record: &Record) -> Result<(), EncodeFault>
    ensures encodes { Encodes SpellsRecord RECORD_LENGTH_MAX «record».now (frame (record_bytes «record».now)) result out.old.items out.new.items }
    ensures few { length (frame (record_bytes «record».now)) ≤ RECORD_FRAME_MAX }
{
    let room = record_frame_length(record);
    if !has_frame(record, room) {
        return Err(EncodeFault::Unspellable);
    }
    out.reserve(room)?;
    put_record_frame(out, record)?;
    Ok(())
}

//! What a record says of its act, and why nothing was recorded, appended to a frame.
#![tactic(auto, using(crate::proofs::Fronts::keeps_after))]

ghost use Rattle.std.specs.Prelude.{◌≡◌, ◌++◌, ◌∷◌, []};
ghost use Rattle.std.specs.Int.{w32, w64};
ghost use Rattle.call_types.specs.Errors.{error_number};
ghost use Rattle.call_types.specs.Writing.{Appends};
ghost use Rattle.frame_codec.specs.Fields.{number_bytes, counted_bytes};
ghost use Rattle.frame_codec.specs.Answers.{kind_byte, stat_bytes, reply_bytes, outcome_bytes, refusal_bytes};

use crate::put::{put_byte, put_counted, put_u32, put_u64};
use call_types::bounded::Content;
use call_types::errno::Errno;
use call_types::outcome::{FileType, Outcome, Reply, Stat};
use call_types::refusal::Refusal;
use std::alloc::AllocError;

/// The byte of a kind of file.
fn file_byte(kind: FileType) -> u8
    ensures { result ≡ kind_byte kind }
{
    match kind {
        FileType::Regular => 0,
        FileType::Fifo => 1,
        FileType::Pipe => 2,
    }
}

/// Appends what fstat tells.
fn put_stat(out: &mut Vec<u8>, stat: Stat) -> Result<(), AllocError>
    ensures { Appends result out.old.items out.new.items (stat_bytes stat) }
{
    put_byte(out, file_byte(stat.kind))?;
    put_u64(out, stat.size)?;
    put_u32(out, stat.links)?;
    Ok(())
}

/// Appends the reply of a number.
fn put_number(out: &mut Vec<u8>, number: u64) -> Result<(), AllocError>
    ensures { Appends result out.old.items out.new.items (2 ∷ number_bytes w64 number) }
{
    put_byte(out, 2)?;
    put_u64(out, number)?;
    Ok(())
}

/// Appends the reply of what was read.
fn put_content(out: &mut Vec<u8>, bytes: &Content) -> Result<(), AllocError>
    ensures { Appends result out.old.items out.new.items (3 ∷ counted_bytes bytes.now) }
{
    put_byte(out, 3)?;
    put_counted(out, bytes.span())?;
    Ok(())
}

/// Appends the reply of two descriptors.
fn put_pair(out: &mut Vec<u8>, first: u32, second: u32) -> Result<(), AllocError>
    ensures { Appends result out.old.items out.new.items (4 ∷ (number_bytes w32 first ++ number_bytes w32 second)) }
{
    put_byte(out, 4)?;
    put_u32(out, first)?;
    put_u32(out, second)?;
    Ok(())
}

/// Appends the reply of an fstat.
fn put_told(out: &mut Vec<u8>, stat: Stat) -> Result<(), AllocError>
    ensures { Appends result out.old.items out.new.items (5 ∷ stat_bytes stat) }
{
    put_byte(out, 5)?;
    put_stat(out, stat)?;
    Ok(())
}

/// Appends the reply of an error.
fn put_error(out: &mut Vec<u8>, errno: Errno) -> Result<(), AllocError>
    ensures { Appends result out.old.items out.new.items (6 ∷ error_number errno ∷ []) }
{
    put_byte(out, 6)?;
    put_byte(out, errno.number())?;
    Ok(())
}

/// Appends a reply.
fn put_reply(out: &mut Vec<u8>, reply: &Reply) -> Result<(), AllocError>
    ensures { Appends result out.old.items out.new.items (reply_bytes reply.now) }
{
    match reply {
        Reply::Done => put_byte(out, 1),
        Reply::Number(number) => put_number(out, *number),
        Reply::Data(bytes) => put_content(out, bytes),
        Reply::Pair(first, second) => put_pair(out, *first, *second),
        Reply::Stat(stat) => put_told(out, *stat),
        Reply::Error(errno) => put_error(out, *errno),
    }
}

/// Appends a byte and a count of bytes.
fn put_moved(out: &mut Vec<u8>, byte: u8, moved: u32) -> Result<(), AllocError>
    ensures { Appends result out.old.items out.new.items (byte ∷ number_bytes w32 moved) }
{
    put_byte(out, byte)?;
    put_u32(out, moved)?;
    Ok(())
}

/// Appends an outcome. An error says that memory ran out; the bytes before are still the front.
pub fn put_outcome(out: &mut Vec<u8>, outcome: &Outcome) -> Result<(), AllocError>
    ensures { Appends result out.old.items out.new.items (outcome_bytes outcome.now) }
{
    match outcome {
        Outcome::Reply(reply) => put_reply(out, reply),
        Outcome::Parked { moved } => put_moved(out, 7, *moved),
        Outcome::Part { moved } => put_moved(out, 8, *moved),
    }
}

/// Appends the refusal of a seat that has seen more records than there are.
fn put_foreign(out: &mut Vec<u8>, seen: u64, len: u64) -> Result<(), AllocError>
    ensures { Appends result out.old.items out.new.items (21 ∷ (number_bytes w64 seen ++ number_bytes w64 len)) }
{
    put_byte(out, 21)?;
    put_u64(out, seen)?;
    put_u64(out, len)?;
    Ok(())
}

/// Appends a refusal. An error says that memory ran out; the bytes before are still the front.
pub fn put_refusal(out: &mut Vec<u8>, refusal: Refusal) -> Result<(), AllocError>
    ensures { Appends result out.old.items out.new.items (refusal_bytes refusal) }
{
    match refusal {
        Refusal::NoMemory => put_byte(out, 17),
        Refusal::RunFull => put_byte(out, 18),
        Refusal::Waiting => put_byte(out, 19),
        Refusal::NotHere => put_byte(out, 20),
        Refusal::Foreign { seen, len } => put_foreign(out, seen, len),
    }
}

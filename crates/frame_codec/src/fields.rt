//! The fields at the front of a payload.

ghost use Rattle.std.specs.Prelude.{◌≡◌, IfErr};
ghost use Rattle.std.specs.Int.{w32, w64};
ghost use Rattle.call_types.specs.CallTable.{a_descriptor, a_position, a_count, a_name, a_payload, some_flags, a_whence};
ghost use Rattle.frame_codec.specs.Proved.Reading.{Gives, front_at, number_at, counted_at};
ghost use Rattle.frame_codec.specs.Proved.ReadingRequests.{field_at};

use crate::fault::PayloadFault;
use bitflags::Flags;
use call_types::bounded::{Data, Name, Payload};
use call_types::flags::OpenFlags;
use call_types::whence::Whence;
use std::alloc::Global;

/// The number of four bytes at the front.
#[tactic(auto, unfolding(crate::specs::Proved::Reading::number_at))]
pub(crate) fn number32(bytes: &[u8]) -> Result<(u32, &[u8]), PayloadFault>
    ensures { Gives (λ x. (x.0, x.1.now)) result (number_at w32 bytes.now) }
{
    if bytes.len() < 4 {
        return Err(PayloadFault::Malformed);
    }
    let (front, rest) = bytes.split_at(4);
    let number = u32::from_be_bytes([front[0], front[1], front[2], front[3]]);
    Ok((number, rest))
}

/// The number of eight bytes at the front.
#[tactic(auto, unfolding(crate::specs::Proved::Reading::number_at))]
pub(crate) fn number64(bytes: &[u8]) -> Result<(u64, &[u8]), PayloadFault>
    ensures { Gives (λ x. (x.0, x.1.now)) result (number_at w64 bytes.now) }
{
    if bytes.len() < 8 {
        return Err(PayloadFault::Malformed);
    }
    let (front, rest) = bytes.split_at(8);
    let number = u64::from_be_bytes([
        front[0], front[1], front[2], front[3], front[4], front[5], front[6], front[7],
    ]);
    Ok((number, rest))
}

/// So many bytes at the front.
fn front(count: usize, bytes: &[u8]) -> Result<(&[u8], &[u8]), PayloadFault>
    ensures { Gives (λ x. (x.0.now, x.1.now)) result (front_at count bytes.now) }
{
    if bytes.len() < count {
        return Err(PayloadFault::Malformed);
    }
    Ok(bytes.split_at(count))
}

/// The bytes after their count, of which there are at most `most`.
fn counted(most: usize, bytes: &[u8]) -> Result<(&[u8], &[u8]), PayloadFault>
    ensures { Gives (λ x. (x.0.now, x.1.now)) result (counted_at most bytes.now) }
{
    let (count, rest) = number32(bytes)?;
    let count = count as usize;
    if count > most {
        return Err(PayloadFault::Malformed);
    }
    front(count, rest)
}

/// A copy of the bytes after their count, of which there are at most `MOST`.
pub(crate) fn data<const MOST: usize>(
    alloc: Global,
    bytes: &[u8],
) -> Result<(Data<MOST>, &[u8]), PayloadFault>
    ensures { Gives (λ x. (x.0, x.1.now)) result (counted_at MOST bytes.now) }
{
    let (text, rest) = counted(MOST, bytes)?;
    Ok((Data::copied(alloc, text)?, rest))
}

/// The count at the front.
pub(crate) fn count(bytes: &[u8]) -> Result<(u32, &[u8]), PayloadFault>
    ensures { Gives (λ x. (x.0, x.1.now)) result (field_at a_count bytes.now) }
{
    number32(bytes)
}

/// The descriptor at the front.
pub(crate) fn descriptor(bytes: &[u8]) -> Result<(i32, &[u8]), PayloadFault>
    ensures { Gives (λ x. (x.0, x.1.now)) result (field_at a_descriptor bytes.now) }
{
    let (number, rest) = number32(bytes)?;
    Ok((number.cast_signed(), rest))
}

/// The position, offset or length at the front.
pub(crate) fn position(bytes: &[u8]) -> Result<(i64, &[u8]), PayloadFault>
    ensures { Gives (λ x. (x.0, x.1.now)) result (field_at a_position bytes.now) }
{
    let (number, rest) = number64(bytes)?;
    Ok((number.cast_signed(), rest))
}

/// The name at the front, after its length in one byte.
pub(crate) fn name(alloc: Global, bytes: &[u8]) -> Result<(Name, &[u8]), PayloadFault>
    ensures { Gives (λ x. (x.0, x.1.now)) result (field_at a_name bytes.now) }
{
    match bytes {
        [] => Err(PayloadFault::Malformed),
        [len, rest @ ..] => {
            let (text, rest) = front(*len as usize, rest)?;
            Ok((Name::copied(alloc, text)?, rest))
        }
    }
}

/// The data at the front, after its length in four bytes.
pub(crate) fn payload(alloc: Global, bytes: &[u8]) -> Result<(Payload, &[u8]), PayloadFault>
    ensures { Gives (λ x. (x.0, x.1.now)) result (field_at a_payload bytes.now) }
{
    data(alloc, bytes)
}

/// The flags at the front.
pub(crate) fn flags(bytes: &[u8]) -> Result<(OpenFlags, &[u8]), PayloadFault>
    ensures { Gives (λ x. (x.0.0, x.1.now)) result (field_at some_flags bytes.now) }
{
    match bytes {
        [bits, rest @ ..] if *bits < 128 => Ok((OpenFlags::from_bits_retain(*bits), rest)),
        _ => Err(PayloadFault::Malformed),
    }
}

/// The base of an offset at the front.
pub(crate) fn whence(bytes: &[u8]) -> Result<(Whence, &[u8]), PayloadFault>
    ensures reads { Gives (λ x. (x.0, x.1.now)) result (field_at a_whence bytes.now) }
    ensures fault { IfErr result (λ fault. fault ≡ PayloadFault.Malformed) }
{
    match bytes {
        [0, rest @ ..] => Ok((Whence::Set, rest)),
        [1, rest @ ..] => Ok((Whence::Cur, rest)),
        [2, rest @ ..] => Ok((Whence::End, rest)),
        _ => Err(PayloadFault::Malformed),
    }
}

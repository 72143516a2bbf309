//! Numbers and counted bytes, appended to a frame.
#![tactic(auto, using(crate::proofs::Fronts::keeps), unfolding(crate::specs::Fields::number_bytes))]

ghost use Rattle.std.specs.Prelude.{◌<◌, ◌^◌, ◌∷◌, [], length, replicate};
ghost use Rattle.std.specs.Int.{w32, w64, cast_unsigned};
ghost use Rattle.call_types.specs.Stored.{span_bytes};
ghost use Rattle.call_types.specs.Writing.{Appends};
ghost use Rattle.frame_codec.specs.Fields.{number_bytes, counted_bytes};

use call_types::span::Span;
use std::alloc::AllocError;

/// Appends bytes.
#[inline(always)]
pub(crate) fn put(out: &mut Vec<u8>, bytes: &[u8]) -> Result<(), AllocError>
    ensures { Appends result out.old.items out.new.items bytes.now }
{
    out.extend_from_slice(bytes)?;
    Ok(())
}

/// Appends a byte.
#[inline(always)]
pub(crate) fn put_byte(out: &mut Vec<u8>, byte: u8) -> Result<(), AllocError>
    ensures { Appends result out.old.items out.new.items (byte ∷ []) }
{
    out.push(byte)?;
    Ok(())
}

/// Appends a number of four bytes.
#[inline(always)]
pub(crate) fn put_u32(out: &mut Vec<u8>, number: u32) -> Result<(), AllocError>
    ensures { Appends result out.old.items out.new.items (number_bytes w32 number) }
{
    out.extend_from_slice(&number.to_be_bytes())?;
    Ok(())
}

/// Appends a number of eight bytes.
#[inline(always)]
pub(crate) fn put_u64(out: &mut Vec<u8>, number: u64) -> Result<(), AllocError>
    ensures { Appends result out.old.items out.new.items (number_bytes w64 number) }
{
    out.extend_from_slice(&number.to_be_bytes())?;
    Ok(())
}

/// Appends a descriptor, in two's complement.
#[inline(always)]
pub(crate) fn put_descriptor(out: &mut Vec<u8>, fd: i32) -> Result<(), AllocError>
    ensures { Appends result out.old.items out.new.items (number_bytes w32 (cast_unsigned w32 fd)) }
{
    put_u32(out, fd.cast_unsigned())
}

/// Appends a position, an offset or a length, in two's complement.
#[inline(always)]
pub(crate) fn put_position(out: &mut Vec<u8>, position: i64) -> Result<(), AllocError>
    ensures { Appends result out.old.items out.new.items (number_bytes w64 (cast_unsigned w64 position)) }
{
    put_u64(out, position.cast_unsigned())
}

/// Appends one byte, so many times.
fn put_same(out: &mut Vec<u8>, byte: u8, count: usize) -> Result<(), AllocError>
    ensures { Appends result out.old.items out.new.items (replicate count byte) }
{
    for _written in 0..count {
        out.push(byte)?;
    }
    Ok(())
}

/// Appends the bytes of a part.
fn put_part(out: &mut Vec<u8>, part: Span<'_>) -> Result<(), AllocError>
    ensures { Appends result out.old.items out.new.items (span_bytes part.entry) }
{
    match part {
        Span::Slice(bytes) => put(out, bytes),
        Span::Same { byte, count } => put_same(out, byte, count),
    }
}

/// Appends data, after its length in four bytes.
#[tactic(auto, using(crate::proofs::Fronts::keeps_after))]
pub(crate) fn put_counted(out: &mut Vec<u8>, part: Span<'_>) -> Result<(), AllocError>
    requires few { length (span_bytes part) < 2 ^ 32 }
    ensures { Appends result out.old.items out.new.items (counted_bytes (span_bytes part.entry)) }
{
    put_u32(out, part.len() as u32)?;
    put_part(out, part)?;
    Ok(())
}

/// Appends a name, after its length in one byte.
#[tactic(auto, using(crate::proofs::Fronts::keeps_after))]
pub(crate) fn put_name(out: &mut Vec<u8>, name: &[u8]) -> Result<(), AllocError>
    requires few { length name.now < 256 }
    ensures { Appends result out.old.items out.new.items (length name.now ∷ name.now) }
{
    put_byte(out, name.len() as u8)?;
    put(out, name)?;
    Ok(())
}

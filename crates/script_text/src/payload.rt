//! Data to write, read from a word and written as one.

ghost use Rattle.std.specs.Prelude.{◌≡◌, ◌≤◌, ◌+◌, ◌*◌, ◌++◌, ◌==◌, codes, decimal, length, IfOk, IfSome, replicate, ◌<◌, ◌^◌};
ghost use Rattle.std.specs.Option.{option_map};
ghost use Rattle.std.specs.List.{flat_map, list_all};
ghost use Rattle.call_types.specs.declared.limits.TheConstants.{GIVEN_BYTES_MAX};
ghost use Rattle.call_types.specs.Stored.{span_bytes};
ghost use Rattle.script_text.specs.Lines.{hex_pair, one_byte, data_word};
ghost use Rattle.script_text.specs.ReadingData.{hex_bytes, hex_data, repeated_data, data_of};
ghost use Rattle.script_text.specs.Proved.Decoded.{first_paired};
ghost use Rattle.script_text.specs.Proved.Room.{HasRoom, UsesRoom, data_room};

use crate::hexadecimal::{byte_value, hex_digits, put_hex};
use crate::number::number_value;
use crate::put::{put, put_number};
use call_types::bounded::Payload;
use call_types::gathered::Gathered;
use call_types::limits::GIVEN_BYTES_MAX;
use call_types::span::Span;
use hex::encode_to_slice;
use std::alloc::{AllocError, Global};

/// Data of so many bytes at most is written out, even where all of them are the same.
pub(crate) const WRITTEN_OUT_MAX: usize = 16;

/// Bytes of data that is written as a byte and a count, at most.
const REPEATED_ROOM: usize = 23;

/// Room for the word of data, whichever it is, without the digits of what stands in memory.
const FEW_DATA_ROOM: usize = 64;

/// The byte of the first pair of digits, and what is left after it.
fn first_pair(digits: &[u8]) -> Option<(u8, &[u8])>
    ensures value { option_map (λ x. (x.0, x.1.now)) result ≡ first_paired digits.now }
    ensures shorter { IfSome result (λ x. length x.1.now + 2 ≡ length digits.now) }
{
    match digits {
        [high, low, rest @ ..] => Some((byte_value(*high, *low)?, rest)),
        _ => None,
    }
}

/// The bytes that pairs of digits stand for.
fn paired_bytes(alloc: Global, digits: &[u8]) -> Result<Option<Gathered>, AllocError>
    ensures { IfOk result (λ bytes. option_map (λ b. b.0) bytes ≡ hex_bytes digits.now) }
{
    let mut bytes = Gathered::with_room(alloc, digits.len() / 2)?;
    let mut rest = digits;
    while !rest.is_empty() {
        let Some((byte, after)) = first_pair(rest) else {
            return Ok(None);
        };
        bytes.push(byte);
        rest = after;
    }
    Ok(Some(bytes))
}

/// The data that digits stand for, unless it is more than a call may give.
fn hex_value(alloc: Global, digits: &[u8]) -> Result<Option<Payload>, AllocError>
    ensures { IfOk result (λ payload. payload ≡ hex_data digits.now) }
{
    if digits.len() > 2 * GIVEN_BYTES_MAX {
        return Ok(None);
    }
    match paired_bytes(alloc, digits)? {
        None => Ok(None),
        Some(bytes) => Ok(Some(Payload::new(alloc, bytes)?)),
    }
}

/// The data that two digits, a `*` and a count stand for.
fn repeated_value(word: &[u8]) -> Option<Payload>
    ensures { result ≡ repeated_data word.now }
{
    let [high, low, b'*', digits @ ..] = word else {
        return None;
    };
    let byte = byte_value(*high, *low)?;
    let count = number_value(GIVEN_BYTES_MAX as u32, digits)?;
    Some(Payload::same(byte, count as usize))
}

/// The data that a word spells.
pub(crate) fn data_value(alloc: Global, word: &[u8]) -> Result<Option<Payload>, AllocError>
    ensures { IfOk result (λ payload. payload ≡ data_of word.now) }
{
    match word {
        [b'x', digits @ ..] => hex_value(alloc, digits),
        _ => Ok(repeated_value(word)),
    }
}

/// Appends so many zeros.
fn put_zeros(out: &mut Vec<u8>, count: usize)
    requires { HasRoom out.old count }
    ensures text { out.new.items ≡ out.old.items ++ replicate count 0 }
    ensures room { UsesRoom out.old out.new count }
{
    match out.resize(out.len() + count, 0) {
        Ok(()) => {}
        Err(_) => unreachable!(),
    }
}

/// Appends the digits of a few bytes. They are gathered in an array, where one more costs less than in a vector.
fn put_few_pairs(out: &mut Vec<u8>, bytes: &[u8])
    requires few { length bytes.now ≤ WRITTEN_OUT_MAX }
    requires room { HasRoom out.old (2 * length bytes.now) }
    ensures text { out.new.items ≡ out.old.items ++ flat_map hex_pair bytes.now }
    ensures room { UsesRoom out.old out.new (2 * length bytes.now) }
{
    let mut digits = [0; 2 * WRITTEN_OUT_MAX];
    let mut end = 0;
    for byte in bytes {
        let [high, low] = hex_digits(*byte);
        digits[end] = high;
        digits[end + 1] = low;
        end += 2;
    }
    put(out, &digits[..end]);
}

/// Appends the digits of bytes, which may be many.
fn put_many_pairs(out: &mut Vec<u8>, bytes: &[u8])
    requires few { length bytes.now ≤ GIVEN_BYTES_MAX }
    requires room { HasRoom out.old (2 * length bytes.now) }
    ensures text { out.new.items ≡ out.old.items ++ flat_map hex_pair bytes.now }
    ensures room { UsesRoom out.old out.new (2 * length bytes.now) }
{
    let start = out.len();
    put_zeros(out, 2 * bytes.len());
    match encode_to_slice(bytes, &mut out[start..]) {
        Ok(()) => {}
        Err(_) => unreachable!(),
    }
}

/// Appends an `x` and the digits of bytes.
fn put_digits(out: &mut Vec<u8>, bytes: &[u8])
    requires few { length bytes.now ≤ GIVEN_BYTES_MAX }
    requires room { HasRoom out.old (2 * length bytes.now + 1) }
    ensures text { out.new.items ≡ out.old.items ++ (codes "x" ++ flat_map hex_pair bytes.now) }
    ensures room { UsesRoom out.old out.new (2 * length bytes.now + 1) }
{
    out.push_reserved(b'x');
    if bytes.len() <= WRITTEN_OUT_MAX {
        put_few_pairs(out, bytes);
    } else {
        put_many_pairs(out, bytes);
    }
}

/// Appends a byte, a `*` and a count.
fn put_repeated(out: &mut Vec<u8>, byte: u8, count: u64)
    requires { HasRoom out.old REPEATED_ROOM }
    ensures text { out.new.items ≡ out.old.items ++ (hex_pair byte ++ codes "*" ++ decimal count) }
    ensures room { UsesRoom out.old out.new REPEATED_ROOM }
{
    put_hex(out, byte);
    out.push_reserved(b'*');
    put_number(out, count);
}

/// Whether each of the bytes is `byte`.
fn all_are(byte: u8, bytes: &[u8]) -> bool
    ensures { result ≡ list_all (λ b. b == byte) bytes.now }
{
    bytes.iter().all(|b| *b == byte)
}

/// The byte of data that is written as a byte and a count: more than 16 bytes, all the same. `None` for other data.
pub(crate) fn repeated_byte(bytes: &[u8]) -> Option<u8>
    ensures { result ≡ one_byte bytes.now }
{
    match bytes {
        [first, ..] if bytes.len() > WRITTEN_OUT_MAX => all_are(*first, bytes).then_some(*first),
        _ => None,
    }
}

/// Appends data that stands in memory.
fn put_slice(out: &mut Vec<u8>, bytes: &[u8])
    requires few { length bytes.now ≤ GIVEN_BYTES_MAX }
    requires room { HasRoom out.old (data_room bytes.now) }
    ensures text { out.new.items ≡ out.old.items ++ data_word bytes.now }
    ensures room { UsesRoom out.old out.new (data_room bytes.now) }
{
    match repeated_byte(bytes) {
        None => put_digits(out, bytes),
        Some(byte) => put_repeated(out, byte, bytes.len() as u64),
    }
}

/// Appends data of one byte, which stands so many times.
fn put_same(out: &mut Vec<u8>, byte: u8, count: usize)
    requires { HasRoom out.old (data_room (replicate count byte)) }
    ensures text { out.new.items ≡ out.old.items ++ data_word (replicate count byte) }
    ensures room { UsesRoom out.old out.new (data_room (replicate count byte)) }
{
    if count > WRITTEN_OUT_MAX {
        put_repeated(out, byte, count as u64);
    } else {
        put_digits(out, &[byte; WRITTEN_OUT_MAX][..count]);
    }
}

/// Appends data.
pub(crate) fn put_data(out: &mut Vec<u8>, part: Span<'_>)
    requires few { length (span_bytes part) ≤ GIVEN_BYTES_MAX }
    requires room { HasRoom out.old (data_room (span_bytes part)) }
    ensures text { out.new.items ≡ out.old.items ++ data_word (span_bytes part.entry) }
    ensures room { UsesRoom out.old out.new (data_room (span_bytes part.entry)) }
{
    match part {
        Span::Slice(bytes) => put_slice(out, bytes),
        Span::Same { byte, count } => put_same(out, byte, count),
    }
}

/// Room in which data can be written.
pub(crate) fn room_of_data(part: Span<'_>) -> usize
    requires { length (span_bytes part) ≤ GIVEN_BYTES_MAX }
    ensures enough { data_room (span_bytes part.entry) ≤ result }
    ensures small { result < 2 ^ 24 }
{
    match part {
        Span::Slice(bytes) => 2 * bytes.len() + FEW_DATA_ROOM,
        Span::Same { .. } => FEW_DATA_ROOM,
    }
}

//! Words of digits, and the strings that spell them.

ghost use Rattle.std.specs.Prelude.{◌≡◌, ◌≤◌, ◌<◌, ◌+◌, ◌++◌, length, IfSome, IfOk, OnOk};
ghost use Rattle.std.specs.Option.{option_map};
ghost use Rattle.std.specs.List.{flat_map};
ghost use Rattle.text_forms.specs.Scripts.{text_of, as_text, is_text, is_text_word, paired, spelled};
ghost use Rattle.text_forms.specs.Proved.Scripts.{first_paired};
ghost use Rattle.script_text.specs.ReadingNumbers.{hex_digit};

use crate::scripts::strings::{ends_word, is_printable};
use std::alloc::AllocError;

/// The value of a digit.
fn hex_digit(c: u8) -> Option<u8>
    ensures value { result ≡ hex_digit c }
    ensures small { IfSome result (λ digit. digit < 16) }
{
    match c {
        b'0'..=b'9' => Some(c - b'0'),
        b'a'..=b'f' => Some(c - b'a' + 10),
        _ => None,
    }
}

/// Whether a byte can stand in a string.
fn is_text(byte: u8) -> bool
    ensures { result ≡ is_text byte }
{
    is_printable(byte) || byte == b'\t' || byte == b'\n' || byte == b'\r'
}

/// A byte that can stand in a string.
fn as_text(byte: u8) -> Option<u8>
    ensures { result ≡ as_text byte }
{
    if is_text(byte) { Some(byte) } else { None }
}

/// The byte of two digits, where it can stand in a string.
fn text_of(high: u8, low: u8) -> Option<u8>
    ensures { result ≡ text_of (hex_digit high) (hex_digit low) }
{
    let front = hex_digit(high)?;
    let end = hex_digit(low)?;
    as_text(front * 16 + end)
}

/// The byte of the first pair of digits, where it can stand in a string, and what is left after it.
fn first_paired(digits: &[u8]) -> Option<(u8, &[u8])>
    ensures value { option_map (λ x. (x.0, x.1.now)) result ≡ first_paired digits.now }
    ensures shorter { IfSome result (λ x. length x.1.now < length digits.now) }
{
    match digits {
        [high, low, rest @ ..] => Some((text_of(*high, *low)?, rest)),
        _ => None,
    }
}

/// How many bytes pairs of digits make from here on, as far as they can stand in a string, and what is left after these.
fn skip_paired(digits: &[u8]) -> (usize, &[u8])
    ensures count { result.0 ≡ length (paired digits.now).0 }
    ensures left { result.1.now ≡ (paired digits.now).1 }
    ensures within { result.0 + length result.1.now ≤ length digits.now }
{
    let mut count = 0;
    let mut left = digits;
    while let Some((_, rest)) = first_paired(left) {
        count += 1;
        left = rest;
    }
    (count, left)
}

/// Whether a word begins here that a string can spell: an `x`, and at least one pair of digits.
pub(crate) fn is_text_word(left: &[u8]) -> bool
    ensures { result ≡ is_text_word left.now }
{
    let [b'x', digits @ ..] = left else {
        return false;
    };
    let (count, after) = skip_paired(digits);
    count > 0 && ends_word(after)
}

/// Appends a byte as it is spelled in a string.
fn put_spelled(out: &mut Vec<u8>, byte: u8) -> Result<(), AllocError>
    ensures { OnOk result (out.new.items ≡ out.old.items ++ spelled byte) }
{
    match byte {
        b'\n' => out.extend_from_slice(b"\\n"),
        b'\t' => out.extend_from_slice(b"\\t"),
        b'\r' => out.extend_from_slice(b"\\r"),
        b'"' => out.extend_from_slice(b"\\\""),
        b'\\' => out.extend_from_slice(b"\\\\"),
        _ => out.extend_from_slice(&[byte]),
    }
}

/// Appends the bytes that digits make, as a string spells them, and gives what is left after the digits.
pub(crate) fn put_paired<'a>(out: &mut Vec<u8>, digits: &'a [u8]) -> Result<&'a [u8], AllocError>
    ensures { IfOk result (λ left. (out.new.items ≡ out.old.items ++ flat_map spelled (paired digits.now).0) × (left.now ≡ (paired digits.now).1)) }
{
    let mut left = digits;
    while let Some((byte, rest)) = first_paired(left) {
        put_spelled(out, byte)?;
        left = rest;
    }
    Ok(left)
}

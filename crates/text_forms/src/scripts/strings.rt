//! Strings, and the digits that spell their bytes in a plain line.

ghost use Rattle.std.specs.Prelude.{◌≡◌, ◌≤◌, ◌<◌, ◌+◌, ◌++◌, length, IfSome, OnOk};
ghost use Rattle.std.specs.Option.{option_map, option_copied};
ghost use Rattle.std.specs.List.{flat_map};
ghost use Rattle.text_forms.specs.Scripts.{is_printable, itself, escaped, inside, ends_word, closes, opened, string_in};
ghost use Rattle.text_forms.specs.Proved.Scripts.{first_inside};
ghost use Rattle.script_text.specs.Lines.{hex_glyph, hex_pair};

use crate::scripts::Lines;
use crate::scripts::marks::{Sought, begins_with, data_part, from_first};
use std::alloc::AllocError;

/// Whether a byte is one from 32 to 126.
pub(crate) fn is_printable(byte: u8) -> bool
    ensures { result ≡ is_printable byte }
{
    byte >= b' ' && byte <= b'~'
}

/// The byte that a byte of a string is by itself.
fn itself(byte: u8) -> Option<u8>
    ensures { result ≡ itself byte }
{
    if is_printable(byte) && byte != b'"' && byte != b'\\' {
        Some(byte)
    } else {
        None
    }
}

/// The byte that a byte after a backslash makes.
fn escaped(byte: u8) -> Option<u8>
    ensures { result ≡ escaped byte }
{
    match byte {
        b'n' => Some(b'\n'),
        b't' => Some(b'\t'),
        b'r' => Some(b'\r'),
        b'"' => Some(b'"'),
        b'\\' => Some(b'\\'),
        _ => None,
    }
}

/// The first byte inside a string, and what is left after it.
fn first_inside(bytes: &[u8]) -> Option<(u8, &[u8])>
    ensures value { option_map (λ x. (x.0, x.1.now)) result ≡ first_inside bytes.now }
    ensures shorter { IfSome result (λ x. length x.1.now < length bytes.now) }
{
    match bytes {
        [b'\\', second, rest @ ..] => Some((escaped(*second)?, rest)),
        [first, rest @ ..] => Some((itself(*first)?, rest)),
        [] => None,
    }
}

/// How many bytes a string has that begins here, and what is left from the first byte on that is none of it.
pub(crate) fn skip_inside(bytes: &[u8]) -> (usize, &[u8])
    ensures count { result.0 ≡ length (inside bytes.now).0 }
    ensures left { result.1.now ≡ (inside bytes.now).1 }
    ensures within { result.0 + length result.1.now ≤ length bytes.now }
{
    let mut count = 0;
    let mut left = bytes;
    while let Some((_, rest)) = first_inside(left) {
        count += 1;
        left = rest;
    }
    (count, left)
}

/// Whether a word ends here.
pub(crate) fn ends_word(left: &[u8]) -> bool
    ensures { result ≡ ends_word left.now }
{
    match left {
        [first, ..] => *first == b' ',
        [] => true,
    }
}

/// Whether a string ends here, and its word with it.
fn closes(left: &[u8]) -> bool
    ensures { result ≡ closes left.now }
{
    match left {
        [first, rest @ ..] => *first == b'"' && ends_word(rest),
        [] => false,
    }
}

/// What stands after a quote that a string begins with.
fn opened(left: &[u8]) -> Option<&[u8]>
    ensures value { option_copied result ≡ opened left.now }
    ensures within { IfSome result (λ string. length string.now < length left.now) }
{
    match left {
        [b'"', string @ ..] if closes(skip_inside(string).1) => Some(string),
        _ => None,
    }
}

/// What stands after the quote of the string that a line of acts has.
pub(crate) fn string_in(line: &[u8]) -> Option<&[u8]>
    ensures value { option_copied result ≡ string_in line.now }
    ensures within { IfSome result (λ string. length string.now < length line.now) }
{
    if begins_with(b'#', line) {
        return None;
    }
    opened(from_first(Sought::AnyMark, data_part(Lines::Acts, line)?)?)
}

/// The digit of a value.
fn hex_glyph(value: u8) -> u8
    requires { value < 16 }
    ensures { result ≡ hex_glyph value }
{
    if value < 10 {
        b'0' + value
    } else {
        b'a' - 10 + value
    }
}

/// The two digits of a byte.
fn hex_pair(byte: u8) -> [u8; 2]
    ensures { result ≡ hex_pair byte }
{
    [hex_glyph(byte / 16), hex_glyph(byte % 16)]
}

/// Appends the two digits of a byte.
fn put_hex(out: &mut Vec<u8>, byte: u8) -> Result<(), AllocError>
    ensures { OnOk result (out.new.items ≡ out.old.items ++ hex_pair byte) }
{
    out.extend_from_slice(&hex_pair(byte))
}

/// Appends the digits of the bytes of a string that begins here.
pub(crate) fn put_inside(out: &mut Vec<u8>, string: &[u8]) -> Result<(), AllocError>
    ensures { OnOk result (out.new.items ≡ out.old.items ++ flat_map hex_pair (inside string.now).0) }
{
    let mut left = string;
    while let Some((byte, rest)) = first_inside(left) {
        put_hex(out, byte)?;
        left = rest;
    }
    Ok(())
}

//! Bytes by two lower case hexadecimal digits each.

ghost use Rattle.std.specs.Prelude.{◌≡◌, ◌<◌, ◌++◌};
ghost use Rattle.script_text.specs.Lines.{hex_glyph, hex_pair};
ghost use Rattle.script_text.specs.ReadingNumbers.{hex_digit, hex_byte};
ghost use Rattle.script_text.specs.Proved.Room.{HasRoom, UsesRoom};

use crate::put::put;

/// The value of a digit.
fn digit_value(c: u8) -> Option<u8>
    ensures { result ≡ hex_digit c }
{
    match c {
        b'0'..=b'9' => Some(c - b'0'),
        b'a'..=b'f' => Some(c - b'a' + 10),
        _ => None,
    }
}

/// The byte that two digits stand for.
pub(crate) fn byte_value(high: u8, low: u8) -> Option<u8>
    ensures { result ≡ hex_byte high low }
{
    let high = digit_value(high)?;
    let low = digit_value(low)?;
    Some(high * 16 + low)
}

/// The digit of a value.
fn digit(value: u8) -> u8
    requires { value < 16 }
    ensures { result ≡ hex_glyph value }
{
    if value < 10 {
        b'0' + value
    } else {
        b'a' - 10 + value
    }
}

/// The two digits of a byte.
pub(crate) fn hex_digits(byte: u8) -> [u8; 2]
    ensures { result ≡ hex_pair byte }
{
    [digit(byte / 16), digit(byte % 16)]
}

/// Appends the two digits of a byte.
pub(crate) fn put_hex(out: &mut Vec<u8>, byte: u8)
    requires { HasRoom out.old 2 }
    ensures text { out.new.items ≡ out.old.items ++ hex_pair byte }
    ensures room { UsesRoom out.old out.new 2 }
{
    put(out, &hex_digits(byte));
}

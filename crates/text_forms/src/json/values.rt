//! The values of members: numbers, strings and data.

ghost use Rattle.std.specs.Prelude.{◌≡◌, ◌<◌, ◌≤◌, ◌*◌, ◌^◌, ◌++◌, ◌∷◌, [], OnOk, decimal, length, replicate};
ghost use Rattle.std.specs.Fmt.{signed_decimal};
ghost use Rattle.hex.specs.Hex.{encode_lower};
ghost use Rattle.call_types.specs.declared.limits.TheConstants.{GIVEN_BYTES_MAX};
ghost use Rattle.call_types.specs.Stored.{span_bytes};
ghost use Rattle.text_forms.specs.Json.{data_value, quoted};

use call_types::span::Span;
use hex::encode_to_slice;
use itoa::Buffer;
use std::alloc::AllocError;

/// Appends a text.
pub(crate) fn put(out: &mut Vec<u8>, text: &[u8]) -> Result<(), AllocError>
    ensures { OnOk result (out.new.items ≡ out.old.items ++ text.now) }
{
    out.extend_from_slice(text)
}

/// Appends a number.
pub(crate) fn put_decimal(out: &mut Vec<u8>, number: u64) -> Result<(), AllocError>
    ensures { OnOk result (out.new.items ≡ out.old.items ++ decimal number) }
{
    let mut buffer = Buffer::new();
    put(out, buffer.format(number).as_bytes())
}

/// Appends a number that may have a sign.
pub(crate) fn put_signed_decimal(out: &mut Vec<u8>, number: i64) -> Result<(), AllocError>
    ensures { OnOk result (out.new.items ≡ out.old.items ++ signed_decimal number) }
{
    let mut buffer = Buffer::new();
    put(out, buffer.format(number).as_bytes())
}

/// Appends the string of a text, of which no byte needs a `\`.
pub(crate) fn put_quoted(out: &mut Vec<u8>, text: &[u8]) -> Result<(), AllocError>
    ensures { OnOk result (out.new.items ≡ out.old.items ++ quoted text.now) }
{
    put(out, b"\"")?;
    put(out, text)?;
    put(out, b"\"")
}

/// The two digits of a byte.
pub(crate) fn hex_digits(byte: u8) -> [u8; 2]
    ensures { result ≡ encode_lower (byte ∷ []) }
{
    let mut digits = [0; 2];
    match encode_to_slice(&[byte], &mut digits) {
        Ok(()) => digits,
        Err(_) => unreachable!(),
    }
}

/// Appends the digits of bytes.
fn put_pairs(out: &mut Vec<u8>, bytes: &[u8]) -> Result<(), AllocError>
    requires { length bytes.now ≤ GIVEN_BYTES_MAX }
    ensures { OnOk result (out.new.items ≡ out.old.items ++ encode_lower bytes.now) }
{
    let start = out.len();
    out.resize(start + 2 * bytes.len(), 0)?;
    match encode_to_slice(bytes, &mut out[start..]) {
        Ok(()) => Ok(()),
        Err(_) => unreachable!(),
    }
}

/// Appends the digits of one byte, so many times.
fn put_same(out: &mut Vec<u8>, byte: u8, count: usize) -> Result<(), AllocError>
    ensures { OnOk result (out.new.items ≡ out.old.items ++ encode_lower (replicate count byte)) }
{
    let digits = hex_digits(byte);
    for _time in 0..count {
        put(out, &digits)?;
    }
    Ok(())
}

/// Appends data.
pub(crate) fn put_data_value(out: &mut Vec<u8>, part: Span<'_>) -> Result<(), AllocError>
    requires { length (span_bytes part) ≤ GIVEN_BYTES_MAX }
    ensures { OnOk result (out.new.items ≡ out.old.items ++ data_value (span_bytes part.entry)) }
{
    put(out, b"\"")?;
    match part {
        Span::Slice(bytes) => put_pairs(out, bytes)?,
        Span::Same { byte, count } => put_same(out, byte, count)?,
    }
    put(out, b"\"")
}

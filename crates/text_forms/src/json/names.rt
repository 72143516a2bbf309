//! Names: strings of their spelling in scripts.

ghost use Rattle.std.specs.Prelude.{◌≡◌, ◌++◌, OnOk};
ghost use Rattle.std.specs.List.{flat_map};
ghost use Rattle.text_forms.specs.Json.{coded_byte, is_plain, name_byte, name_value, name_word, string_byte};

use crate::json::values::{hex_digits, put};
use std::alloc::AllocError;

/// Whether a byte of a name stands for itself.
fn is_plain(byte: u8) -> bool
    ensures { result ≡ is_plain byte }
{
    byte.is_ascii_graphic() && byte != b'%'
}

/// Appends a byte of a string, with a `\` before it where it needs one.
fn put_string_byte(out: &mut Vec<u8>, byte: u8) -> Result<(), AllocError>
    ensures { OnOk result (out.new.items ≡ out.old.items ++ string_byte byte) }
{
    if byte == b'"' || byte == b'\\' {
        put(out, b"\\")?;
    }
    put(out, &[byte])
}

/// Appends a byte of a name that does not stand for itself.
fn put_coded(out: &mut Vec<u8>, byte: u8) -> Result<(), AllocError>
    ensures { OnOk result (out.new.items ≡ out.old.items ++ coded_byte byte) }
{
    put(out, b"%")?;
    put(out, &hex_digits(byte))
}

/// Appends a byte of a name.
fn put_name_byte(out: &mut Vec<u8>, byte: u8) -> Result<(), AllocError>
    ensures { OnOk result (out.new.items ≡ out.old.items ++ flat_map string_byte (name_byte byte)) }
{
    if is_plain(byte) {
        put_string_byte(out, byte)
    } else {
        put_coded(out, byte)
    }
}

/// Appends the bytes of a name.
fn put_name_bytes(out: &mut Vec<u8>, name: &[u8]) -> Result<(), AllocError>
    ensures { OnOk result (out.new.items ≡ out.old.items ++ flat_map string_byte (flat_map name_byte name.now)) }
{
    for byte in name {
        put_name_byte(out, *byte)?;
    }
    Ok(())
}

/// Appends a name.
pub(crate) fn put_name_value(out: &mut Vec<u8>, name: &[u8]) -> Result<(), AllocError>
    ensures { OnOk result (out.new.items ≡ out.old.items ++ name_value name.now) }
{
    if name.is_empty() {
        return put(out, b"\"%\"");
    }
    put(out, b"\"")?;
    put_name_bytes(out, name)?;
    put(out, b"\"")
}

//! Names, read from a word and written as one.

ghost use Rattle.std.specs.Prelude.{◌≡◌, ◌<◌, ◌*◌, ◌++◌, length, IfOk, IfSome, Some};
ghost use Rattle.std.specs.Option.{option_map};
ghost use Rattle.std.specs.List.{flat_map};
ghost use Rattle.call_types.specs.declared.limits.TheConstants.{GIVEN_NAME_MAX};
ghost use Rattle.script_text.specs.Lines.{name_byte, name_word};
ghost use Rattle.script_text.specs.ReadingNames.{decoded, name_of, is_plain, at_most};
ghost use Rattle.script_text.specs.Proved.Decoded.{first_decoded};
ghost use Rattle.script_text.specs.Proved.Room.{HasRoom, UsesRoom, name_room};

use crate::hexadecimal::{byte_value, put_hex};
use call_types::bounded::Name;
use call_types::gathered::Gathered;
use call_types::limits::GIVEN_NAME_MAX;
use std::alloc::{AllocError, Global};

/// Whether a byte of a name stands for itself.
fn is_plain(byte: u8) -> bool
    ensures { result ≡ is_plain byte }
{
    byte.is_ascii_graphic() && byte != b'%'
}

/// The first byte that a word of a name stands for, and what is left after it.
fn first_byte(word: &[u8]) -> Option<(u8, &[u8])>
    ensures value { option_map (λ x. (x.0, x.1.now)) result ≡ first_decoded word.now }
    ensures shorter { IfSome result (λ x. length x.1.now < length word.now) }
{
    match word {
        [b'%', high, low, rest @ ..] => Some((byte_value(*high, *low)?, rest)),
        [byte, rest @ ..] if is_plain(*byte) => Some((*byte, rest)),
        _ => None,
    }
}

/// The bytes that a word of a name stands for.
fn decoded_bytes(alloc: Global, word: &[u8]) -> Result<Option<Gathered>, AllocError>
    ensures { IfOk result (λ bytes. option_map (λ b. b.0) bytes ≡ decoded word.now) }
{
    let mut bytes = Gathered::with_room(alloc, word.len())?;
    let mut rest = word;
    while !rest.is_empty() {
        let Some((byte, after)) = first_byte(rest) else {
            return Ok(None);
        };
        bytes.push(byte);
        rest = after;
    }
    Ok(Some(bytes))
}

/// A name, unless it is longer than a call may give it.
fn short_name(alloc: Global, bytes: Gathered) -> Result<Option<Name>, AllocError>
    ensures { IfOk result (λ name. name ≡ at_most GIVEN_NAME_MAX (Some bytes.0)) }
{
    if bytes.len() > GIVEN_NAME_MAX {
        return Ok(None);
    }
    Ok(Some(Name::new(alloc, bytes)?))
}

/// The name that a word spells.
pub(crate) fn name_value(alloc: Global, word: &[u8]) -> Result<Option<Name>, AllocError>
    ensures { IfOk result (λ name. name ≡ name_of word.now) }
{
    match word {
        [] => Ok(None),
        [b'%'] => Ok(Some(Name::copied(alloc, b"")?)),
        _ => match decoded_bytes(alloc, word)? {
            None => Ok(None),
            Some(bytes) => short_name(alloc, bytes),
        },
    }
}

/// Appends a byte of a name.
fn put_name_byte(out: &mut Vec<u8>, byte: u8)
    requires { HasRoom out.old 3 }
    ensures text { out.new.items ≡ out.old.items ++ name_byte byte }
    ensures room { UsesRoom out.old out.new 3 }
{
    if is_plain(byte) {
        out.push_reserved(byte);
        return;
    }
    out.push_reserved(b'%');
    put_hex(out, byte);
}

/// Appends the bytes of a name.
fn put_name_bytes(out: &mut Vec<u8>, name: &[u8])
    requires { HasRoom out.old (3 * length name.now) }
    ensures text { out.new.items ≡ out.old.items ++ flat_map name_byte name.now }
    ensures room { UsesRoom out.old out.new (3 * length name.now) }
{
    for byte in name {
        put_name_byte(out, *byte);
    }
}

/// Appends a name.
pub(crate) fn put_name(out: &mut Vec<u8>, name: &[u8])
    requires { HasRoom out.old (name_room name.now) }
    ensures text { out.new.items ≡ out.old.items ++ name_word name.now }
    ensures room { UsesRoom out.old out.new (name_room name.now) }
{
    if name.is_empty() {
        out.push_reserved(b'%');
        return;
    }
    put_name_bytes(out, name);
}

//! Members of objects, each with the comma before the next one.

ghost use Rattle.std.specs.Prelude.{◌≡◌, ◌≤◌, ◌++◌, OnOk, codes, length};
ghost use Rattle.call_types.specs.declared.limits.TheConstants.{GIVEN_BYTES_MAX};
ghost use Rattle.text_forms.specs.Json.{data_member, fd_member, flags_member, json_key, name_member, names_members, number_member, signed_member, word_member};

use crate::json::flags::put_flags_value;
use crate::json::names::put_name_value;
use crate::json::values::{put, put_data_value, put_decimal, put_quoted, put_signed_decimal};
use call_types::bounded::{Name, Payload};
use call_types::flags::OpenFlags;
use std::alloc::AllocError;

/// Appends a key and its colon.
pub(crate) fn put_key(out: &mut Vec<u8>, key: &[u8]) -> Result<(), AllocError>
    ensures { OnOk result (out.new.items ≡ out.old.items ++ json_key key.now) }
{
    put(out, b"\"")?;
    put(out, key)?;
    put(out, b"\":")
}

/// Appends a number of a member.
pub(crate) fn put_number(out: &mut Vec<u8>, key: &[u8], number: u64) -> Result<(), AllocError>
    ensures { OnOk result (out.new.items ≡ out.old.items ++ number_member key.now number) }
{
    put_key(out, key)?;
    put_decimal(out, number)?;
    put(out, b",")
}

/// Appends a descriptor, position, offset or length.
pub(crate) fn put_signed(out: &mut Vec<u8>, key: &[u8], number: i64) -> Result<(), AllocError>
    ensures { OnOk result (out.new.items ≡ out.old.items ++ signed_member key.now number) }
{
    put_key(out, key)?;
    put_signed_decimal(out, number)?;
    put(out, b",")
}

/// Appends a word, of which no byte needs a `\`.
pub(crate) fn put_word(out: &mut Vec<u8>, key: &[u8], word: &[u8]) -> Result<(), AllocError>
    ensures { OnOk result (out.new.items ≡ out.old.items ++ word_member key.now word.now) }
{
    put_key(out, key)?;
    put_quoted(out, word)?;
    put(out, b",")
}

/// Appends the descriptor that a call is on.
pub(crate) fn put_fd(out: &mut Vec<u8>, fd: i32) -> Result<(), AllocError>
    ensures { OnOk result (out.new.items ≡ out.old.items ++ fd_member fd) }
{
    put_signed(out, b"fd", i64::from(fd))
}

/// Appends a name.
pub(crate) fn put_name(out: &mut Vec<u8>, key: &[u8], name: &Name) -> Result<(), AllocError>
    ensures { OnOk result (out.new.items ≡ out.old.items ++ name_member key.now name.now) }
{
    put_key(out, key)?;
    put_name_value(out, name.as_slice())?;
    put(out, b",")
}

/// Appends the two names of a link or a rename.
pub(crate) fn put_names(out: &mut Vec<u8>, old: &Name, new: &Name) -> Result<(), AllocError>
    ensures { OnOk result (out.new.items ≡ out.old.items ++ names_members old.now new.now) }
{
    put_name(out, b"old", old)?;
    put_name(out, b"new", new)
}

/// Appends the data that a call writes.
pub(crate) fn put_data(out: &mut Vec<u8>, bytes: &Payload) -> Result<(), AllocError>
    ensures { OnOk result (out.new.items ≡ out.old.items ++ data_member bytes.now) }
{
    put_key(out, b"data")?;
    put_data_value(out, bytes.span())?;
    put(out, b",")
}

/// Appends the flags of an open or a setfl.
pub(crate) fn put_flags(out: &mut Vec<u8>, flags: OpenFlags) -> Result<(), AllocError>
    ensures { OnOk result (out.new.items ≡ out.old.items ++ flags_member flags.0) }
{
    put_key(out, b"flags")?;
    put_flags_value(out, flags)?;
    put(out, b",")
}

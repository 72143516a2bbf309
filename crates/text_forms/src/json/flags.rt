//! Flags and bases of offsets, by the words that scripts have for them.

ghost use Rattle.std.specs.Prelude.{◌≡◌, ◌++◌, OnOk};
ghost use Rattle.text_forms.specs.Json.{quoted};
ghost use Rattle.script_text.specs.Lines.{flags_word, mode_word, suffix, whence_word};

use crate::json::values::put;
use bitflags::Flags;
use call_types::flags::OpenFlags;
use call_types::whence::Whence;
use std::alloc::AllocError;

/// How the mode of flags is written.
fn mode_text(flags: OpenFlags) -> &'static [u8]
    ensures { result.now ≡ mode_word flags.0 }
{
    match (flags.has(OpenFlags::READ), flags.has(OpenFlags::WRITE)) {
        (true, true) => b"rw",
        (true, false) => b"r",
        (false, true) => b"w",
        (false, false) => b"-",
    }
}

/// Appends the suffix of a flag, if its bit is set.
fn put_suffix(
    out: &mut Vec<u8>,
    flags: OpenFlags,
    flag: OpenFlags,
    text: &[u8],
) -> Result<(), AllocError>
    ensures { OnOk result (out.new.items ≡ out.old.items ++ suffix flags.0 flag.0 text.now) }
{
    if flags.has(flag) {
        put(out, text)?;
    }
    Ok(())
}

/// Appends the words of flags, with no quote.
fn put_words(out: &mut Vec<u8>, flags: OpenFlags) -> Result<(), AllocError>
    ensures { OnOk result (out.new.items ≡ out.old.items ++ flags_word flags.0) }
{
    put(out, mode_text(flags))?;
    put_suffix(out, flags, OpenFlags::CREAT, b",creat")?;
    put_suffix(out, flags, OpenFlags::EXCL, b",excl")?;
    put_suffix(out, flags, OpenFlags::TRUNC, b",trunc")?;
    put_suffix(out, flags, OpenFlags::APPEND, b",append")?;
    put_suffix(out, flags, OpenFlags::NONBLOCK, b",nonblock")
}

/// Appends flags.
pub(crate) fn put_flags_value(out: &mut Vec<u8>, flags: OpenFlags) -> Result<(), AllocError>
    ensures { OnOk result (out.new.items ≡ out.old.items ++ quoted (flags_word flags.0)) }
{
    put(out, b"\"")?;
    put_words(out, flags)?;
    put(out, b"\"")
}

/// How a base of an offset is written.
pub(crate) fn whence_text(whence: Whence) -> &'static [u8]
    ensures { result.now ≡ whence_word whence }
{
    match whence {
        Whence::Set => b"set",
        Whence::Cur => b"cur",
        Whence::End => b"end",
    }
}

//! Flags of open, read from a word and written as one.

ghost use Rattle.std.specs.Prelude.{◌≡◌, ◌≤◌, ◌++◌, bit_or, length};
ghost use Rattle.std.specs.Option.{option_map};
ghost use Rattle.script_text.specs.Lines.{mode_word, suffix, flags_word};
ghost use Rattle.script_text.specs.ReadingFlags.{flags_of, after_r, after_mode, with_suffix};
ghost use Rattle.script_text.specs.Proved.Room.{HasRoom, UsesRoom};

use crate::put::put;
use bitflags::Flags;
use call_types::flags::OpenFlags;

/// Bytes of flags, at most.
const FLAGS_ROOM: usize = 35;

/// The flags with a further one.
fn with_flag(mut flags: OpenFlags, flag: OpenFlags) -> OpenFlags
    ensures { result.0 ≡ bit_or flags.0 flag.0 }
{
    flags.insert(flag);
    flags
}

/// The flags and what is left of their word, after a suffix that may stand there.
fn with_suffix<'a>(
    flags: OpenFlags,
    rest: &'a [u8],
    text: &[u8],
    flag: OpenFlags,
) -> (OpenFlags, &'a [u8])
    ensures { (result.0.0, result.1.now) ≡ with_suffix (flags.0, rest.entry.now) (record { text = text.now; bit = flag.0 }) }
{
    match rest.strip_prefix(text) {
        Some(after) => (with_flag(flags, flag), after),
        None => (flags, rest),
    }
}

/// The flags of a mode and of the suffixes that follow it.
fn mode_and_suffixes(mode: OpenFlags, rest: &[u8]) -> Option<OpenFlags>
    ensures { option_map (λ flags. flags.0) result ≡ after_mode mode.0 rest.now }
{
    let (flags, rest) = with_suffix(mode, rest, b",creat", OpenFlags::CREAT);
    let (flags, rest) = with_suffix(flags, rest, b",excl", OpenFlags::EXCL);
    let (flags, rest) = with_suffix(flags, rest, b",trunc", OpenFlags::TRUNC);
    let (flags, rest) = with_suffix(flags, rest, b",append", OpenFlags::APPEND);
    let (flags, rest) = with_suffix(flags, rest, b",nonblock", OpenFlags::NONBLOCK);
    rest.is_empty().then_some(flags)
}

/// The flags of a word, by what follows its `r`.
fn after_r(rest: &[u8]) -> Option<OpenFlags>
    ensures { option_map (λ flags. flags.0) result ≡ after_r rest.now }
{
    match rest {
        [b'w', rest @ ..] => mode_and_suffixes(with_flag(OpenFlags::READ, OpenFlags::WRITE), rest),
        _ => mode_and_suffixes(OpenFlags::READ, rest),
    }
}

/// The flags that a word spells.
pub(crate) fn flags_value(word: &[u8]) -> Option<OpenFlags>
    ensures { option_map (λ flags. flags.0) result ≡ flags_of word.now }
{
    match word {
        [b'r', rest @ ..] => after_r(rest),
        [b'w', rest @ ..] => mode_and_suffixes(OpenFlags::WRITE, rest),
        [b'-', rest @ ..] => mode_and_suffixes(OpenFlags::empty(), rest),
        _ => None,
    }
}

/// How the mode of flags is written.
fn mode_text(flags: OpenFlags) -> &'static [u8]
    ensures text { result.now ≡ mode_word flags.0 }
    ensures short { length result.now ≤ 2 }
{
    match (flags.has(OpenFlags::READ), flags.has(OpenFlags::WRITE)) {
        (true, true) => b"rw",
        (true, false) => b"r",
        (false, true) => b"w",
        (false, false) => b"-",
    }
}

/// Appends the suffix of a flag, if its bit is set.
fn put_suffix(out: &mut Vec<u8>, flags: OpenFlags, flag: OpenFlags, text: &[u8])
    requires { HasRoom out.old (length text.now) }
    ensures text { out.new.items ≡ out.old.items ++ suffix flags.0 flag.0 text.now }
    ensures room { UsesRoom out.old out.new (length text.now) }
{
    if flags.has(flag) {
        put(out, text);
    }
}

/// Appends flags.
pub(crate) fn put_flags(out: &mut Vec<u8>, flags: OpenFlags)
    requires { HasRoom out.old FLAGS_ROOM }
    ensures text { out.new.items ≡ out.old.items ++ flags_word flags.0 }
    ensures room { UsesRoom out.old out.new FLAGS_ROOM }
{
    put(out, mode_text(flags));
    put_suffix(out, flags, OpenFlags::CREAT, b",creat");
    put_suffix(out, flags, OpenFlags::EXCL, b",excl");
    put_suffix(out, flags, OpenFlags::TRUNC, b",trunc");
    put_suffix(out, flags, OpenFlags::APPEND, b",append");
    put_suffix(out, flags, OpenFlags::NONBLOCK, b",nonblock");
}

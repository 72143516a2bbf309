//! What came of an act: an object of one member.

ghost use Rattle.std.specs.Prelude.{◌≡◌, ◌≤◌, ◌++◌, OnOk, codes, decimal, length};
ghost use Rattle.std.specs.Option.{option_map};
ghost use Rattle.call_types.specs.declared.limits.TheConstants.{GIVEN_BYTES_MAX};
ghost use Rattle.call_types.specs.Stored.{span_bytes};
ghost use Rattle.text_forms.specs.Json.{data_value, json_key, json_object, pair_value, quoted, stat_value};
ghost use Rattle.text_forms.specs.Json.{as_flags, asks_for_flags, flags_in, outcome_object, reply_object, told_flags, told_object};
ghost use Rattle.script_text.specs.Lines.{error_word, flags_word, kind_word};

use crate::json::flags::put_flags_value;
use crate::json::members::{put_key, put_number, put_word};
use crate::json::values::{put, put_data_value, put_decimal, put_quoted};
use bitflags::Flags;
use call_types::act::{Act, Record};
use call_types::bounded::Content;
use call_types::call::Call;
use call_types::errno::Errno;
use call_types::flags::OpenFlags;
use call_types::outcome::{FileType, Outcome, Reply, Stat};
use std::alloc::AllocError;

/// Flags are less than this: twice the last of them, nonblock.
const FLAGS_END: u64 = 128;

/// How a kind of file is written.
fn kind_text(kind: FileType) -> &'static [u8]
    ensures { result.now ≡ kind_word kind }
{
    match kind {
        FileType::Regular => b"regular",
        FileType::Fifo => b"fifo",
        FileType::Pipe => b"pipe",
    }
}

/// How an error is written.
fn error_text(errno: Errno) -> &'static [u8]
    ensures { result.now ≡ error_word errno }
{
    match errno {
        Errno::EBADF => b"EBADF",
        Errno::EINVAL => b"EINVAL",
        Errno::ESPIPE => b"ESPIPE",
        Errno::EFBIG => b"EFBIG",
        Errno::EOVERFLOW => b"EOVERFLOW",
        Errno::ENOENT => b"ENOENT",
        Errno::EEXIST => b"EEXIST",
        Errno::EMLINK => b"EMLINK",
        Errno::ENAMETOOLONG => b"ENAMETOOLONG",
        Errno::EMFILE => b"EMFILE",
        Errno::ENFILE => b"ENFILE",
        Errno::ENOSPC => b"ENOSPC",
        Errno::EAGAIN => b"EAGAIN",
        Errno::EPIPE => b"EPIPE",
        Errno::ENXIO => b"ENXIO",
        Errno::ESRCH => b"ESRCH",
    }
}

/// Appends the start of an object of one member, up to its value.
fn put_opening(out: &mut Vec<u8>, key: &[u8]) -> Result<(), AllocError>
    ensures { OnOk result (out.new.items ≡ out.old.items ++ (codes "{" ++ json_key key.now)) }
{
    put(out, b"{")?;
    put_key(out, key)
}

/// Appends an object with a number.
fn put_counted(out: &mut Vec<u8>, key: &[u8], number: u64) -> Result<(), AllocError>
    ensures { OnOk result (out.new.items ≡ out.old.items ++ json_object key.now (decimal number)) }
{
    put_opening(out, key)?;
    put_decimal(out, number)?;
    put(out, b"}")
}

/// Appends an object with what was read.
fn put_content(out: &mut Vec<u8>, bytes: &Content) -> Result<(), AllocError>
    ensures { OnOk result (out.new.items ≡ out.old.items ++ json_object (codes "data") (data_value bytes.now)) }
{
    put_opening(out, b"data")?;
    put_data_value(out, bytes.span())?;
    put(out, b"}")
}

/// Appends an object with the two ends of a pipe.
fn put_pair(out: &mut Vec<u8>, first: u32, second: u32) -> Result<(), AllocError>
    ensures { OnOk result (out.new.items ≡ out.old.items ++ json_object (codes "pair") (pair_value first second)) }
{
    put_opening(out, b"pair")?;
    put(out, b"[")?;
    put_decimal(out, u64::from(first))?;
    put(out, b",")?;
    put_decimal(out, u64::from(second))?;
    put(out, b"]}")
}

/// Appends what fstat tells.
fn put_stat_value(out: &mut Vec<u8>, stat: Stat) -> Result<(), AllocError>
    ensures { OnOk result (out.new.items ≡ out.old.items ++ stat_value stat) }
{
    put(out, b"{")?;
    put_word(out, b"kind", kind_text(stat.kind))?;
    put_number(out, b"size", stat.size)?;
    put_key(out, b"links")?;
    put_decimal(out, u64::from(stat.links))?;
    put(out, b"}")
}

/// Appends an object with what fstat tells.
fn put_stat(out: &mut Vec<u8>, stat: Stat) -> Result<(), AllocError>
    ensures { OnOk result (out.new.items ≡ out.old.items ++ json_object (codes "stat") (stat_value stat)) }
{
    put_opening(out, b"stat")?;
    put_stat_value(out, stat)?;
    put(out, b"}")
}

/// Appends an object with an error.
fn put_error(out: &mut Vec<u8>, errno: Errno) -> Result<(), AllocError>
    ensures { OnOk result (out.new.items ≡ out.old.items ++ json_object (codes "error") (quoted (error_word errno))) }
{
    put_opening(out, b"error")?;
    put_quoted(out, error_text(errno))?;
    put(out, b"}")
}

/// Appends a reply.
fn put_reply(out: &mut Vec<u8>, reply: &Reply) -> Result<(), AllocError>
    ensures { OnOk result (out.new.items ≡ out.old.items ++ reply_object reply.now) }
{
    match reply {
        Reply::Done => put(out, b"{\"done\":true}"),
        Reply::Number(number) => put_counted(out, b"number", *number),
        Reply::Data(bytes) => put_content(out, bytes),
        Reply::Pair(first, second) => put_pair(out, *first, *second),
        Reply::Stat(stat) => put_stat(out, *stat),
        Reply::Error(errno) => put_error(out, *errno),
    }
}

/// Appends an outcome.
fn put_outcome(out: &mut Vec<u8>, outcome: &Outcome) -> Result<(), AllocError>
    ensures { OnOk result (out.new.items ≡ out.old.items ++ outcome_object outcome.now) }
{
    match outcome {
        Outcome::Reply(reply) => put_reply(out, reply),
        Outcome::Parked { moved } => put_counted(out, b"parked", u64::from(*moved)),
        Outcome::Part { moved } => put_counted(out, b"part", u64::from(*moved)),
    }
}

/// The flags that a number is, if it is one of flags.
fn as_flags(number: u64) -> Option<OpenFlags>
    ensures { option_map (λ flags. flags.0) result ≡ as_flags number }
{
    (number < FLAGS_END).then(|| OpenFlags::from_bits_retain(number as u8))
}

/// The flags that an outcome tells, if it is a reply with a number.
fn flags_in(outcome: &Outcome) -> Option<OpenFlags>
    ensures { option_map (λ flags. flags.0) result ≡ flags_in outcome.now }
{
    match outcome {
        Outcome::Reply(Reply::Number(number)) => as_flags(*number),
        _ => None,
    }
}

/// Whether an act asks for flags.
fn asks_for_flags(act: &Act) -> bool
    ensures { result ≡ asks_for_flags act.now }
{
    match act {
        Act::Call(Call::Getfl { .. }) => true,
        _ => false,
    }
}

/// The flags that a record tells, if it is a getfl's.
fn told_flags(told: &Record) -> Option<OpenFlags>
    ensures { option_map (λ flags. flags.0) result ≡ told_flags told.now }
{
    if asks_for_flags(&told.act) {
        flags_in(&told.outcome)
    } else {
        None
    }
}

/// Appends an object with flags.
fn put_told_flags(out: &mut Vec<u8>, flags: OpenFlags) -> Result<(), AllocError>
    ensures { OnOk result (out.new.items ≡ out.old.items ++ json_object (codes "flags") (quoted (flags_word flags.0))) }
{
    put_opening(out, b"flags")?;
    put_flags_value(out, flags)?;
    put(out, b"}")
}

/// Appends the object of what a record tells.
pub(crate) fn put_told(out: &mut Vec<u8>, told: &Record) -> Result<(), AllocError>
    ensures { OnOk result (out.new.items ≡ out.old.items ++ told_object (told_flags told.now) «told».now.outcome) }
{
    match told_flags(told) {
        Some(flags) => put_told_flags(out, flags),
        None => put_outcome(out, &told.outcome),
    }
}

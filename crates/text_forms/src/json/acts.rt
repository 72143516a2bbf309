//! What was done: the word of an act, and the fields of a call by their names.

ghost use Rattle.std.specs.Prelude.{◌≡◌, ◌++◌, OnOk};
ghost use Rattle.call_types.specs.CallTable.{parts};
ghost use Rattle.text_forms.specs.Json.{act_fields, act_members, act_word, field_members};

use crate::json::flags::whence_text;
use crate::json::members::{
    put_data, put_fd, put_flags, put_name, put_names, put_number, put_signed, put_word,
};
use call_types::act::Act;
use call_types::bounded::{Name, Payload};
use call_types::call::Call;
use call_types::flags::OpenFlags;
use call_types::whence::Whence;
use std::alloc::AllocError;

/// The word of a call.
fn call_text(call: &Call) -> &'static [u8]
    ensures { result.now ≡ (parts call.now).entry.word }
{
    match call {
        Call::Open { .. } => b"open",
        Call::Close { .. } => b"close",
        Call::Read { .. } => b"read",
        Call::Write { .. } => b"write",
        Call::Pread { .. } => b"pread",
        Call::Pwrite { .. } => b"pwrite",
        Call::Lseek { .. } => b"lseek",
        Call::Ftruncate { .. } => b"ftruncate",
        Call::Dup { .. } => b"dup",
        Call::Dup2 { .. } => b"dup2",
        Call::Pipe => b"pipe",
        Call::Mkfifo { .. } => b"mkfifo",
        Call::Link { .. } => b"link",
        Call::Unlink { .. } => b"unlink",
        Call::Fstat { .. } => b"fstat",
        Call::Fork => b"fork",
        Call::Getfl { .. } => b"getfl",
        Call::Setfl { .. } => b"setfl",
        Call::Rename { .. } => b"rename",
    }
}

/// The word of an act.
fn act_text(act: &Act) -> &'static [u8]
    ensures { result.now ≡ act_word act.now }
{
    match act {
        Act::Join => b"join",
        Act::Attach => b"attach",
        Act::Call(call) => call_text(call),
        Act::Resume => b"resume",
        Act::Exit => b"exit",
        Act::CloseRun => b"close-run",
    }
}

/// Appends the fields of an open.
fn put_open(out: &mut Vec<u8>, name: &Name, flags: OpenFlags) -> Result<(), AllocError>
    ensures { OnOk result (out.new.items ≡ out.old.items ++ field_members (Call.Open name.now flags)) }
{
    put_name(out, b"name", name)?;
    put_flags(out, flags)
}

/// Appends the fields of a read.
fn put_read(out: &mut Vec<u8>, fd: i32, count: u32) -> Result<(), AllocError>
    ensures { OnOk result (out.new.items ≡ out.old.items ++ field_members (Call.Read fd count)) }
{
    put_fd(out, fd)?;
    put_number(out, b"count", u64::from(count))
}

/// Appends the fields of a write.
fn put_write(out: &mut Vec<u8>, fd: i32, bytes: &Payload) -> Result<(), AllocError>
    ensures { OnOk result (out.new.items ≡ out.old.items ++ field_members (Call.Write fd bytes.now)) }
{
    put_fd(out, fd)?;
    put_data(out, bytes)
}

/// Appends the fields of a pread.
fn put_pread(out: &mut Vec<u8>, fd: i32, start: i64, count: u32) -> Result<(), AllocError>
    ensures { OnOk result (out.new.items ≡ out.old.items ++ field_members (Call.Pread fd start count)) }
{
    put_fd(out, fd)?;
    put_signed(out, b"pos", start)?;
    put_number(out, b"count", u64::from(count))
}

/// Appends the fields of a pwrite.
fn put_pwrite(out: &mut Vec<u8>, fd: i32, start: i64, bytes: &Payload) -> Result<(), AllocError>
    ensures { OnOk result (out.new.items ≡ out.old.items ++ field_members (Call.Pwrite fd start bytes.now)) }
{
    put_fd(out, fd)?;
    put_signed(out, b"pos", start)?;
    put_data(out, bytes)
}

/// Appends the fields of an lseek.
fn put_lseek(out: &mut Vec<u8>, fd: i32, offset: i64, whence: Whence) -> Result<(), AllocError>
    ensures { OnOk result (out.new.items ≡ out.old.items ++ field_members (Call.Lseek fd offset whence)) }
{
    put_fd(out, fd)?;
    put_signed(out, b"off", offset)?;
    put_word(out, b"whence", whence_text(whence))
}

/// Appends the fields of an ftruncate.
fn put_ftruncate(out: &mut Vec<u8>, fd: i32, len: i64) -> Result<(), AllocError>
    ensures { OnOk result (out.new.items ≡ out.old.items ++ field_members (Call.Ftruncate fd len)) }
{
    put_fd(out, fd)?;
    put_signed(out, b"len", len)
}

/// Appends the fields of a dup2.
fn put_dup2(out: &mut Vec<u8>, fd: i32, to: i32) -> Result<(), AllocError>
    ensures { OnOk result (out.new.items ≡ out.old.items ++ field_members (Call.Dup2 fd to)) }
{
    put_fd(out, fd)?;
    put_signed(out, b"to", i64::from(to))
}

/// Appends the fields of a setfl.
fn put_setfl(out: &mut Vec<u8>, fd: i32, flags: OpenFlags) -> Result<(), AllocError>
    ensures { OnOk result (out.new.items ≡ out.old.items ++ field_members (Call.Setfl fd flags)) }
{
    put_fd(out, fd)?;
    put_flags(out, flags)
}

/// Appends the fields of a call.
fn put_fields(out: &mut Vec<u8>, call: &Call) -> Result<(), AllocError>
    ensures { OnOk result (out.new.items ≡ out.old.items ++ field_members call.now) }
{
    match call {
        Call::Pipe | Call::Fork => Ok(()),
        Call::Close { fd } | Call::Dup { fd } | Call::Fstat { fd } | Call::Getfl { fd } => {
            put_fd(out, *fd)
        }
        Call::Mkfifo { name } | Call::Unlink { name } => put_name(out, b"name", name),
        Call::Link { old, new } | Call::Rename { old, new } => put_names(out, old, new),
        Call::Open { name, flags } => put_open(out, name, *flags),
        Call::Read { fd, count } => put_read(out, *fd, *count),
        Call::Write { fd, bytes } => put_write(out, *fd, bytes),
        Call::Pread { fd, start, count } => put_pread(out, *fd, *start, *count),
        Call::Pwrite { fd, start, bytes } => put_pwrite(out, *fd, *start, bytes),
        Call::Lseek { fd, offset, whence } => put_lseek(out, *fd, *offset, *whence),
        Call::Ftruncate { fd, len } => put_ftruncate(out, *fd, *len),
        Call::Dup2 { fd, to } => put_dup2(out, *fd, *to),
        Call::Setfl { fd, flags } => put_setfl(out, *fd, *flags),
    }
}

/// Appends the fields of an act.
fn put_act_fields(out: &mut Vec<u8>, act: &Act) -> Result<(), AllocError>
    ensures { OnOk result (out.new.items ≡ out.old.items ++ act_fields act.now) }
{
    match act {
        Act::Call(call) => put_fields(out, call),
        Act::Join | Act::Attach | Act::Resume | Act::Exit | Act::CloseRun => Ok(()),
    }
}

/// Appends the word of an act and its fields.
pub(crate) fn put_act(out: &mut Vec<u8>, act: &Act) -> Result<(), AllocError>
    ensures { OnOk result (out.new.items ≡ out.old.items ++ act_members act.now) }
{
    put_word(out, b"call", act_text(act))?;
    put_act_fields(out, act)
}

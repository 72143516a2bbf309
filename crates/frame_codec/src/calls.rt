//! Each call as the payload of a request: read from one, how many bytes it has, and appended to a frame.
#![tactic(auto, using(crate::proofs::Fronts::keeps_after), unfolding(crate::specs::Requests::call_bytes))]

ghost use Rattle.std.specs.Prelude.{◌≡◌, ◌+◌, ◌≤◌, ◌∷◌, ◌++◌, length};
ghost use Rattle.std.specs.Int.{w32, w64, cast_unsigned};
ghost use Rattle.call_types.specs.CallTable.{parts, fields_length, close_entry, read_entry, write_entry, pread_entry, pwrite_entry, lseek_entry, ftruncate_entry, dup_entry, dup2_entry, pipe_entry, mkfifo_entry, link_entry, unlink_entry, fstat_entry, fork_entry, getfl_entry, setfl_entry, rename_entry, later_table, position_table, rare_table};
ghost use Rattle.call_types.specs.Writing.{Appends};
ghost use Rattle.call_types.specs.declared.call.Call.TheVariants as calls;
ghost use Rattle.frame_codec.specs.Fields.{number_bytes, whence_byte};
ghost use Rattle.frame_codec.specs.Requests.{call_bytes, open_frame};
ghost use Rattle.frame_codec.specs.Proved.Reading.{Gives, one_of};
ghost use Rattle.frame_codec.specs.Proved.ReadingRequests.{entry_at, rows_of, call_at};

use crate::fault::PayloadFault;
use crate::fields;
use crate::put::{put_byte, put_counted, put_descriptor, put_name, put_position, put_u32};
use bitflags::Flags;
use call_types::bounded::{Name, Payload};
use call_types::call::Call;
use call_types::flags::OpenFlags;
use call_types::whence::Whence;
use std::alloc::{AllocError, Global};

/// The byte of a base.
fn base_byte(whence: Whence) -> u8
    ensures { result ≡ whence_byte whence }
{
    match whence {
        Whence::Set => 0,
        Whence::Cur => 1,
        Whence::End => 2,
    }
}

/// Appends the byte of a call on a descriptor, and the descriptor.
fn put_start(out: &mut Vec<u8>, byte: u8, fd: i32) -> Result<(), AllocError>
    ensures { Appends result out.old.items out.new.items (byte ∷ number_bytes w32 (cast_unsigned w32 fd)) }
{
    put_byte(out, byte)?;
    put_descriptor(out, fd)?;
    Ok(())
}

/// Appends the byte of a call on a descriptor, the descriptor, and a position, an offset or a length.
fn put_placed(out: &mut Vec<u8>, byte: u8, fd: i32, place: i64) -> Result<(), AllocError>
    ensures { Appends result out.old.items out.new.items (byte ∷ (number_bytes w32 (cast_unsigned w32 fd) ++ number_bytes w64 (cast_unsigned w64 place))) }
{
    put_start(out, byte, fd)?;
    put_position(out, place)?;
    Ok(())
}

/// Appends the byte of a call on a name, and the name.
fn put_named(out: &mut Vec<u8>, byte: u8, name: &Name) -> Result<(), AllocError>
    ensures { Appends result out.old.items out.new.items (byte ∷ (length name.now ∷ name.now)) }
{
    put_byte(out, byte)?;
    put_name(out, name.as_slice())?;
    Ok(())
}

/// The fields of an open.
fn open_call(alloc: Global, bytes: &[u8]) -> Result<(Call, &[u8]), PayloadFault>
    ensures { Gives (λ x. (x.0, x.1.now)) result (entry_at open_frame bytes.now) }
{
    let (flags, bytes) = fields::flags(bytes)?;
    let (name, bytes) = fields::name(alloc, bytes)?;
    Ok((Call::Open { name, flags }, bytes))
}

/// Appends an open.
fn put_open(out: &mut Vec<u8>, name: &Name, flags: OpenFlags) -> Result<(), AllocError>
    ensures { Appends result out.old.items out.new.items (call_bytes (calls.Open name.now flags)) }
{
    put_byte(out, 16)?;
    put_byte(out, flags.bits())?;
    put_name(out, name.as_slice())?;
    Ok(())
}

/// The fields of a close.
fn close_call(bytes: &[u8]) -> Result<(Call, &[u8]), PayloadFault>
    ensures { Gives (λ x. (x.0, x.1.now)) result (entry_at close_entry bytes.now) }
{
    let (fd, bytes) = fields::descriptor(bytes)?;
    Ok((Call::Close { fd }, bytes))
}

/// Appends a close.
fn put_close(out: &mut Vec<u8>, fd: i32) -> Result<(), AllocError>
    ensures { Appends result out.old.items out.new.items (call_bytes (calls.Close fd)) }
{
    put_start(out, 17, fd)?;
    Ok(())
}

/// The fields of a read.
fn read_call(bytes: &[u8]) -> Result<(Call, &[u8]), PayloadFault>
    ensures { Gives (λ x. (x.0, x.1.now)) result (entry_at read_entry bytes.now) }
{
    let (fd, bytes) = fields::descriptor(bytes)?;
    let (count, bytes) = fields::count(bytes)?;
    Ok((Call::Read { fd, count }, bytes))
}

/// Appends a read.
fn put_read(out: &mut Vec<u8>, fd: i32, count: u32) -> Result<(), AllocError>
    ensures { Appends result out.old.items out.new.items (call_bytes (calls.Read fd count)) }
{
    put_start(out, 18, fd)?;
    put_u32(out, count)?;
    Ok(())
}

/// The fields of a write.
fn write_call(alloc: Global, bytes: &[u8]) -> Result<(Call, &[u8]), PayloadFault>
    ensures { Gives (λ x. (x.0, x.1.now)) result (entry_at write_entry bytes.now) }
{
    let (fd, bytes) = fields::descriptor(bytes)?;
    let (data, bytes) = fields::payload(alloc, bytes)?;
    Ok((Call::Write { fd, bytes: data }, bytes))
}

/// Appends a write.
fn put_write(out: &mut Vec<u8>, fd: i32, bytes: &Payload) -> Result<(), AllocError>
    ensures { Appends result out.old.items out.new.items (call_bytes (calls.Write fd bytes.now)) }
{
    put_start(out, 19, fd)?;
    put_counted(out, bytes.span())?;
    Ok(())
}

/// The fields of a pread.
fn pread_call(bytes: &[u8]) -> Result<(Call, &[u8]), PayloadFault>
    ensures { Gives (λ x. (x.0, x.1.now)) result (entry_at pread_entry bytes.now) }
{
    let (fd, bytes) = fields::descriptor(bytes)?;
    let (start, bytes) = fields::position(bytes)?;
    let (count, bytes) = fields::count(bytes)?;
    Ok((Call::Pread { fd, start, count }, bytes))
}

/// Appends a pread.
fn put_pread(out: &mut Vec<u8>, fd: i32, start: i64, count: u32) -> Result<(), AllocError>
    ensures { Appends result out.old.items out.new.items (call_bytes (calls.Pread fd start count)) }
{
    put_placed(out, 20, fd, start)?;
    put_u32(out, count)?;
    Ok(())
}

/// The fields of a pwrite.
fn pwrite_call(alloc: Global, bytes: &[u8]) -> Result<(Call, &[u8]), PayloadFault>
    ensures { Gives (λ x. (x.0, x.1.now)) result (entry_at pwrite_entry bytes.now) }
{
    let (fd, bytes) = fields::descriptor(bytes)?;
    let (start, bytes) = fields::position(bytes)?;
    let (data, bytes) = fields::payload(alloc, bytes)?;
    Ok((
        Call::Pwrite {
            fd,
            start,
            bytes: data,
        },
        bytes,
    ))
}

/// Appends a pwrite.
fn put_pwrite(out: &mut Vec<u8>, fd: i32, start: i64, bytes: &Payload) -> Result<(), AllocError>
    ensures { Appends result out.old.items out.new.items (call_bytes (calls.Pwrite fd start bytes.now)) }
{
    put_placed(out, 21, fd, start)?;
    put_counted(out, bytes.span())?;
    Ok(())
}

/// The fields of an lseek.
fn lseek_call(bytes: &[u8]) -> Result<(Call, &[u8]), PayloadFault>
    ensures { Gives (λ x. (x.0, x.1.now)) result (entry_at lseek_entry bytes.now) }
{
    let (fd, bytes) = fields::descriptor(bytes)?;
    let (offset, bytes) = fields::position(bytes)?;
    let (whence, bytes) = fields::whence(bytes)?;
    Ok((Call::Lseek { fd, offset, whence }, bytes))
}

/// Appends an lseek.
fn put_lseek(out: &mut Vec<u8>, fd: i32, offset: i64, whence: Whence) -> Result<(), AllocError>
    ensures { Appends result out.old.items out.new.items (call_bytes (calls.Lseek fd offset whence)) }
{
    put_placed(out, 22, fd, offset)?;
    put_byte(out, base_byte(whence))?;
    Ok(())
}

/// The fields of an ftruncate.
fn ftruncate_call(bytes: &[u8]) -> Result<(Call, &[u8]), PayloadFault>
    ensures { Gives (λ x. (x.0, x.1.now)) result (entry_at ftruncate_entry bytes.now) }
{
    let (fd, bytes) = fields::descriptor(bytes)?;
    let (len, bytes) = fields::position(bytes)?;
    Ok((Call::Ftruncate { fd, len }, bytes))
}

/// Appends an ftruncate.
fn put_ftruncate(out: &mut Vec<u8>, fd: i32, len: i64) -> Result<(), AllocError>
    ensures { Appends result out.old.items out.new.items (call_bytes (calls.Ftruncate fd len)) }
{
    put_placed(out, 23, fd, len)?;
    Ok(())
}

/// The fields of a dup.
fn dup_call(bytes: &[u8]) -> Result<(Call, &[u8]), PayloadFault>
    ensures { Gives (λ x. (x.0, x.1.now)) result (entry_at dup_entry bytes.now) }
{
    let (fd, bytes) = fields::descriptor(bytes)?;
    Ok((Call::Dup { fd }, bytes))
}

/// Appends a dup.
fn put_dup(out: &mut Vec<u8>, fd: i32) -> Result<(), AllocError>
    ensures { Appends result out.old.items out.new.items (call_bytes (calls.Dup fd)) }
{
    put_start(out, 24, fd)?;
    Ok(())
}

/// The fields of a dup2.
fn dup2_call(bytes: &[u8]) -> Result<(Call, &[u8]), PayloadFault>
    ensures { Gives (λ x. (x.0, x.1.now)) result (entry_at dup2_entry bytes.now) }
{
    let (fd, bytes) = fields::descriptor(bytes)?;
    let (to, bytes) = fields::descriptor(bytes)?;
    Ok((Call::Dup2 { fd, to }, bytes))
}

/// Appends a dup2.
fn put_dup2(out: &mut Vec<u8>, fd: i32, to: i32) -> Result<(), AllocError>
    ensures { Appends result out.old.items out.new.items (call_bytes (calls.Dup2 fd to)) }
{
    put_start(out, 25, fd)?;
    put_descriptor(out, to)?;
    Ok(())
}

/// The fields of a pipe.
fn pipe_call(bytes: &[u8]) -> Result<(Call, &[u8]), PayloadFault>
    ensures { Gives (λ x. (x.0, x.1.now)) result (entry_at pipe_entry bytes.now) }
{
    Ok((Call::Pipe, bytes))
}

/// Appends a pipe.
fn put_pipe(out: &mut Vec<u8>) -> Result<(), AllocError>
    ensures { Appends result out.old.items out.new.items (call_bytes calls.Pipe) }
{
    put_byte(out, 26)?;
    Ok(())
}

/// The fields of a mkfifo.
fn mkfifo_call(alloc: Global, bytes: &[u8]) -> Result<(Call, &[u8]), PayloadFault>
    ensures { Gives (λ x. (x.0, x.1.now)) result (entry_at mkfifo_entry bytes.now) }
{
    let (name, bytes) = fields::name(alloc, bytes)?;
    Ok((Call::Mkfifo { name }, bytes))
}

/// Appends a mkfifo.
fn put_mkfifo(out: &mut Vec<u8>, name: &Name) -> Result<(), AllocError>
    ensures { Appends result out.old.items out.new.items (call_bytes (calls.Mkfifo name.now)) }
{
    put_named(out, 27, name)?;
    Ok(())
}

/// The fields of a link.
fn link_call(alloc: Global, bytes: &[u8]) -> Result<(Call, &[u8]), PayloadFault>
    ensures { Gives (λ x. (x.0, x.1.now)) result (entry_at link_entry bytes.now) }
{
    let (old, bytes) = fields::name(alloc, bytes)?;
    let (new, bytes) = fields::name(alloc, bytes)?;
    Ok((Call::Link { old, new }, bytes))
}

/// Appends a link.
fn put_link(out: &mut Vec<u8>, old: &Name, new: &Name) -> Result<(), AllocError>
    ensures { Appends result out.old.items out.new.items (call_bytes (calls.Link old.now new.now)) }
{
    put_named(out, 28, old)?;
    put_name(out, new.as_slice())?;
    Ok(())
}

/// The fields of an unlink.
fn unlink_call(alloc: Global, bytes: &[u8]) -> Result<(Call, &[u8]), PayloadFault>
    ensures { Gives (λ x. (x.0, x.1.now)) result (entry_at unlink_entry bytes.now) }
{
    let (name, bytes) = fields::name(alloc, bytes)?;
    Ok((Call::Unlink { name }, bytes))
}

/// Appends an unlink.
fn put_unlink(out: &mut Vec<u8>, name: &Name) -> Result<(), AllocError>
    ensures { Appends result out.old.items out.new.items (call_bytes (calls.Unlink name.now)) }
{
    put_named(out, 29, name)?;
    Ok(())
}

/// The fields of an fstat.
fn fstat_call(bytes: &[u8]) -> Result<(Call, &[u8]), PayloadFault>
    ensures { Gives (λ x. (x.0, x.1.now)) result (entry_at fstat_entry bytes.now) }
{
    let (fd, bytes) = fields::descriptor(bytes)?;
    Ok((Call::Fstat { fd }, bytes))
}

/// Appends an fstat.
fn put_fstat(out: &mut Vec<u8>, fd: i32) -> Result<(), AllocError>
    ensures { Appends result out.old.items out.new.items (call_bytes (calls.Fstat fd)) }
{
    put_start(out, 30, fd)?;
    Ok(())
}

/// The fields of a fork.
fn fork_call(bytes: &[u8]) -> Result<(Call, &[u8]), PayloadFault>
    ensures { Gives (λ x. (x.0, x.1.now)) result (entry_at fork_entry bytes.now) }
{
    Ok((Call::Fork, bytes))
}

/// Appends a fork.
fn put_fork(out: &mut Vec<u8>) -> Result<(), AllocError>
    ensures { Appends result out.old.items out.new.items (call_bytes calls.Fork) }
{
    put_byte(out, 31)?;
    Ok(())
}

/// The fields of a getfl.
fn getfl_call(bytes: &[u8]) -> Result<(Call, &[u8]), PayloadFault>
    ensures { Gives (λ x. (x.0, x.1.now)) result (entry_at getfl_entry bytes.now) }
{
    let (fd, bytes) = fields::descriptor(bytes)?;
    Ok((Call::Getfl { fd }, bytes))
}

/// Appends a getfl.
fn put_getfl(out: &mut Vec<u8>, fd: i32) -> Result<(), AllocError>
    ensures { Appends result out.old.items out.new.items (call_bytes (calls.Getfl fd)) }
{
    put_start(out, 32, fd)?;
    Ok(())
}

/// The fields of a setfl.
fn setfl_call(bytes: &[u8]) -> Result<(Call, &[u8]), PayloadFault>
    ensures { Gives (λ x. (x.0, x.1.now)) result (entry_at setfl_entry bytes.now) }
{
    let (fd, bytes) = fields::descriptor(bytes)?;
    let (flags, bytes) = fields::flags(bytes)?;
    Ok((Call::Setfl { fd, flags }, bytes))
}

/// Appends a setfl.
fn put_setfl(out: &mut Vec<u8>, fd: i32, flags: OpenFlags) -> Result<(), AllocError>
    ensures { Appends result out.old.items out.new.items (call_bytes (calls.Setfl fd flags)) }
{
    put_start(out, 33, fd)?;
    put_byte(out, flags.bits())?;
    Ok(())
}

/// The fields of a rename.
fn rename_call(alloc: Global, bytes: &[u8]) -> Result<(Call, &[u8]), PayloadFault>
    ensures { Gives (λ x. (x.0, x.1.now)) result (entry_at rename_entry bytes.now) }
{
    let (old, bytes) = fields::name(alloc, bytes)?;
    let (new, bytes) = fields::name(alloc, bytes)?;
    Ok((Call::Rename { old, new }, bytes))
}

/// Appends a rename.
fn put_rename(out: &mut Vec<u8>, old: &Name, new: &Name) -> Result<(), AllocError>
    ensures { Appends result out.old.items out.new.items (call_bytes (calls.Rename old.now new.now)) }
{
    put_named(out, 34, old)?;
    put_name(out, new.as_slice())?;
    Ok(())
}

/// The fields of the call of a byte, of those that are rare.
fn rare_call(alloc: Global, byte: u8, bytes: &[u8]) -> Result<(Call, &[u8]), PayloadFault>
    ensures { Gives (λ x. (x.0, x.1.now)) result (one_of (rows_of rare_table) byte bytes.now) }
{
    match byte {
        32 => getfl_call(bytes),
        33 => setfl_call(bytes),
        34 => rename_call(alloc, bytes),
        _ => Err(PayloadFault::Malformed),
    }
}

/// The fields of the call of a byte, of those with a position, an offset or a length and of those that are rare.
fn position_call(alloc: Global, byte: u8, bytes: &[u8]) -> Result<(Call, &[u8]), PayloadFault>
    ensures { Gives (λ x. (x.0, x.1.now)) result (one_of (rows_of position_table) byte bytes.now) }
{
    match byte {
        20 => pread_call(bytes),
        21 => pwrite_call(alloc, bytes),
        22 => lseek_call(bytes),
        23 => ftruncate_call(bytes),
        _ => rare_call(alloc, byte, bytes),
    }
}

/// The fields of the call of a byte, of those that come later in the table and are less common.
fn later_call(alloc: Global, byte: u8, bytes: &[u8]) -> Result<(Call, &[u8]), PayloadFault>
    ensures { Gives (λ x. (x.0, x.1.now)) result (one_of (rows_of later_table) byte bytes.now) }
{
    match byte {
        24 => dup_call(bytes),
        25 => dup2_call(bytes),
        26 => pipe_call(bytes),
        27 => mkfifo_call(alloc, bytes),
        28 => link_call(alloc, bytes),
        29 => unlink_call(alloc, bytes),
        30 => fstat_call(bytes),
        31 => fork_call(bytes),
        _ => position_call(alloc, byte, bytes),
    }
}

/// The call at the front.
#[tactic(auto, unfolding(crate::specs::Proved::ReadingRequests::call_at))]
pub(crate) fn call(alloc: Global, bytes: &[u8]) -> Result<(Call, &[u8]), PayloadFault>
    ensures { Gives (λ x. (x.0, x.1.now)) result (call_at bytes.now) }
{
    match bytes {
        [] => Err(PayloadFault::Malformed),
        [16, rest @ ..] => open_call(alloc, rest),
        [17, rest @ ..] => close_call(rest),
        [18, rest @ ..] => read_call(rest),
        [19, rest @ ..] => write_call(alloc, rest),
        [byte, rest @ ..] => later_call(alloc, *byte, rest),
    }
}

/// How many bytes a call's payload has: its byte, and its fields.
#[tactic(auto)]
pub(crate) fn fields_bytes(call: &Call) -> u32
    ensures exact { result ≡ 1 + fields_length (parts call.now).entry.fields (parts call.now).values }
    ensures few { result ≤ 65717 }
{
    match call {
        Call::Open { name, .. } => 3 + name.as_slice().len() as u32,
        Call::Close { .. } => 5,
        Call::Read { .. } => 9,
        Call::Write { bytes, .. } => 9 + bytes.len() as u32,
        Call::Pread { .. } => 17,
        Call::Pwrite { bytes, .. } => 17 + bytes.len() as u32,
        Call::Lseek { .. } => 14,
        Call::Ftruncate { .. } => 13,
        Call::Dup { .. } => 5,
        Call::Dup2 { .. } => 9,
        Call::Pipe => 1,
        Call::Mkfifo { name } => 2 + name.as_slice().len() as u32,
        Call::Link { old, new } => { 3 + old.as_slice().len() as u32 + new.as_slice().len() as u32 }
        Call::Unlink { name } => 2 + name.as_slice().len() as u32,
        Call::Fstat { .. } => 5,
        Call::Fork => 1,
        Call::Getfl { .. } => 5,
        Call::Setfl { .. } => 6,
        Call::Rename { old, new } => {
            3 + old.as_slice().len() as u32 + new.as_slice().len() as u32
        }
    }
}

/// Appends the payload of a call, with no length before it. An error says that memory ran out; the bytes before are still the front.
#[tactic(auto)]
pub fn encode_call(out: &mut Vec<u8>, call: &Call) -> Result<(), AllocError>
    ensures { Appends result out.old.items out.new.items (call_bytes call.now) }
{
    match call {
        Call::Open { name, flags } => put_open(out, name, *flags),
        Call::Close { fd } => put_close(out, *fd),
        Call::Read { fd, count } => put_read(out, *fd, *count),
        Call::Write { fd, bytes } => put_write(out, *fd, bytes),
        Call::Pread { fd, start, count } => put_pread(out, *fd, *start, *count),
        Call::Pwrite { fd, start, bytes } => put_pwrite(out, *fd, *start, bytes),
        Call::Lseek { fd, offset, whence } => put_lseek(out, *fd, *offset, *whence),
        Call::Ftruncate { fd, len } => put_ftruncate(out, *fd, *len),
        Call::Dup { fd } => put_dup(out, *fd),
        Call::Dup2 { fd, to } => put_dup2(out, *fd, *to),
        Call::Pipe => put_pipe(out),
        Call::Mkfifo { name } => put_mkfifo(out, name),
        Call::Link { old, new } => put_link(out, old, new),
        Call::Unlink { name } => put_unlink(out, name),
        Call::Fstat { fd } => put_fstat(out, *fd),
        Call::Fork => put_fork(out),
        Call::Getfl { fd } => put_getfl(out, *fd),
        Call::Setfl { fd, flags } => put_setfl(out, *fd, *flags),
        Call::Rename { old, new } => put_rename(out, old, new),
    }
}

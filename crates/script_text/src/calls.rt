//! Reads each call from a line, and writes it to one. Locals are cleared at entry; what is not inlined keeps its locals
//! off the path of reads and writes.
#![tactic(auto, unfolding(crate::specs::Lines::call_text))]

ghost use Rattle.std.specs.Prelude.{◌≡◌, ◌++◌, ◌+◌, ◌<◌, ◌^◌, ◌≤◌};
ghost use Rattle.std.specs.Option.{option_copied};
ghost use Rattle.call_types.specs.CallTable.{open_entry, close_entry, read_entry, write_entry, pread_entry, pwrite_entry, lseek_entry, ftruncate_entry, dup_entry, dup2_entry, pipe_entry, mkfifo_entry, link_entry, unlink_entry, fstat_entry, fork_entry, getfl_entry, setfl_entry, rename_entry, later_table, position_table, rare_table};
ghost use Rattle.script_text.specs.Reading.{Gives, Word};
ghost use Rattle.script_text.specs.ReadingCalls.{entry_at, one_of, named_call};
ghost use Rattle.script_text.specs.Lines.{call_text};
ghost use Rattle.script_text.specs.Proved.Room.{HasRoom, UsesRoom, name_room, data_room, call_room};

use crate::cutting::Unread;
use crate::fault::{Expected, WordFault};
use crate::fields;
use crate::flags::put_flags;
use crate::name::put_name;
use crate::payload::{put_data, room_of_data};
use crate::put::{put, put_descriptor, put_next_number, put_next_signed};
use crate::whence::whence_text;
use crate::words::{Next, line_end};
use call_types::bounded::{Name, Payload};
use call_types::call::Call;
use call_types::flags::OpenFlags;
use call_types::whence::Whence;
use std::alloc::Global;

/// Bytes of a call without its names and data, at most.
pub(crate) const CALL_ROOM: usize = 96;

/// `open NAME FLAGS`, after its first word.
#[inline(never)]
pub(crate) fn open_call(alloc: Global, left: Unread<'_>) -> Result<Call, WordFault>
    ensures { Gives (λ x. x) result (entry_at open_entry (option_copied left.entry)) }
{
    let (name, left) = fields::name(alloc, left)?;
    let (flags, left) = fields::flags(left)?;
    line_end(left)?;
    Ok(Call::Open { name, flags })
}

/// Appends an open.
fn put_open(out: &mut Vec<u8>, name: &Name, flags: OpenFlags)
    requires { HasRoom out.old (CALL_ROOM + name_room name.now) }
    ensures text { out.new.items ≡ out.old.items ++ (call_text (Call.Open name.now flags)) }
    ensures room { UsesRoom out.old out.new (CALL_ROOM + name_room name.now) }
{
    put(out, b"open ");
    put_name(out, name.as_slice());
    out.push_reserved(b' ');
    put_flags(out, flags);
}

/// `close FD`
fn close_call(left: Unread<'_>) -> Result<Call, WordFault>
    ensures { Gives (λ x. x) result (entry_at close_entry (option_copied left.entry)) }
{
    let (fd, left) = fields::descriptor(left)?;
    line_end(left)?;
    Ok(Call::Close { fd })
}

/// Appends a close.
fn put_close(out: &mut Vec<u8>, fd: i32)
    requires { HasRoom out.old CALL_ROOM }
    ensures text { out.new.items ≡ out.old.items ++ (call_text (Call.Close fd)) }
    ensures room { UsesRoom out.old out.new CALL_ROOM }
{
    put(out, b"close ");
    put_descriptor(out, fd);
}

/// `read FD N`
fn read_call(left: Unread<'_>) -> Result<Call, WordFault>
    ensures { Gives (λ x. x) result (entry_at read_entry (option_copied left.entry)) }
{
    let (fd, left) = fields::descriptor(left)?;
    let (count, left) = fields::count(left)?;
    line_end(left)?;
    Ok(Call::Read { fd, count })
}

/// Appends a read.
fn put_read(out: &mut Vec<u8>, fd: i32, count: u32)
    requires { HasRoom out.old CALL_ROOM }
    ensures text { out.new.items ≡ out.old.items ++ (call_text (Call.Read fd count)) }
    ensures room { UsesRoom out.old out.new CALL_ROOM }
{
    put(out, b"read ");
    put_descriptor(out, fd);
    put_next_number(out, count as u64);
}

/// `write FD DATA`
fn write_call(alloc: Global, left: Unread<'_>) -> Result<Call, WordFault>
    ensures { Gives (λ x. x) result (entry_at write_entry (option_copied left.entry)) }
{
    let (fd, left) = fields::descriptor(left)?;
    let (bytes, left) = fields::payload(alloc, left)?;
    line_end(left)?;
    Ok(Call::Write { fd, bytes })
}

/// Appends a write.
fn put_write(out: &mut Vec<u8>, fd: i32, bytes: &Payload)
    requires { HasRoom out.old (CALL_ROOM + data_room bytes.now) }
    ensures text { out.new.items ≡ out.old.items ++ (call_text (Call.Write fd bytes.now)) }
    ensures room { UsesRoom out.old out.new (CALL_ROOM + data_room bytes.now) }
{
    put(out, b"write ");
    put_descriptor(out, fd);
    out.push_reserved(b' ');
    put_data(out, bytes.span());
}

/// `pread FD POS N`
fn pread_call(left: Unread<'_>) -> Result<Call, WordFault>
    ensures { Gives (λ x. x) result (entry_at pread_entry (option_copied left.entry)) }
{
    let (fd, left) = fields::descriptor(left)?;
    let (start, left) = fields::position(left)?;
    let (count, left) = fields::count(left)?;
    line_end(left)?;
    Ok(Call::Pread { fd, start, count })
}

/// Appends a pread.
fn put_pread(out: &mut Vec<u8>, fd: i32, start: i64, count: u32)
    requires { HasRoom out.old CALL_ROOM }
    ensures text { out.new.items ≡ out.old.items ++ (call_text (Call.Pread fd start count)) }
    ensures room { UsesRoom out.old out.new CALL_ROOM }
{
    put(out, b"pread ");
    put_descriptor(out, fd);
    put_next_signed(out, start);
    put_next_number(out, count as u64);
}

/// `pwrite FD POS DATA`
fn pwrite_call(alloc: Global, left: Unread<'_>) -> Result<Call, WordFault>
    ensures { Gives (λ x. x) result (entry_at pwrite_entry (option_copied left.entry)) }
{
    let (fd, left) = fields::descriptor(left)?;
    let (start, left) = fields::position(left)?;
    let (bytes, left) = fields::payload(alloc, left)?;
    line_end(left)?;
    Ok(Call::Pwrite { fd, start, bytes })
}

/// Appends a pwrite.
fn put_pwrite(out: &mut Vec<u8>, fd: i32, start: i64, bytes: &Payload)
    requires { HasRoom out.old (CALL_ROOM + data_room bytes.now) }
    ensures text { out.new.items ≡ out.old.items ++ (call_text (Call.Pwrite fd start bytes.now)) }
    ensures room { UsesRoom out.old out.new (CALL_ROOM + data_room bytes.now) }
{
    put(out, b"pwrite ");
    put_descriptor(out, fd);
    put_next_signed(out, start);
    out.push_reserved(b' ');
    put_data(out, bytes.span());
}

/// `lseek FD OFF set`, or `cur`, or `end`
fn lseek_call(left: Unread<'_>) -> Result<Call, WordFault>
    ensures { Gives (λ x. x) result (entry_at lseek_entry (option_copied left.entry)) }
{
    let (fd, left) = fields::descriptor(left)?;
    let (offset, left) = fields::position(left)?;
    let (whence, left) = fields::whence(left)?;
    line_end(left)?;
    Ok(Call::Lseek { fd, offset, whence })
}

/// Appends an lseek.
fn put_lseek(out: &mut Vec<u8>, fd: i32, offset: i64, whence: Whence)
    requires { HasRoom out.old CALL_ROOM }
    ensures text { out.new.items ≡ out.old.items ++ (call_text (Call.Lseek fd offset whence)) }
    ensures room { UsesRoom out.old out.new CALL_ROOM }
{
    put(out, b"lseek ");
    put_descriptor(out, fd);
    put_next_signed(out, offset);
    out.push_reserved(b' ');
    put(out, whence_text(whence));
}

/// `ftruncate FD LEN`
fn ftruncate_call(left: Unread<'_>) -> Result<Call, WordFault>
    ensures { Gives (λ x. x) result (entry_at ftruncate_entry (option_copied left.entry)) }
{
    let (fd, left) = fields::descriptor(left)?;
    let (len, left) = fields::position(left)?;
    line_end(left)?;
    Ok(Call::Ftruncate { fd, len })
}

/// Appends an ftruncate.
fn put_ftruncate(out: &mut Vec<u8>, fd: i32, len: i64)
    requires { HasRoom out.old CALL_ROOM }
    ensures text { out.new.items ≡ out.old.items ++ (call_text (Call.Ftruncate fd len)) }
    ensures room { UsesRoom out.old out.new CALL_ROOM }
{
    put(out, b"ftruncate ");
    put_descriptor(out, fd);
    put_next_signed(out, len);
}

/// `dup FD`
fn dup_call(left: Unread<'_>) -> Result<Call, WordFault>
    ensures { Gives (λ x. x) result (entry_at dup_entry (option_copied left.entry)) }
{
    let (fd, left) = fields::descriptor(left)?;
    line_end(left)?;
    Ok(Call::Dup { fd })
}

/// Appends a dup.
fn put_dup(out: &mut Vec<u8>, fd: i32)
    requires { HasRoom out.old CALL_ROOM }
    ensures text { out.new.items ≡ out.old.items ++ (call_text (Call.Dup fd)) }
    ensures room { UsesRoom out.old out.new CALL_ROOM }
{
    put(out, b"dup ");
    put_descriptor(out, fd);
}

/// `dup2 FD FD`
fn dup2_call(left: Unread<'_>) -> Result<Call, WordFault>
    ensures { Gives (λ x. x) result (entry_at dup2_entry (option_copied left.entry)) }
{
    let (fd, left) = fields::descriptor(left)?;
    let (to, left) = fields::descriptor(left)?;
    line_end(left)?;
    Ok(Call::Dup2 { fd, to })
}

/// Appends a dup2.
fn put_dup2(out: &mut Vec<u8>, fd: i32, to: i32)
    requires { HasRoom out.old CALL_ROOM }
    ensures text { out.new.items ≡ out.old.items ++ (call_text (Call.Dup2 fd to)) }
    ensures room { UsesRoom out.old out.new CALL_ROOM }
{
    put(out, b"dup2 ");
    put_descriptor(out, fd);
    put_next_signed(out, i64::from(to));
}

/// `pipe`
fn pipe_call(left: Unread<'_>) -> Result<Call, WordFault>
    ensures { Gives (λ x. x) result (entry_at pipe_entry (option_copied left.entry)) }
{
    line_end(left)?;
    Ok(Call::Pipe)
}

/// Appends a pipe.
fn put_pipe(out: &mut Vec<u8>)
    requires { HasRoom out.old CALL_ROOM }
    ensures text { out.new.items ≡ out.old.items ++ (call_text Call.Pipe) }
    ensures room { UsesRoom out.old out.new CALL_ROOM }
{
    put(out, b"pipe");
}

/// `mkfifo NAME`
fn mkfifo_call(alloc: Global, left: Unread<'_>) -> Result<Call, WordFault>
    ensures { Gives (λ x. x) result (entry_at mkfifo_entry (option_copied left.entry)) }
{
    let (name, left) = fields::name(alloc, left)?;
    line_end(left)?;
    Ok(Call::Mkfifo { name })
}

/// Appends a mkfifo.
fn put_mkfifo(out: &mut Vec<u8>, name: &Name)
    requires { HasRoom out.old (CALL_ROOM + name_room name.now) }
    ensures text { out.new.items ≡ out.old.items ++ (call_text (Call.Mkfifo name.now)) }
    ensures room { UsesRoom out.old out.new (CALL_ROOM + name_room name.now) }
{
    put(out, b"mkfifo ");
    put_name(out, name.as_slice());
}

/// `link NAME NAME`
pub(crate) fn link_call(alloc: Global, left: Unread<'_>) -> Result<Call, WordFault>
    ensures { Gives (λ x. x) result (entry_at link_entry (option_copied left.entry)) }
{
    let (old, left) = fields::name(alloc, left)?;
    let (new, left) = fields::name(alloc, left)?;
    line_end(left)?;
    Ok(Call::Link { old, new })
}

/// Appends a link.
fn put_link(out: &mut Vec<u8>, old: &Name, new: &Name)
    requires { HasRoom out.old (CALL_ROOM + (name_room old.now + name_room new.now)) }
    ensures text { out.new.items ≡ out.old.items ++ (call_text (Call.Link old.now new.now)) }
    ensures room { UsesRoom out.old out.new (CALL_ROOM + (name_room old.now + name_room new.now)) }
{
    put(out, b"link ");
    put_name(out, old.as_slice());
    out.push_reserved(b' ');
    put_name(out, new.as_slice());
}

/// `unlink NAME`
pub(crate) fn unlink_call(alloc: Global, left: Unread<'_>) -> Result<Call, WordFault>
    ensures { Gives (λ x. x) result (entry_at unlink_entry (option_copied left.entry)) }
{
    let (name, left) = fields::name(alloc, left)?;
    line_end(left)?;
    Ok(Call::Unlink { name })
}

/// Appends an unlink.
fn put_unlink(out: &mut Vec<u8>, name: &Name)
    requires { HasRoom out.old (CALL_ROOM + name_room name.now) }
    ensures text { out.new.items ≡ out.old.items ++ (call_text (Call.Unlink name.now)) }
    ensures room { UsesRoom out.old out.new (CALL_ROOM + name_room name.now) }
{
    put(out, b"unlink ");
    put_name(out, name.as_slice());
}

/// `fstat FD`
fn fstat_call(left: Unread<'_>) -> Result<Call, WordFault>
    ensures { Gives (λ x. x) result (entry_at fstat_entry (option_copied left.entry)) }
{
    let (fd, left) = fields::descriptor(left)?;
    line_end(left)?;
    Ok(Call::Fstat { fd })
}

/// Appends an fstat.
fn put_fstat(out: &mut Vec<u8>, fd: i32)
    requires { HasRoom out.old CALL_ROOM }
    ensures text { out.new.items ≡ out.old.items ++ (call_text (Call.Fstat fd)) }
    ensures room { UsesRoom out.old out.new CALL_ROOM }
{
    put(out, b"fstat ");
    put_descriptor(out, fd);
}

/// `fork`
fn fork_call(left: Unread<'_>) -> Result<Call, WordFault>
    ensures { Gives (λ x. x) result (entry_at fork_entry (option_copied left.entry)) }
{
    line_end(left)?;
    Ok(Call::Fork)
}

/// Appends a fork.
fn put_fork(out: &mut Vec<u8>)
    requires { HasRoom out.old CALL_ROOM }
    ensures text { out.new.items ≡ out.old.items ++ (call_text Call.Fork) }
    ensures room { UsesRoom out.old out.new CALL_ROOM }
{
    put(out, b"fork");
}

/// `getfl FD`
fn getfl_call(left: Unread<'_>) -> Result<Call, WordFault>
    ensures { Gives (λ x. x) result (entry_at getfl_entry (option_copied left.entry)) }
{
    let (fd, left) = fields::descriptor(left)?;
    line_end(left)?;
    Ok(Call::Getfl { fd })
}

/// Appends a getfl.
fn put_getfl(out: &mut Vec<u8>, fd: i32)
    requires { HasRoom out.old CALL_ROOM }
    ensures text { out.new.items ≡ out.old.items ++ (call_text (Call.Getfl fd)) }
    ensures room { UsesRoom out.old out.new CALL_ROOM }
{
    put(out, b"getfl ");
    put_descriptor(out, fd);
}

/// `setfl FD FLAGS`
fn setfl_call(left: Unread<'_>) -> Result<Call, WordFault>
    ensures { Gives (λ x. x) result (entry_at setfl_entry (option_copied left.entry)) }
{
    let (fd, left) = fields::descriptor(left)?;
    let (flags, left) = fields::flags(left)?;
    line_end(left)?;
    Ok(Call::Setfl { fd, flags })
}

/// Appends a setfl.
fn put_setfl(out: &mut Vec<u8>, fd: i32, flags: OpenFlags)
    requires { HasRoom out.old CALL_ROOM }
    ensures text { out.new.items ≡ out.old.items ++ (call_text (Call.Setfl fd flags)) }
    ensures room { UsesRoom out.old out.new CALL_ROOM }
{
    put(out, b"setfl ");
    put_descriptor(out, fd);
    out.push_reserved(b' ');
    put_flags(out, flags);
}

/// `rename NAME NAME`
fn rename_call(alloc: Global, left: Unread<'_>) -> Result<Call, WordFault>
    ensures { Gives (λ x. x) result (entry_at rename_entry (option_copied left.entry)) }
{
    let (old, left) = fields::name(alloc, left)?;
    let (new, left) = fields::name(alloc, left)?;
    line_end(left)?;
    Ok(Call::Rename { old, new })
}

/// Appends a rename.
fn put_rename(out: &mut Vec<u8>, old: &Name, new: &Name)
    requires { HasRoom out.old (CALL_ROOM + (name_room old.now + name_room new.now)) }
    ensures text { out.new.items ≡ out.old.items ++ (call_text (Call.Rename old.now new.now)) }
    ensures room { UsesRoom out.old out.new (CALL_ROOM + (name_room old.now + name_room new.now)) }
{
    put(out, b"rename ");
    put_name(out, old.as_slice());
    out.push_reserved(b' ');
    put_name(out, new.as_slice());
}

/// The call that a first word names.
pub(crate) fn call(alloc: Global, word: Next<'_>) -> Result<Call, WordFault>
    ensures { Gives (λ x. x) result (named_call (record { text = word.entry.text.now; remaining = word.entry.remaining; after = option_copied word.entry.after })) }
{
    if word.is(b"open") {
        open_call(alloc, word.after)
    } else if word.is(b"close") {
        close_call(word.after)
    } else if word.is(b"read") {
        read_call(word.after)
    } else if word.is(b"write") {
        write_call(alloc, word.after)
    } else {
        later_call(alloc, word)
    }
}

/// The call that a first word names, of those that come later in the table and are less common.
#[inline(never)]
fn later_call(alloc: Global, word: Next<'_>) -> Result<Call, WordFault>
    ensures { Gives (λ x. x) result (one_of later_table (record { text = word.entry.text.now; remaining = word.entry.remaining; after = option_copied word.entry.after })) }
{
    if word.is(b"dup") {
        dup_call(word.after)
    } else if word.is(b"dup2") {
        dup2_call(word.after)
    } else if word.is(b"pipe") {
        pipe_call(word.after)
    } else if word.is(b"mkfifo") {
        mkfifo_call(alloc, word.after)
    } else if word.is(b"link") {
        link_call(alloc, word.after)
    } else if word.is(b"unlink") {
        unlink_call(alloc, word.after)
    } else if word.is(b"fstat") {
        fstat_call(word.after)
    } else if word.is(b"fork") {
        fork_call(word.after)
    } else {
        position_call(alloc, word)
    }
}

/// The call that a first word names, of those with a position, an offset or a length and of those that are rare.
#[inline(never)]
fn position_call(alloc: Global, word: Next<'_>) -> Result<Call, WordFault>
    ensures { Gives (λ x. x) result (one_of position_table (record { text = word.entry.text.now; remaining = word.entry.remaining; after = option_copied word.entry.after })) }
{
    if word.is(b"pread") {
        pread_call(word.after)
    } else if word.is(b"pwrite") {
        pwrite_call(alloc, word.after)
    } else if word.is(b"lseek") {
        lseek_call(word.after)
    } else if word.is(b"ftruncate") {
        ftruncate_call(word.after)
    } else {
        rare_call(alloc, word)
    }
}

/// The call that a first word names, of those that are rare.
#[inline(never)]
fn rare_call(alloc: Global, word: Next<'_>) -> Result<Call, WordFault>
    ensures { Gives (λ x. x) result (one_of rare_table (record { text = word.entry.text.now; remaining = word.entry.remaining; after = option_copied word.entry.after })) }
{
    if word.is(b"getfl") {
        getfl_call(word.after)
    } else if word.is(b"setfl") {
        setfl_call(word.after)
    } else if word.is(b"rename") {
        rename_call(alloc, word.after)
    } else {
        Err(WordFault::At {
            remaining: word.remaining,
            expected: Expected::Act,
        })
    }
}

/// Room in which a name can be written.
fn room_of_name(name: &Name) -> usize
    ensures enough { name_room name.now ≤ result }
    ensures small { result < 2 ^ 16 }
{
    3 * name.as_slice().len() + 1
}

/// Room in which a call can be written.
#[inline(always)]
pub(crate) fn room_of_call(call: &Call) -> usize
    ensures enough { call_room call.now ≤ result }
    ensures small { result < 2 ^ 32 }
{
    match call {
        Call::Open { name, .. } | Call::Mkfifo { name } | Call::Unlink { name } => {
            CALL_ROOM + room_of_name(name)
        }
        Call::Link { old, new } | Call::Rename { old, new } => {
            CALL_ROOM + (room_of_name(old) + room_of_name(new))
        }
        Call::Write { bytes, .. } | Call::Pwrite { bytes, .. } => {
            CALL_ROOM + room_of_data(bytes.span())
        }
        _ => CALL_ROOM,
    }
}

/// Appends a call, after its process.
#[tactic(auto)]
#[inline(always)]
pub(crate) fn put_call(out: &mut Vec<u8>, call: &Call)
    requires { HasRoom out.old (call_room call.now) }
    ensures text { out.new.items ≡ out.old.items ++ (call_text call.now) }
    ensures room { UsesRoom out.old out.new (call_room call.now) }
{
    match call {
        Call::Open { name, flags } => put_open(out, name, *flags),
        Call::Close { fd } => put_close(out, *fd),
        Call::Read { fd, count } => put_read(out, *fd, *count),
        Call::Write { fd, bytes } => put_write(out, *fd, bytes),
        Call::Pread { fd, start, count } => put_pread(out, *fd, *start, *count),
        Call::Pwrite { fd, start, bytes } => put_pwrite(out, *fd, *start, bytes),
        Call::Lseek { fd, offset, whence } => put_lseek(out, *fd, *offset, *whence),
        Call::Ftruncate { fd, len } => put_ftruncate(out, *fd, *len),
        Call::Dup { fd } => put_dup(out, *fd),
        Call::Dup2 { fd, to } => put_dup2(out, *fd, *to),
        Call::Pipe => put_pipe(out),
        Call::Mkfifo { name } => put_mkfifo(out, name),
        Call::Link { old, new } => put_link(out, old, new),
        Call::Unlink { name } => put_unlink(out, name),
        Call::Fstat { fd } => put_fstat(out, *fd),
        Call::Fork => put_fork(out),
        Call::Getfl { fd } => put_getfl(out, *fd),
        Call::Setfl { fd, flags } => put_setfl(out, *fd, *flags),
        Call::Rename { old, new } => put_rename(out, old, new),
    }
}

ghost use Rattle.std.specs.Prelude.{◌≡◌, true, is_some, None, IfOk, IfSome, OnErr};
ghost use Rattle.call_types.specs.Names.{file_of};
ghost use Rattle.slots.specs.Slots.{slot};
ghost use Rattle.posix_model.specs.Pages.{first_fault, decided_by};
ghost use Rattle.posix_model.specs.Pipes.{fifo_at};
ghost use Rattle.posix_model.specs.Open.{found_fifo, is_both, is_unread, found_faults, room_faults, open_faults, opens, emptied, open_there, open_found, open_file};

use crate::names::{name_fault, names_full};
use crate::open_end::{decide_open_end, is_met};
use crate::opening::{flag_fault, free_descriptor, new_description};
use call_types::bounded::Name;
use call_types::description::{Description, Mode, Target};
use call_types::errno::Errno;
use call_types::flags::OpenFlags;
use call_types::limits::DESCRIPTIONS_MAX;
use call_types::outcome::Reply;
use posix_model::change::{Decided, FileEdit, TableEdit, does, refused};
use posix_model::reader::WorldReader;
use posix_model::world::Fifo;
use std::alloc::{AllocError, Global};

/// The FIFO that a name leads to, if it leads to one.
fn found_fifo<R: WorldReader>(state: &R, found: Option<usize>) -> Option<Fifo>
    ensures { result ≡ found_fifo (R.world state.now) found }
{
    match found {
        None => None,
        Some(file) => state.fifo_at(file),
    }
}

/// Whether a FIFO would be opened for reading and writing.
fn is_both(flags: OpenFlags, fifo: Option<Fifo>) -> bool
    ensures { result ≡ is_both flags fifo }
{
    fifo.is_some() && flags.has(OpenFlags::READ) && flags.has(OpenFlags::WRITE)
}

/// Whether an open of a FIFO for writing, with nonblock, would meet no reader.
fn is_unread<R: WorldReader>(state: &R, flags: OpenFlags, fifo: Option<Fifo>) -> bool
    ensures { result ≡ is_unread (R.world state.now) flags fifo }
{
    match fifo {
        None => false,
        Some(fifo) => {
            flags.has(OpenFlags::WRITE)
                && flags.has(OpenFlags::NONBLOCK)
                && !is_met(state, Mode::Write, fifo)
        }
    }
}

/// The first refusal of what a name leads to: ENOENT, EEXIST, EINVAL or ENXIO.
fn found_fault<R: WorldReader>(state: &R, flags: OpenFlags, found: Option<usize>) -> Option<Errno>
    ensures { result ≡ first_fault (found_faults (R.world state.now) flags found) }
{
    if found.is_none() && !flags.has(OpenFlags::CREAT) {
        return Some(Errno::ENOENT);
    }
    if found.is_some() && flags.has(OpenFlags::CREAT) && flags.has(OpenFlags::EXCL) {
        return Some(Errno::EEXIST);
    }
    let fifo = found_fifo(state, found);
    if is_both(flags, fifo) {
        return Some(Errno::EINVAL);
    }
    if is_unread(state, flags, fifo) {
        return Some(Errno::ENXIO);
    }
    None
}

/// The first refusal for want of room: EMFILE, ENFILE or ENOSPC.
fn room_fault<R: WorldReader>(state: &R, process: usize, found: Option<usize>) -> Option<Errno>
    ensures { result ≡ first_fault (room_faults (R.world state.now) process found) }
{
    if state.lowest_free(process).is_none() {
        return Some(Errno::EMFILE);
    }
    if state.live_descriptions() >= DESCRIPTIONS_MAX {
        return Some(Errno::ENFILE);
    }
    if found.is_none() && names_full(state) {
        return Some(Errno::ENOSPC);
    }
    None
}

/// The first refusal of an open of a name that leads to `found`: of its flags, its name, what that leads to, and for want
/// of room.
fn open_fault<R: WorldReader>(
    state: &R,
    process: usize,
    name: &[u8],
    flags: OpenFlags,
    found: Option<usize>,
) -> Option<Errno>
    ensures { result ≡ first_fault (open_faults (R.world state.now) process name.now flags found) }
{
    let later = found_fault(state, flags, found).or(room_fault(state, process, found));
    flag_fault(flags).or(name_fault(name).or(later))
}

/// The lowest free descriptor refers to a new description, with an edit of files.
fn opens<R: WorldReader>(
    state: &R,
    process: usize,
    files: FileEdit,
    description: Description,
) -> Decided
    ensures { result ≡ opens (R.world state.now) process files description }
{
    let fd = free_descriptor(state, process);
    let edit = TableEdit::Open {
        process,
        fd,
        description,
    };
    does(Reply::Number(fd as u64), files, edit)
}

/// The edit of an open with trunc: the file becomes empty.
fn emptied(file: usize, flags: OpenFlags) -> FileEdit
    ensures { result ≡ emptied file flags }
{
    if flags.has(OpenFlags::TRUNC) {
        FileEdit::Resize { file, len: 0 }
    } else {
        FileEdit::Nothing
    }
}

/// A file that is there is opened: a regular one, or an end of a FIFO. An error says that memory for a copy of the call ran out.
fn open_there<R: WorldReader>(
    state: &R,
    alloc: Global,
    process: usize,
    name: &Name,
    flags: OpenFlags,
    file: usize,
) -> Result<Decided, AllocError>
    ensures effect { IfOk result (λ d. d ≡ open_there (R.world state.now) process name.now flags file (fifo_at (slot (R.world state.now).files file))) }
    ensures fifo { OnErr result (is_some (fifo_at (slot (R.world state.now).files file)) ≡ true) }
{
    match state.fifo_at(file) {
        None => {
            let description = new_description(Target::Regular { file }, flags);
            Ok(opens(state, process, emptied(file, flags), description))
        }
        Some(fifo) => decide_open_end(state, alloc, process, name, flags, file, fifo),
    }
}

/// The file that is there is opened, or a new one. An error says that memory for a new name, or for a copy of the call, ran out.
fn open_found<R: WorldReader>(
    state: &R,
    alloc: Global,
    process: usize,
    name: &Name,
    flags: OpenFlags,
    found: Option<usize>,
) -> Result<Decided, AllocError>
    ensures effect { IfOk result (λ d. d ≡ open_found (R.world state.now) process name.now flags found) }
    ensures fifo { OnErr result (IfSome found (λ file. is_some (fifo_at (slot (R.world state.now).files file)) ≡ true)) }
{
    match found {
        Some(file) => open_there(state, alloc, process, name, flags, file),
        None => {
            let file = state.next_file();
            let description = new_description(Target::Regular { file }, flags);
            let name = name.clone()?;
            Ok(opens(state, process, FileEdit::MakeFile { name }, description))
        }
    }
}

/// What open comes to: a refusal of its flags, its name, what that leads to or for want of room, or the lowest free
/// descriptor; of an end of a FIFO the process may wait (page of open). An error says that memory for a new name, or for a copy
/// of the call, ran out.
#[inline(always)]
pub fn decide_open<R: WorldReader>(
    state: &R,
    alloc: Global,
    process: usize,
    name: &Name,
    flags: OpenFlags,
) -> Result<Decided, AllocError>
    ensures page { IfOk result (λ d. d ≡ decided_by (open_file (R.world state.now) process name.now flags)) }
    ensures fifo { OnErr result (IfSome (file_of name.now (R.world state.now).names) (λ file. is_some (fifo_at (slot (R.world state.now).files file)) ≡ true)) }
    ensures needed { OnErr result (first_fault (open_file (R.world state.now) process name.now flags).faults ≡ None) }
{
    let found = state.file_of(name.as_slice());
    if let Some(error) = open_fault(state, process, name.as_slice(), flags, found) {
        return Ok(refused(error));
    }
    open_found(state, alloc, process, name, flags, found)
}

ghost use Rattle.std.specs.Prelude.{◌≡◌, ℕ, true, is_some, IfOk, OnErr};
ghost use Rattle.call_types.specs.declared.limits.Bounds.{Bounds};
ghost use Rattle.posix_model.specs.Resume.{read_ready, room_wanted, write_ready, fifo_of, open_ready, next_of, is_ready, resume};
ghost use Rattle.calls.specs.Proved.Waits.{next_on};

use crate::open_end::{has_opposite, opposite_openings};
use crate::read_end::read_try;
use crate::targets::pipe_at;
use crate::tries::next_try;
use crate::write_end::{room_in, write_try};
use call_types::call::Call;
use call_types::description::Target;
use call_types::limits::{Bounds, PIPE_BUF};
use call_types::outcome::Reply;
use posix_model::change::{DataSource, Decided, FileEdit, Try};
use posix_model::opened::OpenDescriptor;
use posix_model::reader::WorldReader;
use posix_model::world::Fifo;
use process_table::process::Parked;
use std::alloc::{AllocError, Global};

/// Whether a read of a pipe can go on: it holds bytes, or has no writer.
fn read_ready<R: WorldReader>(state: &R, pipe: usize) -> bool
    ensures { result ≡ read_ready (R.world state.now) pipe }
{
    state.held_in(pipe) != 0 || !state.has_writer(pipe)
}

/// How many bytes of room a write of `len` bytes needs before it can go on.
fn room_wanted(len: usize) -> usize
    ensures { result ≡ room_wanted len }
{
    if len <= PIPE_BUF { len } else { 1 }
}

/// Whether a write of so many bytes to a pipe can go on: there is room, or no reader.
fn write_ready<R: WorldReader>(state: &R, bounds: Bounds, pipe: usize, len: usize) -> bool
    ensures { result ≡ write_ready bounds (R.world state.now) pipe len }
{
    room_wanted(len) <= room_in(state, bounds, pipe) || !state.has_reader(pipe)
}

/// The FIFO that a target is an end of.
fn fifo_of<R: WorldReader>(state: &R, target: Target) -> Option<Fifo>
    ensures { result ≡ fifo_of (R.world state.now) target }
{
    match target {
        Target::Fifo { file, .. } => state.fifo_at(file),
        Target::Regular { .. } | Target::Pipe { .. } => None,
    }
}

/// Whether an open of an end of a FIFO can go on: an opposite end is open, or was opened since it waits.
fn open_ready<R: WorldReader>(
    state: &R,
    descriptor: &OpenDescriptor,
    pipe: usize,
    openings: u64,
) -> bool
    ensures { result ≡ open_ready (R.world state.now) descriptor.now pipe openings }
{
    let mode = descriptor.description.mode;
    let fifo = fifo_of(state, descriptor.description.target);
    has_opposite(state, mode, pipe) || opposite_openings(mode, fifo) != openings
}

/// A call that a process waits in, with the descriptor and the pipe that it is on.
#[derive(Drop)]
struct Waiting<'a> {
    parked: &'a Parked,
    descriptor: OpenDescriptor,
    pipe: usize,
}

/// The call that a process waits in, if it is live and attached and waits in one.
fn waiting_of<R: WorldReader>(state: &R, process: usize) -> Option<Waiting<'_>>
    ensures { (bounds : Bounds) → next_of bounds (R.world state.now) process ≡ next_on bounds (R.world state.now) process result }
{
    if !state.is_here(process) {
        return None;
    }
    let parked = state.parked(process)?;
    let descriptor = state.opened_at(process, parked.fd)?;
    let pipe = pipe_at(descriptor.description.target)?;
    Some(Waiting {
        parked,
        descriptor,
        pipe,
    })
}

/// Whether a call that waits can go on.
fn can_go_on<R: WorldReader>(state: &R, bounds: Bounds, waiting: Waiting<'_>) -> bool
    ensures { (process : ℕ) → result ≡ is_some (next_on bounds (R.world state.now) process (Some waiting.entry)) }
{
    let pipe = waiting.pipe;
    match waiting.parked.call.get() {
        Call::Read { .. } => read_ready(state, pipe),
        Call::Write { bytes, .. } => write_ready(state, bounds, pipe, bytes.len()),
        Call::Open { .. } => open_ready(state, &waiting.descriptor, pipe, waiting.parked.openings),
        _ => false,
    }
}

/// The next try of a call that waits, if it can go on. An error says that memory for what it reads ran out.
fn try_again<R: WorldReader>(
    state: &R,
    alloc: Global,
    bounds: Bounds,
    process: usize,
    waiting: Waiting<'_>,
) -> Result<Option<Try>, AllocError>
    ensures effect { IfOk result (λ t. t ≡ next_on bounds (R.world state.now) process (Some waiting.entry)) }
    ensures needed { OnErr result (is_some (next_on bounds (R.world state.now) process (Some waiting.entry)) ≡ true) }
{
    let (parked, pipe) = (waiting.parked, waiting.pipe);
    match parked.call.get() {
        Call::Read { count, .. } if read_ready(state, pipe) => {
            Ok(Some(read_try(state, alloc, pipe, *count as usize)?))
        }
        Call::Write { bytes, .. } if write_ready(state, bounds, pipe, bytes.len()) => {
            let source = DataSource::Parked { process };
            let (len, moved) = (bytes.len(), parked.moved);
            Ok(Some(write_try(state, bounds, pipe, source, len, moved)))
        }
        Call::Open { .. } if open_ready(state, &waiting.descriptor, pipe, parked.openings) => {
            let reply = Reply::Number(waiting.descriptor.fd as u64);
            let edit = FileEdit::Nothing;
            Ok(Some(Try::Ends { reply, edit }))
        }
        _ => Ok(None),
    }
}

/// Whether a process waits in a call that is ready.
pub fn is_ready<R: WorldReader>(state: &R, bounds: Bounds, process: usize) -> bool
    ensures { result ≡ is_ready bounds (R.world state.now) process }
{
    match waiting_of(state, process) {
        None => false,
        Some(waiting) => can_go_on(state, bounds, waiting),
    }
}

/// What a resume of a process comes to, or nothing where it waits in no call that is ready. An error says that memory for what
/// its call reads ran out.
pub fn decide_resume<R: WorldReader>(
    state: &R,
    alloc: Global,
    bounds: Bounds,
    process: usize,
) -> Result<Option<Decided>, AllocError>
    ensures effect { IfOk result (λ d. d ≡ resume bounds (R.world state.now) process) }
    ensures needed { OnErr result (is_ready bounds (R.world state.now) process ≡ true) }
{
    match waiting_of(state, process) {
        None => Ok(None),
        Some(waiting) => match try_again(state, alloc, bounds, process, waiting)? {
            None => Ok(None),
            Some(tried) => Ok(Some(next_try(process, tried))),
        },
    }
}

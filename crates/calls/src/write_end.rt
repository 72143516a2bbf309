ghost use Rattle.std.specs.Prelude.{◌≡◌, ◌≤◌, false, IfOk, OnErr};
ghost use Rattle.process_table.specs.Proved.Waits.{AsksFew};
ghost use Rattle.posix_model.specs.Pipes.{room_in};
ghost use Rattle.posix_model.specs.Tries.{broken, write_try};
ghost use Rattle.posix_model.specs.Write.{write_end};
ghost use Rattle.calls.specs.Proved.Refusals.{is_refusal};

use crate::tries::first_try;
use call_types::bounded::Payload;
use call_types::call::Call;
use call_types::errno::Errno;
use call_types::limits::{Bounds, GIVEN_BYTES_MAX, PIPE_BUF};
use call_types::outcome::Reply;
use posix_model::change::{DataSource, Decided, FileEdit, Try, tells};
use posix_model::opened::OpenDescriptor;
use posix_model::reader::WorldReader;
use std::alloc::{AllocError, Global};

/// For how many more bytes a pipe has room.
pub(crate) fn room_in<R: WorldReader>(state: &R, bounds: Bounds, pipe: usize) -> usize
    ensures { result ≡ room_in bounds (R.world state.now) pipe }
{
    (bounds.pipe_capacity as usize).saturating_sub(state.held_in(pipe))
}

/// What a write without a reader tells: the bytes that it moved, or EPIPE where it moved none (page of write).
fn broken(moved: u32) -> Reply
    ensures { result ≡ broken moved }
{
    if moved == 0 {
        Reply::Error(Errno::EPIPE)
    } else {
        Reply::Number(u64::from(moved))
    }
}

/// One try of a write of `len` bytes to a pipe, of which `moved` went in before: all the rest where there is room for it; else,
/// where `len` is at most 512 (PIPE_BUF), none, and where it is more, what fits; and it waits (page of write).
pub fn write_try<R: WorldReader>(
    state: &R,
    bounds: Bounds,
    pipe: usize,
    source: DataSource,
    len: usize,
    moved: u32,
) -> Try
    requires { len ≤ GIVEN_BYTES_MAX }
    ensures { result ≡ write_try bounds (R.world state.now) pipe source len moved }
{
    let rest = len.saturating_sub(moved as usize);
    let room = room_in(state, bounds, pipe);
    if !state.has_reader(pipe) {
        let edit = FileEdit::Nothing;
        let reply = broken(moved);
        return Try::Ends { reply, edit };
    }
    if rest <= room {
        let count = rest;
        let edit = FileEdit::Put {
            pipe,
            source,
            count,
        };
        let reply = Reply::Number(u64::from(moved) + rest as u64);
        return Try::Ends { reply, edit };
    }
    if len <= PIPE_BUF {
        let edit = FileEdit::Nothing;
        return Try::Waits { moved, edit };
    }
    let count = room;
    let edit = FileEdit::Put {
        pipe,
        source,
        count,
    };
    let moved = moved + room as u32;
    Try::Waits { moved, edit }
}

/// What a write to a pipe or FIFO comes to: of no bytes it changes nothing, else it is tried, and may wait (page of write). An
/// error says that memory for a copy of the call ran out.
pub fn decide_write_end<R: WorldReader>(
    state: &R,
    alloc: Global,
    bounds: Bounds,
    process: usize,
    call: &Call,
    bytes: &Payload,
    descriptor: &OpenDescriptor,
    pipe: usize,
) -> Result<Decided, AllocError>
    requires { AsksFew call.now }
    ensures effect { IfOk result (λ d. d ≡ write_end bounds (R.world state.now) process call.now bytes.now descriptor.now pipe) }
    ensures needed { OnErr result (is_refusal (write_end bounds (R.world state.now) process call.now bytes.now descriptor.now pipe) ≡ false) }
{
    if bytes.is_empty() {
        return Ok(tells(Reply::Number(0)));
    }
    let tried = write_try(state, bounds, pipe, DataSource::Act, bytes.len(), 0);
    first_try(alloc, process, call, descriptor, tried)
}

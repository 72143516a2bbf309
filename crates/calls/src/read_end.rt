ghost use Rattle.std.specs.Prelude.{◌≡◌, ◌≤◌, ◌==◌, false, IfOk, OnErr};
ghost use Rattle.process_table.specs.Proved.Waits.{AsksFew};
ghost use Rattle.posix_model.specs.Descriptors.{held_in};
ghost use Rattle.posix_model.specs.Tries.{read_try};
ghost use Rattle.posix_model.specs.Read.{read_end};
ghost use Rattle.calls.specs.Proved.Refusals.{is_refusal};

use crate::tries::first_try;
use call_types::bounded::Content;
use call_types::call::Call;
use call_types::limits::TRANSFER_MAX;
use call_types::outcome::Reply;
use posix_model::change::{Decided, FileEdit, Try, tells};
use posix_model::opened::OpenDescriptor;
use posix_model::reader::WorldReader;
use std::alloc::{AllocError, Global};

/// One try of a read of a pipe: at most `count` of the bytes that it holds, none where it has no writer, or it waits (page of
/// read). An error says that memory for the bytes ran out.
pub fn read_try<R: WorldReader>(
    state: &R,
    alloc: Global,
    pipe: usize,
    count: usize,
) -> Result<Try, AllocError>
    requires { count ≤ TRANSFER_MAX }
    ensures effect { IfOk result (λ t. t ≡ read_try (R.world state.now) pipe count) }
    ensures needed { OnErr result ((held_in (R.world state.now) pipe == 0) ≡ false) }
{
    if state.held_in(pipe) != 0 {
        let reply = Reply::Data(state.peek(alloc, pipe, count)?);
        let edit = FileEdit::Take { pipe, count };
        return Ok(Try::Ends { reply, edit });
    }
    let edit = FileEdit::Nothing;
    if state.has_writer(pipe) {
        return Ok(Try::Waits { moved: 0, edit });
    }
    let reply = Reply::Data(Content::empty());
    Ok(Try::Ends { reply, edit })
}

/// What a read of a pipe or FIFO comes to: of no bytes it changes nothing, else it is tried, and may wait (page of read). An
/// error says that memory ran out.
pub fn decide_read_end<R: WorldReader>(
    state: &R,
    alloc: Global,
    process: usize,
    call: &Call,
    count: usize,
    descriptor: &OpenDescriptor,
    pipe: usize,
) -> Result<Decided, AllocError>
    requires few { count ≤ TRANSFER_MAX }
    requires kept { AsksFew call.now }
    ensures effect { IfOk result (λ d. d ≡ read_end (R.world state.now) process call.now count descriptor.now pipe) }
    ensures needed { OnErr result (is_refusal (read_end (R.world state.now) process call.now count descriptor.now pipe) ≡ false) }
{
    if count == 0 {
        return Ok(tells(Reply::Data(Content::empty())));
    }
    let tried = read_try(state, alloc, pipe, count)?;
    first_try(alloc, process, call, descriptor, tried)
}

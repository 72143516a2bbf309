ghost use Rattle.std.specs.Prelude.{◌≡◌, ◌≤◌, ◌+◌, ◌<◌, ◌^◌, length, false, IfOk, OnErr};
ghost use Rattle.posix_model.specs.Bytes.{bytes_at};
ghost use Rattle.posix_model.specs.Descriptors.{opened, bytes_of};
ghost use Rattle.posix_model.specs.Positions.{file_at};
ghost use Rattle.posix_model.specs.Pages.{first_fault, on_open};
ghost use Rattle.posix_model.specs.Read.{read_faults, gives, read};
ghost use Rattle.calls.specs.Proved.Refusals.{is_refusal};

use crate::read_end::decide_read_end;
use crate::targets::{file_at, pipe_at};
use call_types::bounded::Content;
use call_types::call::Call;
use call_types::description::DescriptionEdit;
use call_types::errno::Errno;
use call_types::limits::TRANSFER_MAX;
use call_types::outcome::Reply;
use posix_model::change::{Decided, FileEdit, TableEdit, does, refused, tells};
use posix_model::opened::OpenDescriptor;
use posix_model::reader::WorldReader;
use std::alloc::{AllocError, Global};

/// The first refusal of a read of an open descriptor.
fn read_fault(descriptor: &OpenDescriptor, count: usize) -> Option<Errno>
    ensures { result ≡ first_fault (read_faults count descriptor.now) }
{
    if !descriptor.description.mode.can_read() {
        return Some(Errno::EBADF);
    }
    if count > TRANSFER_MAX {
        return Some(Errno::EINVAL);
    }
    None
}

/// Replies with the bytes and moves the offset past them; without bytes nothing changes.
fn gives(descriptor: &OpenDescriptor, got: Content) -> Decided
    requires { descriptor.now.description.offset + length got < 2 ^ 64 }
    ensures { result ≡ gives descriptor.now got }
{
    if got.is_empty() {
        return tells(Reply::Data(got));
    }
    let offset = descriptor.description.offset + got.len() as u64;
    let number = descriptor.number.again();
    let edit = DescriptionEdit::Offset { offset };
    does(
        Reply::Data(got),
        FileEdit::Nothing,
        TableEdit::Describe { number, edit },
    )
}

/// A read of a regular file, from the offset on, none at its end. An error says that memory ran out.
fn read_file<R: WorldReader>(
    state: &R,
    alloc: Global,
    descriptor: &OpenDescriptor,
    count: usize,
) -> Result<Decided, AllocError>
    requires { count ≤ TRANSFER_MAX }
    ensures { IfOk result (λ d. d ≡ gives descriptor.now (bytes_at (bytes_of (R.world state.now) (file_at descriptor.now)) descriptor.now.description.offset count)) }
{
    let file = file_at(descriptor);
    let start = descriptor.description.offset as usize;
    let got = state.read_at(alloc, file, start, count)?;
    Ok(gives(descriptor, got))
}

/// What read comes to, which is this call: EBADF, EINVAL, EAGAIN, or at most `count` bytes. Those of a regular file are read
/// from the offset on, none at its end; of a pipe or FIFO those that it holds, and the process may wait (page of read). An
/// error says that memory ran out.
#[inline(always)]
pub fn decide_read<R: WorldReader>(
    state: &R,
    alloc: Global,
    process: usize,
    call: &Call,
    fd: i32,
    count: usize,
) -> Result<Decided, AllocError>
    requires { call.now ≡ Call.Read fd count }
    ensures page { IfOk result (λ d. d ≡ on_open (opened (R.world state.now) process fd) (read (R.world state.now) process call.now count)) }
    ensures needed { OnErr result (is_refusal (on_open (opened (R.world state.now) process fd) (read (R.world state.now) process call.now count)) ≡ false) }
{
    let descriptor = match state.opened(process, fd) {
        None => return Ok(refused(Errno::EBADF)),
        Some(descriptor) => descriptor,
    };
    if let Some(error) = read_fault(&descriptor, count) {
        return Ok(refused(error));
    }
    match pipe_at(descriptor.description.target) {
        None => read_file(state, alloc, &descriptor, count),
        Some(pipe) => decide_read_end(state, alloc, process, call, count, &descriptor, pipe),
    }
}

ghost use Rattle.std.specs.Prelude.{◌≡◌, length, false, IfOk, OnErr};
ghost use Rattle.posix_model.specs.Descriptors.{opened, bytes_of};
ghost use Rattle.posix_model.specs.Positions.{file_at};
ghost use Rattle.posix_model.specs.Pages.{first_fault, on_open};
ghost use Rattle.posix_model.specs.Write.{write_start, write_faults, write_file, write};
ghost use Rattle.calls.specs.Proved.Refusals.{is_refusal};

use crate::puts::{fitting, is_past_limit, puts};
use crate::targets::{file_at, is_regular, pipe_at};
use crate::write_end::decide_write_end;
use call_types::bounded::Payload;
use call_types::call::Call;
use call_types::description::DescriptionEdit;
use call_types::errno::Errno;
use call_types::limits::{Bounds, TRANSFER_MAX};
use posix_model::change::{Decided, TableEdit, refused};
use posix_model::opened::OpenDescriptor;
use posix_model::reader::WorldReader;
use std::alloc::{AllocError, Global};

/// Where a write begins, in bytes: at the end under append, else at the offset.
fn write_start<R: WorldReader>(state: &R, descriptor: &OpenDescriptor) -> u64
    ensures { result ≡ write_start descriptor.now.description (length (bytes_of (R.world state.now) (file_at descriptor.now))) }
{
    if descriptor.description.append {
        state.length_of(file_at(descriptor)) as u64
    } else {
        descriptor.description.offset
    }
}

/// The first refusal of a write of an open descriptor that begins at `start`.
fn write_fault(
    bounds: Bounds,
    descriptor: &OpenDescriptor,
    start: u64,
    bytes: &Payload,
) -> Option<Errno>
    ensures { result ≡ first_fault (write_faults bounds start bytes.now descriptor.now) }
{
    if !descriptor.description.mode.can_write() {
        return Some(Errno::EBADF);
    }
    if bytes.len() > TRANSFER_MAX {
        return Some(Errno::EINVAL);
    }
    if is_regular(descriptor) && is_past_limit(bounds, start, bytes) {
        return Some(Errno::EFBIG);
    }
    None
}

/// A write to a regular file from a position on: what fits, and the offset goes past it.
fn write_file(bounds: Bounds, start: u64, bytes: &Payload, descriptor: &OpenDescriptor) -> Decided
    ensures { result ≡ write_file bounds start bytes.now descriptor.now }
{
    let count = fitting(bounds, start, bytes);
    let offset = start + count as u64;
    let number = descriptor.number.again();
    let edit = DescriptionEdit::Offset { offset };
    let moved = TableEdit::Describe { number, edit };
    puts(bytes, file_at(descriptor), start as usize, count, moved)
}

/// What write comes to, which is this call: EBADF, EINVAL, EFBIG, EAGAIN, EPIPE, or how many of the bytes went in. A regular
/// file takes those that fit from the offset on, or from the end on under append. A pipe or FIFO takes those that it has room
/// for, and the process may wait (page of write). An error says that memory for a copy of the call ran out.
#[inline(always)]
pub fn decide_write<R: WorldReader>(
    state: &R,
    alloc: Global,
    bounds: Bounds,
    process: usize,
    call: &Call,
    fd: i32,
    bytes: &Payload,
) -> Result<Decided, AllocError>
    requires { call.now ≡ Call.Write fd bytes.now }
    ensures page { IfOk result (λ d. d ≡ on_open (opened (R.world state.now) process fd) (write bounds (R.world state.now) process call.now bytes.now)) }
    ensures needed { OnErr result (is_refusal (on_open (opened (R.world state.now) process fd) (write bounds (R.world state.now) process call.now bytes.now)) ≡ false) }
{
    let descriptor = match state.opened(process, fd) {
        None => return Ok(refused(Errno::EBADF)),
        Some(descriptor) => descriptor,
    };
    let start = write_start(state, &descriptor);
    if let Some(error) = write_fault(bounds, &descriptor, start, bytes) {
        return Ok(refused(error));
    }
    match pipe_at(descriptor.description.target) {
        None => Ok(write_file(bounds, start, bytes, &descriptor)),
        Some(pipe) => {
            decide_write_end(
                state,
                alloc,
                bounds,
                process,
                call,
                bytes,
                &descriptor,
                pipe,
            )
        }
    }
}

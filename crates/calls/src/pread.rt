ghost use Rattle.std.specs.Prelude.{◌≡◌, None, IfOk, IfSome, OnErr};
ghost use Rattle.posix_model.specs.Descriptors.{opened};
ghost use Rattle.posix_model.specs.Pages.{first_fault, on_open};
ghost use Rattle.posix_model.specs.Pread.{pread_faults, pread};

use crate::targets::{file_at, is_regular};
use call_types::errno::Errno;
use call_types::limits::TRANSFER_MAX;
use call_types::outcome::Reply;
use posix_model::change::{Decided, refused, tells};
use posix_model::opened::OpenDescriptor;
use posix_model::reader::WorldReader;
use std::alloc::{AllocError, Global};

/// The first refusal of a pread of an open descriptor.
fn pread_fault(descriptor: &OpenDescriptor, start: i64, count: usize) -> Option<Errno>
    ensures { result ≡ first_fault (pread_faults start count descriptor.now) }
{
    if !descriptor.description.mode.can_read() {
        return Some(Errno::EBADF);
    }
    if !is_regular(descriptor) {
        return Some(Errno::ESPIPE);
    }
    if start < 0 {
        return Some(Errno::EINVAL);
    }
    if count > TRANSFER_MAX {
        return Some(Errno::EINVAL);
    }
    None
}

/// What pread comes to: EBADF, ESPIPE, EINVAL, or at most `count` bytes from the position on, none at the end of the file.
/// The offset stays (page of read, pread). An error says that memory ran out.
#[inline(always)]
pub fn decide_pread<R: WorldReader>(
    state: &R,
    alloc: Global,
    process: usize,
    fd: i32,
    start: i64,
    count: usize,
) -> Result<Decided, AllocError>
    ensures page { IfOk result (λ d. d ≡ on_open (opened (R.world state.now) process fd) (pread (R.world state.now) start count)) }
    ensures needed { OnErr result (IfSome (opened (R.world state.now) process fd) (λ o. first_fault (pread_faults start count o) ≡ None)) }
{
    let descriptor = match state.opened(process, fd) {
        None => return Ok(refused(Errno::EBADF)),
        Some(descriptor) => descriptor,
    };
    if let Some(error) = pread_fault(&descriptor, start, count) {
        return Ok(refused(error));
    }
    let start = start.unsigned_abs() as usize;
    let got = state.read_at(alloc, file_at(&descriptor), start, count)?;
    Ok(tells(Reply::Data(got)))
}

ghost use Rattle.std.specs.Prelude.{◌≡◌};
ghost use Rattle.posix_model.specs.Descriptors.{opened};
ghost use Rattle.posix_model.specs.Pages.{first_fault, on_open};
ghost use Rattle.posix_model.specs.Pwrite.{pwrite_faults, pwrite};

use crate::puts::{fitting, is_past_limit, puts};
use crate::targets::{file_at, is_regular};
use call_types::bounded::Payload;
use call_types::errno::Errno;
use call_types::limits::{Bounds, TRANSFER_MAX};
use posix_model::change::{Decided, TableEdit, refused};
use posix_model::opened::OpenDescriptor;
use posix_model::reader::WorldReader;

/// The first refusal of a pwrite of an open descriptor.
fn pwrite_fault(
    bounds: Bounds,
    descriptor: &OpenDescriptor,
    start: i64,
    bytes: &Payload,
) -> Option<Errno>
    ensures { result ≡ first_fault (pwrite_faults bounds start bytes.now descriptor.now) }
{
    if !descriptor.description.mode.can_write() {
        return Some(Errno::EBADF);
    }
    if !is_regular(descriptor) {
        return Some(Errno::ESPIPE);
    }
    if start < 0 {
        return Some(Errno::EINVAL);
    }
    if bytes.len() > TRANSFER_MAX {
        return Some(Errno::EINVAL);
    }
    if is_past_limit(bounds, start.unsigned_abs(), bytes) {
        return Some(Errno::EFBIG);
    }
    None
}

/// What pwrite comes to: EBADF, ESPIPE, EINVAL, EFBIG, or how many of the bytes fit from the position on, under append too.
/// The offset stays (page of write, pwrite).
#[inline(always)]
pub fn decide_pwrite<R: WorldReader>(
    state: &R,
    bounds: Bounds,
    process: usize,
    fd: i32,
    start: i64,
    bytes: &Payload,
) -> Decided
    ensures { result ≡ on_open (opened (R.world state.now) process fd) (pwrite bounds start bytes.now) }
{
    let descriptor = match state.opened(process, fd) {
        None => return refused(Errno::EBADF),
        Some(descriptor) => descriptor,
    };
    if let Some(error) = pwrite_fault(bounds, &descriptor, start, bytes) {
        return refused(error);
    }
    let start = start.unsigned_abs();
    let count = fitting(bounds, start, bytes);
    puts(
        bytes,
        file_at(&descriptor),
        start as usize,
        count,
        TableEdit::Nothing,
    )
}

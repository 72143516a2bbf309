ghost use Rattle.std.specs.Prelude.{◌≡◌};
ghost use Rattle.posix_model.specs.Descriptors.{opened};
ghost use Rattle.posix_model.specs.Pages.{first_fault, on_open};
ghost use Rattle.posix_model.specs.Ftruncate.{ftruncate_faults, ftruncate};

use crate::targets::{file_at, is_regular};
use call_types::errno::Errno;
use call_types::limits::Bounds;
use call_types::outcome::Reply;
use posix_model::change::{Decided, FileEdit, TableEdit, does, refused};
use posix_model::opened::OpenDescriptor;
use posix_model::reader::WorldReader;

/// The first refusal of an ftruncate of an open descriptor.
fn ftruncate_fault(bounds: Bounds, descriptor: &OpenDescriptor, len: i64) -> Option<Errno>
    ensures { result ≡ first_fault (ftruncate_faults bounds len descriptor.now) }
{
    if len < 0 {
        return Some(Errno::EINVAL);
    }
    if !is_regular(descriptor) {
        return Some(Errno::EINVAL);
    }
    if !descriptor.description.mode.can_write() {
        return Some(Errno::EINVAL);
    }
    if len.unsigned_abs() > bounds.file_size {
        return Some(Errno::EFBIG);
    }
    None
}

/// What ftruncate comes to: EBADF, EINVAL, EFBIG over the size limit, or a file of this length, in bytes (page of ftruncate).
#[inline(always)]
pub fn decide_ftruncate<R: WorldReader>(
    state: &R,
    bounds: Bounds,
    process: usize,
    fd: i32,
    len: i64,
) -> Decided
    ensures { result ≡ on_open (opened (R.world state.now) process fd) (ftruncate bounds len) }
{
    let descriptor = match state.opened(process, fd) {
        None => return refused(Errno::EBADF),
        Some(descriptor) => descriptor,
    };
    if let Some(error) = ftruncate_fault(bounds, &descriptor, len) {
        return refused(error);
    }
    let edit = FileEdit::Resize {
        file: file_at(&descriptor),
        len: len.unsigned_abs() as usize,
    };
    does(Reply::Done, edit, TableEdit::Nothing)
}

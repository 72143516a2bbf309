ghost use Rattle.std.specs.Prelude.{◌≡◌, pos, ◌+ℤ◌};
ghost use Rattle.posix_model.specs.Descriptors.{opened};
ghost use Rattle.posix_model.specs.Pages.{first_fault, on_open};
ghost use Rattle.posix_model.specs.Lseek.{base_of, lseek_faults, lseek};

use crate::targets::{file_at, is_regular};
use call_types::description::DescriptionEdit;
use call_types::errno::Errno;
use call_types::limits::OFFSET_MAX;
use call_types::outcome::Reply;
use call_types::whence::Whence;
use posix_model::change::{Decided, FileEdit, TableEdit, does, refused};
use posix_model::opened::OpenDescriptor;
use posix_model::reader::WorldReader;

/// From where the offset is counted, in bytes: the start, the offset or the end.
fn base_of<R: WorldReader>(state: &R, descriptor: &OpenDescriptor, whence: Whence) -> u64
    ensures { result ≡ base_of (R.world state.now) descriptor.now whence }
{
    match whence {
        Whence::Set => 0,
        Whence::Cur => descriptor.description.offset,
        Whence::End => state.length_of(file_at(descriptor)) as u64,
    }
}

/// The byte so far after a base; it may be before the start of the file or past the greatest offset.
fn sought(base: u64, offset: i64) -> i128
    ensures { result ≡ pos base +ℤ offset }
{
    i128::from(base) + i128::from(offset)
}

/// The first refusal of an lseek of an open descriptor that leads to the byte `to`.
fn lseek_fault(descriptor: &OpenDescriptor, to: i128) -> Option<Errno>
    ensures { result ≡ first_fault (lseek_faults to descriptor.now) }
{
    if !is_regular(descriptor) {
        return Some(Errno::ESPIPE);
    }
    if to < 0 {
        return Some(Errno::EINVAL);
    }
    if to > i128::from(OFFSET_MAX) {
        return Some(Errno::EOVERFLOW);
    }
    None
}

/// What lseek comes to: EBADF, ESPIPE, EINVAL before the start of the file, EOVERFLOW past the greatest offset, or the new
/// offset (page of lseek).
#[inline(always)]
pub fn decide_lseek<R: WorldReader>(
    state: &R,
    process: usize,
    fd: i32,
    offset: i64,
    whence: Whence,
) -> Decided
    ensures { result ≡ on_open (opened (R.world state.now) process fd) (lseek (R.world state.now) offset whence) }
{
    let descriptor = match state.opened(process, fd) {
        None => return refused(Errno::EBADF),
        Some(descriptor) => descriptor,
    };
    let to = sought(base_of(state, &descriptor, whence), offset);
    if let Some(error) = lseek_fault(&descriptor, to) {
        return refused(error);
    }
    let offset = to.unsigned_abs() as u64;
    let number = descriptor.number.again();
    let edit = DescriptionEdit::Offset { offset };
    does(
        Reply::Number(offset),
        FileEdit::Nothing,
        TableEdit::Describe { number, edit },
    )
}

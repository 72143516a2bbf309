ghost use Rattle.std.specs.Prelude.{◌≡◌};
ghost use Rattle.posix_model.specs.Descriptors.{opened};
ghost use Rattle.posix_model.specs.Pages.{on_open};
ghost use Rattle.posix_model.specs.Getfl.{getfl};

use bitflags::Flags;
use call_types::errno::Errno;
use call_types::outcome::Reply;
use posix_model::change::{Decided, refused, tells};
use posix_model::reader::WorldReader;

/// What getfl comes to: EBADF, or how the file is accessed, append and nonblock, as the bits of `OpenFlags` (page of fcntl, F_GETFL).
#[inline(always)]
pub fn decide_getfl<R: WorldReader>(state: &R, process: usize, fd: i32) -> Decided
    ensures { result ≡ on_open (opened (R.world state.now) process fd) getfl }
{
    match state.opened(process, fd) {
        None => refused(Errno::EBADF),
        Some(descriptor) => tells(Reply::Number(descriptor.description.flags().bits() as u64)),
    }
}

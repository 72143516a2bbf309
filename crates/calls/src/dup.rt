ghost use Rattle.std.specs.Prelude.{◌≡◌};
ghost use Rattle.posix_model.specs.Descriptors.{opened};
ghost use Rattle.posix_model.specs.Pages.{on_open};
ghost use Rattle.posix_model.specs.Dup.{dup};

use call_types::errno::Errno;
use call_types::outcome::Reply;
use posix_model::change::{Decided, FileEdit, TableEdit, does, refused};
use posix_model::reader::WorldReader;

/// What dup comes to: EBADF, EMFILE, or one more descriptor of the same open file description (page of dup).
#[inline(always)]
pub fn decide_dup<R: WorldReader>(state: &R, process: usize, fd: i32) -> Decided
    ensures { result ≡ on_open (opened (R.world state.now) process fd) (dup (R.world state.now) process) }
{
    let Some(descriptor) = state.opened(process, fd) else {
        return refused(Errno::EBADF);
    };
    let Some(fd) = state.lowest_free(process) else {
        return refused(Errno::EMFILE);
    };
    let edit = TableEdit::Entry {
        process,
        fd,
        entry: Some(descriptor.number),
    };
    does(Reply::Number(fd as u64), FileEdit::Nothing, edit)
}

ghost use Rattle.std.specs.Prelude.{◌≡◌};
ghost use Rattle.posix_model.specs.Descriptors.{opened};
ghost use Rattle.posix_model.specs.Pages.{on_open};
ghost use Rattle.posix_model.specs.Dup2.{is_no_descriptor, dup2};

use call_types::errno::Errno;
use call_types::limits::OPEN_MAX;
use call_types::outcome::Reply;
use posix_model::change::{Decided, FileEdit, TableEdit, does, refused, tells};
use posix_model::reader::WorldReader;

/// Whether a number can be no descriptor: it is negative, or 32 (OPEN_MAX) or more.
fn is_no_descriptor(to: i32) -> bool
    ensures { result ≡ is_no_descriptor to }
{
    to < 0 || to.unsigned_abs() as usize >= OPEN_MAX
}

/// What dup2 comes to: EBADF, or one more descriptor of the same open file description, under the number that is asked (page of dup2).
#[inline(always)]
pub fn decide_dup2<R: WorldReader>(state: &R, process: usize, fd: i32, to: i32) -> Decided
    ensures { result ≡ on_open (opened (R.world state.now) process fd) (dup2 process to) }
{
    let Some(descriptor) = state.opened(process, fd) else {
        return refused(Errno::EBADF);
    };
    if is_no_descriptor(to) {
        return refused(Errno::EBADF);
    }
    let to = to.unsigned_abs() as usize;
    if to == descriptor.fd {
        return tells(Reply::Number(to as u64));
    }
    let edit = TableEdit::Entry {
        process,
        fd: to,
        entry: Some(descriptor.number),
    };
    does(Reply::Number(to as u64), FileEdit::Nothing, edit)
}

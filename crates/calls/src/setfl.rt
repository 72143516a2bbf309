ghost use Rattle.std.specs.Prelude.{◌≡◌};
ghost use Rattle.posix_model.specs.Descriptors.{opened};
ghost use Rattle.posix_model.specs.Pages.{on_open};
ghost use Rattle.posix_model.specs.Setfl.{status_flags, setfl};

use call_types::description::DescriptionEdit;
use call_types::errno::Errno;
use call_types::flags::OpenFlags;
use call_types::outcome::Reply;
use posix_model::change::{Decided, FileEdit, TableEdit, does, refused};
use posix_model::reader::WorldReader;

/// Append and nonblock, as these flags have them.
fn status_flags(flags: OpenFlags) -> DescriptionEdit
    ensures { result ≡ status_flags flags }
{
    DescriptionEdit::Flags {
        append: flags.has(OpenFlags::APPEND),
        nonblock: flags.has(OpenFlags::NONBLOCK),
    }
}

/// What setfl comes to: EBADF, or append and nonblock of the open file description as the flags have them; other flags are passed
/// over (page of fcntl, F_SETFL).
#[inline(always)]
pub fn decide_setfl<R: WorldReader>(state: &R, process: usize, fd: i32, flags: OpenFlags) -> Decided
    ensures { result ≡ on_open (opened (R.world state.now) process fd) (setfl flags) }
{
    let Some(descriptor) = state.opened(process, fd) else {
        return refused(Errno::EBADF);
    };
    let number = descriptor.number.again();
    let edit = status_flags(flags);
    let described = TableEdit::Describe { number, edit };
    does(Reply::Done, FileEdit::Nothing, described)
}

ghost use Rattle.std.specs.Prelude.{◌≡◌};
ghost use Rattle.posix_model.specs.Descriptors.{opened};
ghost use Rattle.posix_model.specs.Pages.{on_open};
ghost use Rattle.posix_model.specs.Close.{close};

use call_types::errno::Errno;
use call_types::outcome::Reply;
use posix_model::change::{Decided, FileEdit, TableEdit, does, refused};
use posix_model::reader::WorldReader;

/// What close comes to: EBADF, or a free descriptor (page of close).
#[inline(always)]
pub fn decide_close<R: WorldReader>(state: &R, process: usize, fd: i32) -> Decided
    ensures { result ≡ on_open (opened (R.world state.now) process fd) (close process) }
{
    match state.opened(process, fd) {
        None => refused(Errno::EBADF),
        Some(descriptor) => {
            let edit = TableEdit::Entry {
                process,
                fd: descriptor.fd,
                entry: None,
            };
            does(Reply::Done, FileEdit::Nothing, edit)
        }
    }
}

ghost use Rattle.std.specs.Prelude.{◌≡◌};
ghost use Rattle.posix_model.specs.Pages.{decided_by};
ghost use Rattle.posix_model.specs.Attach.{attach};

use call_types::errno::Errno;
use call_types::outcome::Reply;
use posix_model::change::{Decided, ProcessEdit, acts, refused};
use posix_model::reader::WorldReader;

/// What an attach comes to: ESRCH, or a child that has its connection.
#[inline(always)]
pub fn decide_attach<R: WorldReader>(state: &R, process: usize) -> Decided
    ensures { result ≡ decided_by (attach (R.world state.now) process) }
{
    if !state.awaits(process) {
        return refused(Errno::ESRCH);
    }
    acts(Reply::Done, ProcessEdit::Attach { process })
}

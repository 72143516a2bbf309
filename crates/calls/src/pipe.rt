ghost use Rattle.std.specs.Prelude.{◌≡◌};
ghost use Rattle.posix_model.specs.Pages.{decided_by};
ghost use Rattle.posix_model.specs.Pipe.{pipe};

use call_types::errno::Errno;
use call_types::limits::DESCRIPTIONS_MAX;
use call_types::outcome::Reply;
use posix_model::change::{Decided, FileEdit, TableEdit, does, refused};
use posix_model::reader::WorldReader;

/// What pipe comes to: EMFILE, ENFILE, or the two ends of a new pipe, under the two lowest free descriptors (page of pipe).
#[inline(always)]
pub fn decide_pipe<R: WorldReader>(state: &R, process: usize) -> Decided
    ensures { result ≡ decided_by (pipe (R.world state.now) process) }
{
    let (reading, writing) = match state.two_lowest_free(process) {
        None => return refused(Errno::EMFILE),
        Some(free) => free,
    };
    if state.live_descriptions() > DESCRIPTIONS_MAX - 2 {
        return refused(Errno::ENFILE);
    }
    let edit = TableEdit::OpenPair {
        process,
        reading,
        writing,
    };
    let reply = Reply::Pair(reading as u32, writing as u32);
    does(reply, FileEdit::Nothing, edit)
}

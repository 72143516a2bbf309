ghost use Rattle.std.specs.Prelude.{◌≡◌, false, IfOk, OnErr};
ghost use Rattle.posix_model.specs.Pages.{decided_by};
ghost use Rattle.posix_model.specs.Join.{is_full};
ghost use Rattle.posix_model.specs.Fork.{fork};

use crate::join::is_full;
use call_types::errno::Errno;
use call_types::outcome::Reply;
use posix_model::change::{Decided, ProcessEdit, acts, refused};
use posix_model::reader::WorldReader;
use std::alloc::{AllocError, Global};

/// What fork comes to: EAGAIN, or a child with the same descriptors under the next number (page of fork). An error says that
/// memory for its descriptors ran out.
#[inline(always)]
pub fn decide_fork<R: WorldReader>(
    state: &R,
    alloc: Global,
    process: usize,
) -> Result<Decided, AllocError>
    ensures page { IfOk result (λ d. d ≡ decided_by (fork (R.world state.now) process)) }
    ensures needed { OnErr result (is_full (R.world state.now) ≡ false) }
{
    if is_full(state) {
        return Ok(refused(Errno::EAGAIN));
    }
    let number = state.next_process() as u64;
    let edit = ProcessEdit::Add {
        table: state.copied_table(alloc, process)?,
        attached: false,
    };
    Ok(acts(Reply::Number(number), edit))
}

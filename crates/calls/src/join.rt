ghost use Rattle.std.specs.Prelude.{◌≡◌, false, IfOk, OnErr};
ghost use Rattle.posix_model.specs.Pages.{decided_by};
ghost use Rattle.posix_model.specs.Join.{is_full, join};

use call_types::errno::Errno;
use call_types::limits::PROCESSES_MAX;
use call_types::outcome::Reply;
use posix_model::change::{Decided, ProcessEdit, acts, refused};
use posix_model::reader::WorldReader;
use process_table::table::DescriptorTable;
use std::alloc::{AllocError, Global};

/// Whether no further process may be made: there are PROCESSES_MAX already, or the run is closed.
pub fn is_full<R: WorldReader>(state: &R) -> bool
    ensures { result ≡ is_full (R.world state.now) }
{
    state.is_closed() || state.live_processes() >= PROCESSES_MAX
}

/// What a join comes to: EAGAIN, or a new process under the next number. An error says that memory for one ran out.
#[inline(always)]
pub fn decide_join<R: WorldReader>(state: &R, alloc: Global) -> Result<Decided, AllocError>
    ensures page { IfOk result (λ d. d ≡ decided_by (join (R.world state.now))) }
    ensures needed { OnErr result (is_full (R.world state.now) ≡ false) }
{
    if is_full(state) {
        return Ok(refused(Errno::EAGAIN));
    }
    let number = state.next_process() as u64;
    let edit = ProcessEdit::Add {
        table: DescriptorTable::free(alloc)?,
        attached: true,
    };
    Ok(acts(Reply::Number(number), edit))
}

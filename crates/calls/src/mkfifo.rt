ghost use Rattle.std.specs.Prelude.{◌≡◌, None, IfOk, OnErr};
ghost use Rattle.posix_model.specs.Pages.{first_fault, decided_by};
ghost use Rattle.posix_model.specs.Mkfifo.{new_name_faults, mkfifo};

use crate::names::{name_fault, names_full};
use call_types::bounded::Name;
use call_types::errno::Errno;
use call_types::outcome::Reply;
use posix_model::change::{Decided, FileEdit, TableEdit, does, refused};
use posix_model::reader::WorldReader;
use std::alloc::AllocError;

/// The first refusal of a name that may be taken: EEXIST or ENOSPC.
fn new_name_fault<R: WorldReader>(state: &R, name: &[u8]) -> Option<Errno>
    ensures { result ≡ first_fault (new_name_faults (R.world state.now) name.now) }
{
    if state.file_of(name).is_some() {
        return Some(Errno::EEXIST);
    }
    if names_full(state) {
        return Some(Errno::ENOSPC);
    }
    None
}

/// The first refusal of a mkfifo.
fn mkfifo_fault<R: WorldReader>(state: &R, name: &[u8]) -> Option<Errno>
    ensures { result ≡ first_fault (mkfifo (R.world state.now) name.now).faults }
{
    name_fault(name).or(new_name_fault(state, name))
}

/// What mkfifo comes to: a fault of the name, EEXIST, ENOSPC, or a FIFO that has this name (page of mkfifo). An error says that
/// memory for the name ran out.
#[inline(always)]
pub fn decide_mkfifo<R: WorldReader>(state: &R, name: &Name) -> Result<Decided, AllocError>
    ensures page { IfOk result (λ d. d ≡ decided_by (mkfifo (R.world state.now) name.now)) }
    ensures needed { OnErr result (first_fault (mkfifo (R.world state.now) name.now).faults ≡ None) }
{
    if let Some(error) = mkfifo_fault(state, name.as_slice()) {
        return Ok(refused(error));
    }
    let name = name.clone()?;
    let edit = FileEdit::MakeFifo { name };
    Ok(does(Reply::Done, edit, TableEdit::Nothing))
}

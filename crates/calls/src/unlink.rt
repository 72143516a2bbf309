ghost use Rattle.std.specs.Prelude.{◌≡◌, None, IfOk, OnErr};
ghost use Rattle.posix_model.specs.Pages.{first_fault, decided_by};
ghost use Rattle.posix_model.specs.Unlink.{unlink_faults, unlink};

use crate::names::name_fault;
use call_types::bounded::Name;
use call_types::errno::Errno;
use call_types::outcome::Reply;
use posix_model::change::{Decided, FileEdit, NameEdit, TableEdit, does, refused};
use posix_model::reader::WorldReader;
use std::alloc::AllocError;

/// The first refusal of an unlink: of the name, or ENOENT.
fn unlink_fault<R: WorldReader>(state: &R, name: &[u8]) -> Option<Errno>
    ensures { result ≡ first_fault (unlink_faults (R.world state.now) name.now) }
{
    let missing = match state.file_of(name) {
        None => Some(Errno::ENOENT),
        Some(_) => None,
    };
    name_fault(name).or(missing)
}

/// What unlink comes to: a fault of the name, ENOENT, or one name less (page of unlink). An error says that memory for the name
/// ran out.
#[inline(always)]
pub fn decide_unlink<R: WorldReader>(state: &R, name: &Name) -> Result<Decided, AllocError>
    ensures page { IfOk result (λ d. d ≡ decided_by (unlink (R.world state.now) name.now)) }
    ensures needed { OnErr result (first_fault (unlink_faults (R.world state.now) name.now) ≡ None) }
{
    if let Some(error) = unlink_fault(state, name.as_slice()) {
        return Ok(refused(error));
    }
    let name = name.clone()?;
    let edit = NameEdit::Remove { name };
    Ok(does(Reply::Done, FileEdit::Names(edit), TableEdit::Nothing))
}

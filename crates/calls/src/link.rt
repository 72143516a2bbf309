ghost use Rattle.std.specs.Prelude.{◌≡◌, None, IfOk, OnErr};
ghost use Rattle.posix_model.specs.Pages.{first_fault, decided_by};
ghost use Rattle.posix_model.specs.Link.{linked_faults, link_at, link};

use crate::names::{name_fault, names_full};
use call_types::bounded::Name;
use call_types::errno::Errno;
use call_types::limits::LINK_MAX;
use call_types::outcome::Reply;
use posix_model::change::{Decided, FileEdit, NameEdit, TableEdit, does, refused};
use posix_model::reader::WorldReader;
use std::alloc::AllocError;

/// The first refusal of the file that the old name leads to, and of the new name: ENOENT, EEXIST, EMLINK or ENOSPC.
fn linked_fault<R: WorldReader>(state: &R, new: &[u8], found: Option<usize>) -> Option<Errno>
    ensures { result ≡ first_fault (linked_faults (R.world state.now) new.now found) }
{
    if found.is_none() {
        return Some(Errno::ENOENT);
    }
    if state.file_of(new).is_some() {
        return Some(Errno::EEXIST);
    }
    if state.links(found.unwrap_or(0)) >= LINK_MAX {
        return Some(Errno::EMLINK);
    }
    if names_full(state) {
        return Some(Errno::ENOSPC);
    }
    None
}

/// The first refusal of a link of an old name that leads to `found`.
fn link_fault<R: WorldReader>(
    state: &R,
    old: &Name,
    new: &Name,
    found: Option<usize>,
) -> Option<Errno>
    ensures { result ≡ first_fault (link_at (R.world state.now) old.now new.now found).faults }
{
    let (old, new) = (old.as_slice(), new.as_slice());
    name_fault(old).or(name_fault(new).or(linked_fault(state, new, found)))
}

/// What link comes to: the faults of the old name and of the new one, ENOENT, EEXIST, EMLINK, ENOSPC, or one more name of the
/// file (page of link). An error says that memory for the name ran out.
#[inline(always)]
pub fn decide_link<R: WorldReader>(state: &R, old: &Name, new: &Name) -> Result<Decided, AllocError>
    ensures page { IfOk result (λ d. d ≡ decided_by (link (R.world state.now) old.now new.now)) }
    ensures needed { OnErr result (first_fault (link (R.world state.now) old.now new.now).faults ≡ None) }
{
    let found = state.file_of(old.as_slice());
    if let Some(error) = link_fault(state, old, new, found) {
        return Ok(refused(error));
    }
    let name = new.clone()?;
    let file = found.unwrap_or(0);
    let edit = NameEdit::Add { name, file };
    Ok(does(Reply::Done, FileEdit::Names(edit), TableEdit::Nothing))
}

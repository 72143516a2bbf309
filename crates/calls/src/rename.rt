ghost use Rattle.std.specs.Prelude.{◌≡◌, None, IfOk, OnErr};
ghost use Rattle.posix_model.specs.Pages.{first_fault, decided_by};
ghost use Rattle.posix_model.specs.Rename.{leads_to, rename_faults, moves_name, rename};

use crate::names::name_fault;
use call_types::bounded::Name;
use call_types::errno::Errno;
use call_types::outcome::Reply;
use posix_model::change::{Decided, FileEdit, NameEdit, TableEdit, does, refused, tells};
use posix_model::kept_name::KeptName;
use posix_model::reader::WorldReader;
use std::alloc::{AllocError, Global};

/// The first refusal of two names, of which the old one leads to `found`.
fn rename_fault(old: &[u8], new: &[u8], found: Option<usize>) -> Option<Errno>
    ensures { result ≡ first_fault (rename_faults old.now new.now found) }
{
    let missing = match found {
        None => Some(Errno::ENOENT),
        Some(_) => None,
    };
    name_fault(old).or(name_fault(new).or(missing))
}

/// Whether a name that leads to `found` leads to this file.
fn leads_to(file: usize, found: Option<usize>) -> bool
    ensures { result ≡ leads_to file found }
{
    match found {
        None => false,
        Some(other) => other == file,
    }
}

/// The file of the old name has the new one in its place, unless both lead to it. An error says that memory for the names ran out.
fn moves_name<R: WorldReader>(
    state: &R,
    alloc: Global,
    old: &Name,
    new: &Name,
    file: usize,
) -> Result<Decided, AllocError>
    ensures { IfOk result (λ d. d ≡ moves_name (R.world state.now) old.now new.now file) }
{
    if leads_to(file, state.file_of(new.as_slice())) {
        return Ok(tells(Reply::Done));
    }
    let (old, new) = (old.clone()?, KeptName::copied(alloc, new)?);
    let edit = NameEdit::Move { old, new };
    Ok(does(Reply::Done, FileEdit::Names(edit), TableEdit::Nothing))
}

/// What rename comes to: the faults of the old name and of the new one, ENOENT, or another name of the file, which what had that
/// name loses; two names of one file both stay (page of rename). An error says that memory for the names ran out.
#[inline(always)]
pub fn decide_rename<R: WorldReader>(
    state: &R,
    alloc: Global,
    old: &Name,
    new: &Name,
) -> Result<Decided, AllocError>
    ensures page { IfOk result (λ d. d ≡ decided_by (rename (R.world state.now) old.now new.now)) }
    ensures needed { OnErr result (first_fault (rename (R.world state.now) old.now new.now).faults ≡ None) }
{
    let found = state.file_of(old.as_slice());
    if let Some(error) = rename_fault(old.as_slice(), new.as_slice(), found) {
        return Ok(refused(error));
    }
    moves_name(state, alloc, old, new, found.unwrap_or(0))
}

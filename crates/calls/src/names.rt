ghost use Rattle.std.specs.Prelude.{◌≡◌};
ghost use Rattle.std.specs.List.{list_all};
ghost use Rattle.posix_model.specs.Pages.{first_fault};
ghost use Rattle.posix_model.specs.Open.{is_name_byte, is_dots, name_faults, names_full};

use call_types::errno::Errno;
use call_types::limits::{NAME_MAX, NAMES_MAX};
use posix_model::reader::WorldReader;

/// Whether a byte may stand in a name (XBD 3, Portable Filename Character Set).
fn is_name_byte(byte: u8) -> bool
    ensures { result ≡ is_name_byte byte }
{
    byte.is_ascii_alphanumeric() || b"._-".contains(&byte)
}

/// Whether a name is one of . and .., which are directories.
fn is_dots(name: &[u8]) -> bool
    ensures { result ≡ is_dots name.now }
{
    name == b".".as_slice() || name == b"..".as_slice()
}

/// Whether each byte may stand in a name.
fn is_portable(name: &[u8]) -> bool
    ensures { result ≡ list_all is_name_byte name.now }
{
    name.iter().all(|byte| is_name_byte(*byte))
}

/// The first refusal of a name: ENOENT, ENAMETOOLONG or EINVAL.
pub fn name_fault(name: &[u8]) -> Option<Errno>
    ensures { result ≡ first_fault (name_faults name.now) }
{
    if name.is_empty() {
        return Some(Errno::ENOENT);
    }
    if name.len() > NAME_MAX {
        return Some(Errno::ENAMETOOLONG);
    }
    if is_dots(name) || !is_portable(name) {
        return Some(Errno::EINVAL);
    }
    None
}

/// Whether there may be no further name.
pub fn names_full<R: WorldReader>(state: &R) -> bool
    ensures { result ≡ names_full (R.world state.now) }
{
    state.name_count() >= NAMES_MAX
}

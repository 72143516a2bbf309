ghost use Rattle.std.specs.Prelude.{◌≡◌};
ghost use Rattle.posix_model.specs.Counts.{links, is_pipe, reads, writes, readers, writers};

use call_types::bounded::Name;
use call_types::description::{Description, Target};
use slots::dense::Slots;

/// How many names a file has (XBD 3, Link Count).
pub fn links(entries: &[(Name, usize)], file: usize) -> usize
    ensures { result ≡ links entries.now file }
{
    entries.iter().filter(|entry| entry.1 == file).count()
}

/// Whether a target is an end of the pipe of a number.
pub fn is_pipe(number: usize, target: Target) -> bool
    ensures { result ≡ is_pipe number target }
{
    match target {
        Target::Pipe { pipe } | Target::Fifo { pipe, .. } => pipe == number,
        Target::Regular { .. } => false,
    }
}

/// Whether a slot has a description that is a reading end of the pipe of a number.
fn reads(number: usize, slot: Option<Description>) -> bool
    ensures { result ≡ reads number slot }
{
    match slot {
        Some(description) => { is_pipe(number, description.target) && description.mode.can_read() }
        None => false,
    }
}

/// Whether a slot has a description that is a writing end of the pipe of a number.
fn writes(number: usize, slot: Option<Description>) -> bool
    ensures { result ≡ writes number slot }
{
    match slot {
        Some(description) => { is_pipe(number, description.target) && description.mode.can_write() }
        None => false,
    }
}

/// How many reading ends a pipe has.
pub fn readers(descriptions: &Slots<Description>, pipe: usize) -> usize
    ensures { result ≡ readers descriptions.now pipe }
{
    descriptions
        .all()
        .iter()
        .filter(|slot| reads(pipe, **slot))
        .count()
}

/// How many writing ends a pipe has.
pub fn writers(descriptions: &Slots<Description>, pipe: usize) -> usize
    ensures { result ≡ writers descriptions.now pipe }
{
    descriptions
        .all()
        .iter()
        .filter(|slot| writes(pipe, **slot))
        .count()
}

ghost use Rattle.std.specs.Prelude.{◌≡◌, count_by, nat_lt};
ghost use Rattle.std.specs.List.{list_any};
ghost use Rattle.posix_model.specs.Counts.{refers, refs_of, is_file, holds, holders};

use call_types::description::{Description, Target};
use process_table::process::Process;
use process_table::table::DescriptorTable;
use slots::dense::Slots;
use slots::ticket::Ticket;

/// Whether a descriptor refers to the description of a number.
fn refers(number: usize, entry: &Option<Ticket>) -> bool
    ensures { result ≡ refers number entry.now }
{
    match entry {
        Some(other) => other.number() == number,
        None => false,
    }
}

/// How many descriptors of a table refer to the description of a number.
fn entries_of(number: usize, table: &DescriptorTable) -> usize
    ensures { result ≡ count_by (refers number) table.now }
{
    table
        .entries()
        .iter()
        .filter(|entry| refers(number, *entry))
        .count()
}

/// How many descriptors of a process refer to the description of a number.
fn refs_of(number: usize, process: &Option<Process>) -> usize
    ensures { result ≡ refs_of number process.now }
{
    match process {
        Some(process) => entries_of(number, &process.table),
        None => 0,
    }
}

/// Whether a target is the file of a number.
fn is_file(number: usize, target: Target) -> bool
    ensures { result ≡ is_file number target }
{
    match target {
        Target::Regular { file } | Target::Fifo { file, .. } => file == number,
        Target::Pipe { .. } => false,
    }
}

/// Whether a slot has a description that holds the file of a number.
fn holds(number: usize, slot: Option<Description>) -> bool
    ensures { result ≡ holds number slot }
{
    match slot {
        Some(description) => is_file(number, description.target),
        None => false,
    }
}

/// How many descriptions hold a file.
pub(crate) fn holders(descriptions: &Slots<Description>, file: usize) -> usize
    ensures { result ≡ holders descriptions.now file }
{
    descriptions
        .all()
        .iter()
        .filter(|slot| holds(file, **slot))
        .count()
}

/// Whether a descriptor of any process refers to the description of a number.
pub(crate) fn any_refers(number: usize, processes: &Slots<Process>) -> bool
    ensures { result ≡ list_any (λ process. nat_lt 0 (refs_of number process)) processes.now }
{
    processes
        .all()
        .iter()
        .any(|process| refs_of(number, process) > 0)
}

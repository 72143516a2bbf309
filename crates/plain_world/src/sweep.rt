//! What nothing refers to any more goes. A list is swept slot by slot.
#![tactic(auto, using(crate::proofs::SweepLemmas::kept_all))]

ghost use Rattle.std.specs.Prelude.{◌≡◌, map, slice_set};
ghost use Rattle.slots.specs.Slots.{slot, kept};
ghost use Rattle.posix_model.specs.Sweep.{is_referred, is_open, is_wanted, open_pipe, without_gone_pipe, sweep};

use crate::counts::{any_refers, holders};
use call_types::description::Description;
use posix_model::contents::Contents;
use posix_model::counts::{links, readers, writers};
use posix_model::names::Names;
use posix_model::world::{Fifo, File, World};
use process_table::process::Process;
use slots::dense::Slots;

/// Whether an open file description stays: while a descriptor refers to it.
fn is_referred(processes: &Slots<Process>, number: usize) -> bool
    ensures { result ≡ is_referred processes.now number }
{
    any_refers(number, processes)
}

/// Whether an end of a pipe is open.
fn is_open(descriptions: &Slots<Description>, pipe: usize) -> bool
    ensures { result ≡ is_open descriptions.now pipe }
{
    readers(descriptions, pipe) > 0 || writers(descriptions, pipe) > 0
}

/// Whether a file has a name or is held by a description.
fn is_wanted(names: &Names, descriptions: &Slots<Description>, file: usize) -> bool
    ensures { result ≡ is_wanted names.now descriptions.now file }
{
    links(names.entries(), file) > 0 || holders(descriptions, file) > 0
}

/// The pipe of a FIFO, if an end of it is open.
fn open_pipe(descriptions: &Slots<Description>, pipe: Option<usize>) -> Option<usize>
    ensures { result ≡ open_pipe descriptions.now pipe }
{
    let pipe = pipe?;
    if is_open(descriptions, pipe) {
        Some(pipe)
    } else {
        None
    }
}

/// Lets a FIFO forget a pipe that is gone.
fn forget_gone_pipe(descriptions: &Slots<Description>, files: &mut Slots<File>, file: usize)
    ensures { files.new ≡ slice_set files.old file (without_gone_pipe descriptions.now (slot files.old file)) }
{
    if let Some(File::Fifo(fifo)) = files.get(file) {
        let pipe = open_pipe(descriptions, fifo.pipe);
        let fifo = Fifo { pipe, ..*fifo };
        files.put(file, Some(File::Fifo(fifo)));
    }
}

/// Removes the descriptions without a descriptor.
fn sweep_descriptions(processes: &Slots<Process>, descriptions: &mut Slots<Description>)
    ensures { descriptions.new ≡ kept (is_referred processes.now) descriptions.old }
{
    for number in 0..descriptions.len() {
        descriptions.clear_unless(number, is_referred(processes, number));
    }
}

/// Removes the pipes without an open end.
fn sweep_pipes(descriptions: &Slots<Description>, pipes: &mut Slots<Contents>)
    ensures { pipes.new ≡ kept (is_open descriptions.now) pipes.old }
{
    for number in 0..pipes.len() {
        pipes.clear_unless(number, is_open(descriptions, number));
    }
}

/// The FIFOs forget the pipes that are gone.
fn forget_gone_pipes(descriptions: &Slots<Description>, files: &mut Slots<File>)
    ensures { files.new ≡ map (without_gone_pipe descriptions.now) files.old }
{
    for number in 0..files.len() {
        forget_gone_pipe(descriptions, files, number);
    }
}

/// Removes the files without a name or a holder.
fn sweep_files(names: &Names, descriptions: &Slots<Description>, files: &mut Slots<File>)
    ensures { files.new ≡ kept (is_wanted names.now descriptions.now) files.old }
{
    for number in 0..files.len() {
        files.clear_unless(number, is_wanted(names, descriptions, number));
    }
}

/// Removes what nothing refers to any more (page of close).
pub(crate) fn sweep(world: &mut World)
    ensures { world.new ≡ sweep world.old }
{
    sweep_descriptions(&world.processes, &mut world.descriptions);
    sweep_pipes(&world.descriptions, &mut world.pipes);
    forget_gone_pipes(&world.descriptions, &mut world.files);
    sweep_files(&world.names, &world.descriptions, &mut world.files);
}

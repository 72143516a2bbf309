//! Applies a change in place. If memory runs out, the world may be changed in part. A value that is edited is taken out
//! of its slot and put back, so its slot is set twice.
#![tactic(auto, using(crate::proofs::SlotLemmas::set_twice))]

ghost use Rattle.std.specs.Prelude.{◌≡◌, ◌+◌, ◌<◌, ◌≤◌, ◌^◌, None, length, slice_set, OnOk};
ghost use Rattle.posix_model.specs.Bytes.{splice, resized};
ghost use Rattle.slots.specs.Slots.{slot, edited};
ghost use Rattle.call_types.specs.Names.{file_of};
ghost use Rattle.call_types.specs.Stored.{span_bytes};
ghost use Rattle.call_types.specs.Descriptions.{described};
ghost use Rattle.process_table.specs.Processes.{with_connection, with_parked, with_total, with_entry};
ghost use Rattle.posix_model.specs.Descriptors.{file_bytes};
ghost use Rattle.posix_model.specs.Change.{renamed, bytes_from, created, with_files, with_processes, with_description, with_table, changed};
ghost use Rattle.posix_model.specs.Pipes.{with_opening};
ghost use Rattle.posix_model.specs.Proved.Fits.{NamesProper, FilesProper, IsProper};

use crate::pipes::{
    end_of, open_once, parked_bytes, pipe_for, pipe_of_fifo, put_bytes, take_first,
};
use call_types::bounded::Name;
use call_types::description::{Description, DescriptionEdit, Mode};
use call_types::span::Span;
use posix_model::change::{Change, DataSource, FileEdit, NameEdit, ProcessEdit, TableEdit};
use posix_model::contents::Contents;
use posix_model::runs::Runs;
use posix_model::world::{Fifo, File, World};
use process_table::process::{Parked, Process};
use slots::dense::Slots;
use slots::ticket::Ticket;
use std::alloc::{AllocError, Global};

/// A FIFO that nobody opened yet.
const UNOPENED: Fifo = Fifo {
    pipe: None,
    reader_openings: 0,
    writer_openings: 0,
};

/// Takes the bytes out of a regular file; none where there is no such file.
fn take_bytes(alloc: Global, files: &mut Slots<File>, file: usize) -> Runs
    ensures bytes { result ≡ file_bytes (slot files.old file) }
    ensures taken { files.new ≡ slice_set files.old file None }
{
    match files.take(file) {
        Some(File::Regular(runs)) => runs,
        _ => Runs::new(alloc),
    }
}

/// Writes bytes to a regular file from a position on.
fn write_bytes(
    alloc: Global,
    files: &mut Slots<File>,
    file: usize,
    start: usize,
    bytes: Span<'_>,
) -> Result<(), AllocError>
    requires { start + length (span_bytes bytes) < 2 ^ 63 }
    ensures { OnOk result (files.new ≡ slice_set files.old file (Some (File.Regular (splice (file_bytes (slot files.old file)) start (span_bytes bytes.entry))))) }
{
    let mut runs = take_bytes(alloc, files, file);
    runs.write_at(alloc, start, bytes)?;
    files.put(file, Some(File::Regular(runs)));
    Ok(())
}

/// Gives a regular file a length, in bytes.
fn resize(alloc: Global, files: &mut Slots<File>, file: usize, len: usize) -> Result<(), AllocError>
    requires { len < 2 ^ 63 }
    ensures { OnOk result (files.new ≡ slice_set files.old file (Some (File.Regular (resized (file_bytes (slot files.old file)) len)))) }
{
    let mut runs = take_bytes(alloc, files, file);
    runs.set_len(alloc, len)?;
    files.put(file, Some(File::Regular(runs)));
    Ok(())
}

/// Makes a new file of a new name.
fn make_file(world: &mut World, name: Name, new: File) -> Result<(), AllocError>
    requires { file_of name world.old.names ≡ None }
    ensures { OnOk result (world.new ≡ created world.old name new) }
{
    let file = world.files.len();
    world.files.push(new)?;
    world.names.put(name, file)
}

/// Puts the first bytes of the act, or of a call that waits, into a pipe.
fn put_into(
    world: &mut World,
    bytes: Span<'_>,
    pipe: usize,
    source: DataSource,
    count: usize,
) -> Result<(), AllocError>
    requires { count ≤ length (bytes_from world.old (span_bytes bytes) source) }
    ensures { OnOk result (world.new ≡ with_files world.old (span_bytes bytes.entry) (FileEdit.Put pipe source count)) }
{
    match source {
        DataSource::Act => put_bytes(&mut world.pipes, pipe, bytes.cut(0, count)),
        DataSource::Parked { process } => {
            let rest = parked_bytes(&world.processes, process);
            put_bytes(&mut world.pipes, pipe, rest.cut(0, count))
        }
    }
}

/// Makes an edit of names.
fn make_names(world: &mut World, edit: NameEdit) -> Result<(), AllocError>
    requires { NamesProper world.old edit }
    ensures { OnOk result (world.new ≡ record world.old { names = renamed edit world.old.names }) }
{
    match edit {
        NameEdit::Add { name, file } => world.names.put(name, file),
        NameEdit::Remove { name } => {
            world.names.remove(name.as_slice());
            Ok(())
        }
        NameEdit::Move { old, new } => {
            let new = new.into_name();
            let file = world.names.file_of(old.as_slice()).unwrap_or(0);
            world.names.remove(new.as_slice());
            world.names.remove(old.as_slice());
            world.names.put(new, file)
        }
    }
}

/// Makes an edit of files, of which the act gives these bytes.
fn make_files(
    alloc: Global,
    world: &mut World,
    bytes: Span<'_>,
    edit: FileEdit,
) -> Result<(), AllocError>
    requires { FilesProper world.old (span_bytes bytes) edit }
    ensures { OnOk result (world.new ≡ with_files world.old (span_bytes bytes.entry) edit) }
{
    match edit {
        FileEdit::Nothing => Ok(()),
        FileEdit::Bytes { file, start, count } => {
            write_bytes(alloc, &mut world.files, file, start, bytes.cut(0, count))
        }
        FileEdit::Resize { file, len } => resize(alloc, &mut world.files, file, len),
        FileEdit::Names(edit) => make_names(world, edit),
        FileEdit::MakeFile { name } => make_file(world, name, File::Regular(Runs::new(alloc))),
        FileEdit::MakeFifo { name } => make_file(world, name, File::Fifo(UNOPENED)),
        FileEdit::Put {
            pipe,
            source,
            count,
        } => put_into(world, bytes, pipe, source, count),
        FileEdit::Take { pipe, count } => take_first(alloc, &mut world.pipes, pipe, count),
    }
}

/// Gives a process its connection.
fn connect(processes: &mut Slots<Process>, number: usize)
    ensures { processes.new ≡ edited number with_connection processes.old }
{
    if let Some(mut process) = processes.take(number) {
        process.attached = true;
        processes.put(number, Some(process));
    }
}

/// Lets a process wait in this call, or in none.
fn set_parked(processes: &mut Slots<Process>, number: usize, parked: Option<Parked>)
    ensures { processes.new ≡ edited number (with_parked parked) processes.old }
{
    if let Some(mut process) = processes.take(number) {
        process.parked = parked;
        processes.put(number, Some(process));
    }
}

/// A process whose call has moved so many bytes in all.
fn with_total(mut process: Process, moved: u32) -> Process
    ensures { result ≡ with_total moved process }
{
    if let Some(parked) = &mut process.parked {
        parked.moved = moved;
    }
    process
}

/// The call that a process waits in has moved so many bytes in all.
fn set_moved(processes: &mut Slots<Process>, number: usize, moved: u32)
    ensures { processes.new ≡ edited number (with_total moved) processes.old }
{
    if let Some(process) = processes.take(number) {
        processes.put(number, Some(with_total(process, moved)));
    }
}

/// Makes an edit of processes.
fn make_processes(world: &mut World, edit: ProcessEdit) -> Result<(), AllocError>
    ensures { OnOk result (world.new ≡ with_processes world.old edit) }
{
    match edit {
        ProcessEdit::Nothing => {}
        ProcessEdit::Add { table, attached } => {
            world.processes.push(Process::new(table, attached))?;
        }
        ProcessEdit::Attach { process } => connect(&mut world.processes, process),
        ProcessEdit::Park { process, parked } => {
            set_parked(&mut world.processes, process, Some(parked));
        }
        ProcessEdit::Total { process, moved } => set_moved(&mut world.processes, process, moved),
        ProcessEdit::Unpark { process } => set_parked(&mut world.processes, process, None),
        ProcessEdit::Exit { process } => world.processes.put(process, None),
        ProcessEdit::Close => world.closed = true,
    }
    Ok(())
}

/// Lets a descriptor of a process refer to a description, or frees it.
fn set_descriptor(processes: &mut Slots<Process>, number: usize, fd: usize, entry: Option<Ticket>)
    ensures { processes.new ≡ edited number (with_entry fd entry) processes.old }
{
    if let Some(mut process) = processes.take(number) {
        process.table.replace(fd, entry);
        processes.put(number, Some(process));
    }
}

/// Gives a description another offset, or other flags.
fn describe(descriptions: &mut Slots<Description>, number: usize, edit: DescriptionEdit)
    ensures { descriptions.new ≡ edited number (described edit) descriptions.old }
{
    if let Some(mut description) = descriptions.take(number) {
        description.edit(edit);
        descriptions.put(number, Some(description));
    }
}

/// Lets a descriptor of a process refer to a new description.
fn add_description(
    world: &mut World,
    process: usize,
    fd: usize,
    description: Description,
) -> Result<(), AllocError>
    ensures { OnOk result (world.new ≡ with_description world.old process fd description) }
{
    let number = world.descriptions.len();
    world.descriptions.push(description)?;
    set_descriptor(
        &mut world.processes,
        process,
        fd,
        Some(Ticket::new(number, number)),
    );
    Ok(())
}

/// Lets two descriptors of a process refer to the ends of the next pipe, which is empty.
fn add_pair(
    alloc: Global,
    world: &mut World,
    process: usize,
    reading: usize,
    writing: usize,
) -> Result<(), AllocError>
    ensures { OnOk result (world.new ≡ with_table world.old (TableEdit.OpenPair process reading writing)) }
{
    let pipe = world.pipes.len();
    world.pipes.push(Contents::new(alloc))?;
    add_description(world, process, reading, end_of(pipe, Mode::Read))?;
    add_description(world, process, writing, end_of(pipe, Mode::Write))
}

/// An end of a FIFO is opened once more. Where it has no pipe, the next one, empty, becomes its pipe.
fn open_end(alloc: Global, world: &mut World, file: usize, mode: Mode) -> Result<(), AllocError>
    ensures { OnOk result (world.new ≡ with_opening world.old file mode) }
{
    let pipe = pipe_of_fifo(&world.files, file);
    let pipe = pipe_for(alloc, &mut world.pipes, pipe)?;
    open_once(&mut world.files, file, mode, pipe)
}

/// Makes an edit of descriptors and open file descriptions.
fn make_table(alloc: Global, world: &mut World, edit: TableEdit) -> Result<(), AllocError>
    ensures { OnOk result (world.new ≡ with_table world.old edit) }
{
    match edit {
        TableEdit::Nothing => {}
        TableEdit::Describe { number, edit } => {
            describe(&mut world.descriptions, number.number(), edit);
        }
        TableEdit::Open {
            process,
            fd,
            description,
        } => add_description(world, process, fd, description)?,
        TableEdit::OpenPair {
            process,
            reading,
            writing,
        } => add_pair(alloc, world, process, reading, writing)?,
        TableEdit::OpenEnd {
            process,
            fd,
            file,
            description,
        } => {
            open_end(alloc, world, file, description.mode)?;
            add_description(world, process, fd, description)?;
        }
        TableEdit::Entry { process, fd, entry } => {
            set_descriptor(&mut world.processes, process, fd, entry);
        }
    }
    Ok(())
}

/// Makes a change of an act that gives these bytes.
pub(crate) fn make(
    alloc: Global,
    world: &mut World,
    bytes: Span<'_>,
    change: Change,
) -> Result<(), AllocError>
    requires { IsProper world.old (span_bytes bytes) change }
    ensures { OnOk result (world.new ≡ changed world.old (span_bytes bytes.entry) change) }
{
    let Change {
        files,
        process,
        table,
    } = change;
    make_files(alloc, world, bytes, files)?;
    make_processes(world, process)?;
    make_table(alloc, world, table)
}

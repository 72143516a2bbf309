//! Bytes that go into a pipe and leave it, and ends that are opened. Where memory runs out a pipe may be changed in part. What is
//! taken out of a slot and put back sets the slot twice.
#![tactic(auto, using(crate::proofs::SlotLemmas::set_twice))]

ghost use Rattle.std.specs.Prelude.{[], ◌≡◌, ◌+◌, drop, unwrap_or, length, IfOk, OnOk};
ghost use Rattle.call_types.specs.CallTable.{payload_of};
ghost use Rattle.call_types.specs.Stored.{span_bytes};
ghost use Rattle.slots.specs.Slots.{slot, edited};
ghost use Rattle.process_table.specs.Processes.{parked_of};
ghost use Rattle.posix_model.specs.Change.{rest_of, after_those, end_of};
ghost use Rattle.posix_model.specs.Pipes.{fifo_at, pipe_of_fifo, with_pipe_for, opened_once, opened_file};

use call_types::call::Call;
use call_types::description::{Description, Mode, Target};
use call_types::span::Span;
use posix_model::contents::Contents;
use posix_model::world::{Fifo, File};
use process_table::process::{Parked, Process};
use slots::dense::Slots;
use std::alloc::{AllocError, Global};

/// The data of a call that writes; none of any other.
fn payload_of(call: &Call) -> Span<'_>
    ensures { span_bytes result ≡ unwrap_or (payload_of call.now) [] }
{
    match call.payload() {
        Some(bytes) => bytes.span(),
        None => Span::Slice(&[]),
    }
}

/// The bytes of a list after the first ones.
fn after_first(bytes: Span<'_>, count: usize) -> Span<'_>
    ensures { span_bytes result ≡ drop count (span_bytes bytes.entry) }
{
    bytes.cut(count, bytes.len())
}

/// The data of a call that waits, after the bytes that it moved.
fn rest_of(parked: &Parked) -> Span<'_>
    ensures { span_bytes result ≡ rest_of (Some parked.now) }
{
    after_first(payload_of(parked.call.get()), parked.moved as usize)
}

/// The data of the call that a process waits in, after the bytes that it moved.
pub(crate) fn parked_bytes(processes: &Slots<Process>, process: usize) -> Span<'_>
    ensures { span_bytes result ≡ rest_of (parked_of (slot processes.now process)) }
{
    match processes.get(process) {
        Some(process) => match &process.parked {
            Some(parked) => rest_of(parked),
            None => Span::Slice(&[]),
        },
        None => Span::Slice(&[]),
    }
}

/// Adds bytes at the end; an error says that memory ran out.
fn add_bytes(contents: &mut Contents, bytes: Span<'_>) -> Result<(), AllocError>
    ensures { OnOk result (contents.new ≡ after_those (span_bytes bytes.entry) contents.old) }
{
    let held = contents.len();
    match held.checked_add(bytes.len()) {
        Some(end) if end <= isize::MAX as usize => contents.write_at(held, bytes),
        _ => Err(AllocError),
    }
}

/// Puts bytes into a pipe, after those that it holds.
pub(crate) fn put_bytes(
    pipes: &mut Slots<Contents>,
    pipe: usize,
    bytes: Span<'_>,
) -> Result<(), AllocError>
    ensures { OnOk result (pipes.new ≡ edited pipe (after_those (span_bytes bytes.entry)) pipes.old) }
{
    if let Some(mut contents) = pipes.take(pipe) {
        add_bytes(&mut contents, bytes)?;
        pipes.put(pipe, Some(contents));
    }
    Ok(())
}

/// A copy of the bytes after the first ones; an error says that memory ran out.
fn left_of(alloc: Global, contents: &Contents, count: usize) -> Result<Contents, AllocError>
    ensures { IfOk result (λ left. left ≡ drop count contents.now) }
{
    let mut left = Contents::new(alloc);
    add_bytes(
        &mut left,
        after_first(Span::Slice(contents.as_slice()), count),
    )?;
    Ok(left)
}

/// Takes so many bytes out of a pipe, or all that it holds; those first that went in first.
pub(crate) fn take_first(
    alloc: Global,
    pipes: &mut Slots<Contents>,
    pipe: usize,
    count: usize,
) -> Result<(), AllocError>
    ensures { OnOk result (pipes.new ≡ edited pipe (drop count) pipes.old) }
{
    if let Some(contents) = pipes.take(pipe) {
        let left = left_of(alloc, &contents, count)?;
        pipes.put(pipe, Some(left));
    }
    Ok(())
}

/// A new open file description of an end of a pipe (page of pipe).
pub(crate) fn end_of(pipe: usize, mode: Mode) -> Description
    ensures { result ≡ end_of pipe mode }
{
    Description {
        target: Target::Pipe { pipe },
        offset: 0,
        mode,
        append: false,
        nonblock: false,
    }
}

/// The pipe of a FIFO of which an end is open.
pub(crate) fn pipe_of_fifo(files: &Slots<File>, file: usize) -> Option<usize>
    ensures { result ≡ pipe_of_fifo (fifo_at (slot files.now file)) }
{
    match files.get(file) {
        Some(File::Fifo(fifo)) => fifo.pipe,
        _ => None,
    }
}

/// The pipe that a FIFO has, or the next one, empty.
pub(crate) fn pipe_for(
    alloc: Global,
    pipes: &mut Slots<Contents>,
    pipe: Option<usize>,
) -> Result<usize, AllocError>
    ensures number { IfOk result (λ number. number ≡ unwrap_or pipe (length pipes.old)) }
    ensures pipes { OnOk result (pipes.new ≡ with_pipe_for pipe pipes.old) }
{
    match pipe {
        Some(pipe) => Ok(pipe),
        None => {
            let next = pipes.len();
            pipes.push(Contents::new(alloc))?;
            Ok(next)
        }
    }
}

/// A count of openings with one more; an error where it is at its end.
fn one_more(openings: u64) -> Result<u64, AllocError>
    ensures { IfOk result (λ more. more ≡ openings + 1) }
{
    match openings.checked_add(1) {
        Some(more) => Ok(more),
        None => Err(AllocError),
    }
}

/// A FIFO of which an end is opened once more, on this pipe.
fn opened_once(mode: Mode, pipe: usize, fifo: Fifo) -> Result<Fifo, AllocError>
    ensures { IfOk result (λ opened. opened ≡ opened_once mode pipe fifo) }
{
    let mut opened = Fifo {
        pipe: Some(pipe),
        ..fifo
    };
    match mode {
        Mode::Read => opened.reader_openings = one_more(fifo.reader_openings)?,
        Mode::Write | Mode::ReadWrite => opened.writer_openings = one_more(fifo.writer_openings)?,
    }
    Ok(opened)
}

/// A file, if it is a FIFO, of which an end is opened once more.
fn opened_file(mode: Mode, pipe: usize, file: File) -> Result<File, AllocError>
    ensures { IfOk result (λ opened. opened ≡ opened_file mode pipe file) }
{
    match file {
        File::Regular(runs) => Ok(File::Regular(runs)),
        File::Fifo(fifo) => Ok(File::Fifo(opened_once(mode, pipe, fifo)?)),
    }
}

/// An end of a FIFO is opened once more, on this pipe.
pub(crate) fn open_once(
    files: &mut Slots<File>,
    number: usize,
    mode: Mode,
    pipe: usize,
) -> Result<(), AllocError>
    ensures { OnOk result (files.new ≡ edited number (opened_file mode pipe) files.old) }
{
    if let Some(file) = files.take(number) {
        files.put(number, Some(opened_file(mode, pipe, file)?));
    }
    Ok(())
}

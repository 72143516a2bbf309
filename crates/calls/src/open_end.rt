ghost use Rattle.std.specs.Prelude.{◌≡◌, ◌||◌, false, IfOk, OnErr};
ghost use Rattle.call_types.specs.Flags.{has};
ghost use Rattle.posix_model.specs.Pipes.{has_opposite, is_met, opposite_openings, pipe_between};
ghost use Rattle.posix_model.specs.Open.{opens_end, open_end, mode_of};

use crate::opening::{free_descriptor, mode_of, new_description};
use crate::tries::parks;
use call_types::bounded::Name;
use call_types::call::Call;
use call_types::description::{Mode, Target};
use call_types::flags::OpenFlags;
use call_types::outcome::Reply;
use posix_model::change::{Decided, FileEdit, TableEdit, does};
use posix_model::reader::WorldReader;
use posix_model::world::Fifo;
use process_table::kept_call::KeptCall;
use process_table::process::Parked;
use std::alloc::{AllocError, Global};

/// Whether an end of a pipe opposite to one of this mode is open. One for reading and writing has none: an open of a FIFO for
/// both is refused.
pub(crate) fn has_opposite<R: WorldReader>(state: &R, mode: Mode, pipe: usize) -> bool
    ensures { result ≡ has_opposite (R.world state.now) mode pipe }
{
    match mode {
        Mode::Read => state.has_writer(pipe),
        Mode::Write => state.has_reader(pipe),
        Mode::ReadWrite => false,
    }
}

/// Whether an end of a FIFO opposite to one of this mode is open.
pub fn is_met<R: WorldReader>(state: &R, mode: Mode, fifo: Fifo) -> bool
    ensures { result ≡ is_met (R.world state.now) mode fifo }
{
    match fifo.pipe {
        Some(pipe) => has_opposite(state, mode, pipe),
        None => false,
    }
}

/// How often the end opposite to one of this mode was opened.
pub(crate) fn opposite_openings(mode: Mode, fifo: Option<Fifo>) -> u64
    ensures { result ≡ opposite_openings mode fifo }
{
    match fifo {
        None => 0,
        Some(fifo) => match mode {
            Mode::Read => fifo.writer_openings,
            Mode::Write => fifo.reader_openings,
            Mode::ReadWrite => 0,
        },
    }
}

/// The pipe between the ends of a FIFO: the one that it has, or the next.
fn pipe_between<R: WorldReader>(state: &R, fifo: Fifo) -> usize
    ensures { result ≡ pipe_between (R.world state.now) (Some fifo) }
{
    fifo.pipe.unwrap_or(state.next_pipe())
}

/// The lowest free descriptor refers to a new description of an end of a FIFO.
fn opens_end<R: WorldReader>(
    state: &R,
    process: usize,
    flags: OpenFlags,
    file: usize,
    fifo: Fifo,
) -> Decided
    ensures { result ≡ opens_end (R.world state.now) process flags file fifo }
{
    let fd = free_descriptor(state, process);
    let pipe = pipe_between(state, fifo);
    let description = new_description(Target::Fifo { file, pipe }, flags);
    let edit = TableEdit::OpenEnd {
        process,
        fd,
        file,
        description,
    };
    does(Reply::Number(fd as u64), FileEdit::Nothing, edit)
}

/// What an open of a FIFO comes to: an end of it is open from now on, and without nonblock the process waits in the call where
/// no opposite end is open (page of open). An error says that memory for a copy of the call ran out.
pub fn decide_open_end<R: WorldReader>(
    state: &R,
    alloc: Global,
    process: usize,
    name: &Name,
    flags: OpenFlags,
    file: usize,
    fifo: Fifo,
) -> Result<Decided, AllocError>
    ensures effect { IfOk result (λ d. d ≡ open_end (R.world state.now) process name.now flags file fifo) }
    ensures waiting { OnErr result ((has flags OpenFlags.NONBLOCK.0 || is_met (R.world state.now) (mode_of flags) fifo) ≡ false) }
{
    let mode = mode_of(flags);
    let opened = opens_end(state, process, flags, file, fifo);
    if flags.has(OpenFlags::NONBLOCK) || is_met(state, mode, fifo) {
        return Ok(opened);
    }
    let name = name.clone()?;
    let parked = Parked {
        call: KeptCall::new(alloc, Call::Open { name, flags })?,
        fd: free_descriptor(state, process),
        moved: 0,
        openings: opposite_openings(mode, Some(fifo)),
    };
    Ok(parks(process, parked, opened))
}

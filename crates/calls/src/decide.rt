ghost use Rattle.std.specs.Prelude.{◌≡◌, ◌≤◌, IfOk};
ghost use Rattle.slots.specs.Slots.{slot};
ghost use Rattle.posix_model.specs.Step.{can_call, decided, comes_to};
ghost use Rattle.posix_model.specs.Proved.Sound.{adds};

use crate::attach::decide_attach;
use crate::close::decide_close;
use crate::dup::decide_dup;
use crate::dup2::decide_dup2;
use crate::exit::{decide_close_run, decide_exit};
use crate::fork::decide_fork;
use crate::fstat::decide_fstat;
use crate::ftruncate::decide_ftruncate;
use crate::getfl::decide_getfl;
use crate::join::{decide_join, is_full};
use crate::link::decide_link;
use crate::lseek::decide_lseek;
use crate::mkfifo::decide_mkfifo;
use crate::open::decide_open;
use crate::pipe::decide_pipe;
use crate::pread::decide_pread;
use crate::pwrite::decide_pwrite;
use crate::read::decide_read;
use crate::rename::decide_rename;
use crate::resume::decide_resume;
use crate::setfl::decide_setfl;
use crate::unlink::decide_unlink;
use crate::write::decide_write;
use call_types::act::{Act, HOUSE};
use call_types::call::Call;
use call_types::limits::Bounds;
use posix_model::change::Decided;
use posix_model::reader::WorldReader;
use std::alloc::{AllocError, Global};

/// Whether a process may make a call: it is live and attached, and waits in none.
pub fn can_call<R: WorldReader>(state: &R, process: usize) -> bool
    ensures { result ≡ can_call (slot (R.world state.now).processes process) }
{
    state.is_here(process) && state.parked(process).is_none()
}

/// What a call comes to, by its page. An error says that memory ran out.
#[inline(always)]
pub fn decide_call<R: WorldReader>(
    state: &R,
    alloc: Global,
    bounds: Bounds,
    process: usize,
    call: &Call,
) -> Result<Decided, AllocError>
    ensures { IfOk result (λ d. d ≡ decided bounds (R.world state.now) process call.now) }
{
    match call {
        Call::Open { name, flags } => decide_open(state, alloc, process, name, *flags),
        Call::Close { fd } => Ok(decide_close(state, process, *fd)),
        Call::Read { fd, count } => {
            decide_read(state, alloc, process, call, *fd, *count as usize)
        }
        Call::Write { fd, bytes } => {
            decide_write(state, alloc, bounds, process, call, *fd, bytes)
        }
        Call::Pread { fd, start, count } => {
            decide_pread(state, alloc, process, *fd, *start, *count as usize)
        }
        Call::Pwrite { fd, start, bytes } => {
            Ok(decide_pwrite(state, bounds, process, *fd, *start, bytes))
        }
        Call::Lseek { fd, offset, whence } => {
            Ok(decide_lseek(state, process, *fd, *offset, *whence))
        }
        Call::Ftruncate { fd, len } => Ok(decide_ftruncate(state, bounds, process, *fd, *len)),
        Call::Dup { fd } => Ok(decide_dup(state, process, *fd)),
        Call::Dup2 { fd, to } => Ok(decide_dup2(state, process, *fd, *to)),
        Call::Pipe => Ok(decide_pipe(state, process)),
        Call::Mkfifo { name } => decide_mkfifo(state, name),
        Call::Link { old, new } => decide_link(state, old, new),
        Call::Unlink { name } => decide_unlink(state, name),
        Call::Fstat { fd } => Ok(decide_fstat(state, process, *fd)),
        Call::Fork => decide_fork(state, alloc, process),
        Call::Getfl { fd } => Ok(decide_getfl(state, process, *fd)),
        Call::Setfl { fd, flags } => Ok(decide_setfl(state, process, *fd, *flags)),
        Call::Rename { old, new } => decide_rename(state, alloc, old, new),
    }
}

/// What an act comes to, or nothing where the rules record none: a join under another number than the next, a call of a
/// process that may make none, a resume of one that waits in no call that is ready, an exit of a process that is not live,
/// and a closing by another than the house or of a run that is closed. An error says that memory ran out.
pub fn decide<R: WorldReader>(
    state: &R,
    alloc: Global,
    bounds: Bounds,
    actor: usize,
    act: &Act,
) -> Result<Option<Decided>, AllocError>
    ensures { IfOk result (λ d. d ≡ comes_to bounds (R.world state.now) actor act.now) }
{
    match act {
        Act::Join if actor == state.next_process() => Ok(Some(decide_join(state, alloc)?)),
        // A match, since `?` would move what was decided once more.
        Act::Call(call) if can_call(state, actor) => {
            match decide_call(state, alloc, bounds, actor, call) {
                Ok(decided) => Ok(Some(decided)),
                Err(error) => Err(error),
            }
        }
        Act::Attach => Ok(Some(decide_attach(state, actor))),
        Act::Resume => decide_resume(state, alloc, bounds, actor),
        Act::Exit if state.process(actor).is_some() => Ok(Some(decide_exit(actor))),
        Act::CloseRun if actor == HOUSE as usize && !state.is_closed() => {
            Ok(Some(decide_close_run()))
        }
        _ => Ok(None),
    }
}

/// How many processes a call is to add.
pub fn call_adds<R: WorldReader>(state: &R, call: &Call) -> usize
    ensures exact { result ≡ adds (R.world state.now) (Act.Call call.now) }
    ensures one_at_most { result ≤ 1 }
{
    match call {
        Call::Fork if !is_full(state) => 1,
        _ => 0,
    }
}

/// How many processes a join is to add.
pub fn join_adds<R: WorldReader>(state: &R) -> usize
    ensures exact { result ≡ adds (R.world state.now) Act.Join }
    ensures one_at_most { result ≤ 1 }
{
    if is_full(state) { 0 } else { 1 }
}

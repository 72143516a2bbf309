ghost use Rattle.std.specs.Prelude.{◌≡◌};
ghost use Rattle.posix_model.specs.Descriptors.{opened};
ghost use Rattle.posix_model.specs.Pages.{on_open};
ghost use Rattle.posix_model.specs.Fstat.{links_told, stat_of, fstat};

use call_types::description::Target;
use call_types::errno::Errno;
use call_types::outcome::{FileType, Reply, Stat};
use posix_model::change::{Decided, refused, tells};
use posix_model::reader::WorldReader;

/// How many names a file has, in 32 bits.
fn links_told<R: WorldReader>(state: &R, file: usize) -> u32
    ensures { result ≡ links_told (R.world state.now) file }
{
    state.links(file).min(u32::MAX as usize) as u32
}

/// Kind, size in bytes and links of what a descriptor refers to.
fn stat_of<R: WorldReader>(state: &R, target: Target) -> Stat
    ensures { result ≡ stat_of (R.world state.now) target }
{
    match target {
        Target::Regular { file } => Stat {
            kind: FileType::Regular,
            size: state.length_of(file) as u64,
            links: links_told(state, file),
        },
        Target::Pipe { pipe } => Stat {
            kind: FileType::Pipe,
            size: state.held_in(pipe) as u64,
            links: 0,
        },
        Target::Fifo { file, pipe } => Stat {
            kind: FileType::Fifo,
            size: state.held_in(pipe) as u64,
            links: links_told(state, file),
        },
    }
}

/// What fstat comes to: EBADF, or kind, size and links (page of fstat).
#[inline(always)]
pub fn decide_fstat<R: WorldReader>(state: &R, process: usize, fd: i32) -> Decided
    ensures { result ≡ on_open (opened (R.world state.now) process fd) (fstat (R.world state.now)) }
{
    match state.opened(process, fd) {
        None => refused(Errno::EBADF),
        Some(descriptor) => tells(Reply::Stat(stat_of(state, descriptor.description.target))),
    }
}

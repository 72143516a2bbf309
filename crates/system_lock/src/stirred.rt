//! Whom an event may have made ready, told by what it was an event of.

ghost use Rattle.std.specs.Prelude.{◌≡◌};
ghost use Rattle.system_lock.specs.Proved.Stirred.{pipe_of, pipe_waited, is_by, is_on, is_on_its, stirs, stirred_at, stirred_by, stirred_with, stirred_told};
ghost use Rattle.system_lock.specs.Proved.Sleepers.{opener, CallsSpare, ResumesSpare, OpensSpare, ExitsSpare};

use byte_ledger::ledgers::Ledgers;
use call_types::call::Call;
use call_types::outcome::{Outcome, Reply};
use call_types::refusal::Refusal;
use call_types::request::Request;
use calls::targets::pipe_at;
use posix_model::laws::{
    acts_are_sound, numbers_rise, sweep_leaves_wanted, sweep_releases, sweep_settles,
};
use posix_model::opened::OpenDescriptor;
use posix_model::reader::WorldReader;
use record_book::book::Book;
use record_book::seat::Receipt;

/// Whom an event may have made ready, of those that sleep.
#[derive(Clone, Copy)]
pub(crate) enum Stirred {
    Nobody,
    /// The process of the event, and those that wait on this pipe.
    Around { process: u32, pipe: usize },
    /// The process of the event, and all that wait on a pipe.
    Anybody { process: u32 },
}

impl Stirred {
    /// Whom an event of this process on this pipe stirs; nobody, if it is on no pipe.
    pub(crate) fn at(process: u32, pipe: Option<usize>) -> Self
        ensures { result ≡ stirred_at process pipe }
    {
        match pipe {
            None => Stirred::Nobody,
            Some(pipe) => Stirred::Around { process, pipe },
        }
    }

    /// Whom a call of a process may stir, asked before it is made.
    pub(crate) fn by<R: WorldReader>(state: &R, process: u32, call: &Call) -> Self
        ensures { result ≡ stirred_by (R.world state.now) process call.now }
    {
        match call {
            Call::Read { fd, .. } | Call::Write { fd, .. } => {
                Stirred::at(process, pipe_of(state.opened(process as usize, *fd)))
            }
            Call::Open { .. }
            | Call::Close { .. }
            | Call::Dup { .. }
            | Call::Dup2 { .. }
            | Call::Pipe
            | Call::Mkfifo { .. }
            | Call::Link { .. }
            | Call::Unlink { .. }
            | Call::Rename { .. }
            | Call::Fork => Stirred::Anybody { process },
            _ => Stirred::Nobody,
        }
    }

    /// Whom a call with this outcome stirs.
    fn with(self, outcome: &Outcome) -> Self
        ensures { result ≡ stirred_with outcome.now self }
    {
        match outcome {
            Outcome::Reply(Reply::Error(_)) => Stirred::Nobody,
            _ => self,
        }
    }

    /// Whom a call with this answer stirs.
    pub(crate) fn told(self, told: &Result<Receipt, Refusal>) -> Self
        ensures { result ≡ stirred_told told.now self }
    {
        match told {
            Ok(receipt) => self.with(&receipt.record().outcome),
            Err(_) => Stirred::Nobody,
        }
    }

    /// Whether the event is one of this process.
    pub(crate) fn is_by(self, process: u32) -> bool
        ensures { result ≡ is_by self process }
    {
        match self {
            Stirred::Nobody => false,
            Stirred::Around { process: other, .. } | Stirred::Anybody { process: other } => {
                other == process
            }
        }
    }

    /// Whether the event is one of this pipe.
    fn is_on(self, pipe: usize) -> bool
        ensures { result ≡ is_on self pipe }
    {
        match self {
            Stirred::Nobody => false,
            Stirred::Around { pipe: other, .. } => other == pipe,
            Stirred::Anybody { .. } => true,
        }
    }

    /// Whether the event is one of the pipe on which a call waits.
    fn is_on_its(self, pipe: Option<usize>) -> bool
        ensures { result ≡ is_on_its self pipe }
    {
        match pipe {
            None => false,
            Some(pipe) => self.is_on(pipe),
        }
    }

    /// Whether the event may have made this process ready. Its call waits on this pipe.
    pub(crate) fn stirs(self, process: u32, pipe: Option<usize>) -> bool
        ensures { result ≡ stirs self process pipe }
    {
        self.is_by(process) || self.is_on_its(pipe)
    }
}

/// The pipe that a descriptor leads to, if it is open on one.
fn pipe_of(opened: Option<OpenDescriptor>) -> Option<usize>
    ensures { result ≡ pipe_of opened }
{
    match opened {
        None => None,
        Some(descriptor) => pipe_at(descriptor.description.target),
    }
}

/// The pipe on which the call of a process waits, if it waits in one.
pub(crate) fn pipe_waited<R: WorldReader>(state: &R, process: u32) -> Option<usize>
    ensures { result ≡ pipe_waited (R.world state.now) process }
{
    match state.parked(process as usize) {
        None => None,
        Some(parked) => pipe_of(state.opened_at(process as usize, parked.fd)),
    }
}

/// The process that a join or an attach is about to open; 0 for a call, which opens none.
pub(crate) fn opener<L: Ledgers>(book: &Book<L>, request: &Request) -> u32
    ensures { result ≡ opener book.now request.now }
{
    match request {
        Request::Join => book.next_pid(),
        Request::Attach { process } => *process,
        Request::Call(_) => 0,
    }
}

/// Each event spares all whom it does not stir. It does nothing.
pub(crate) fn events_spare()
    ensures calls { CallsSpare }
    ensures resumes { ResumesSpare }
    ensures opens { OpensSpare }
    ensures exits { ExitsSpare }
{
    acts_are_sound();
    numbers_rise();
    sweep_leaves_wanted();
    sweep_releases();
    sweep_settles();
}

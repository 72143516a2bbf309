//! What is told of a run.

ghost use Rattle.std.specs.Prelude.{◌≡◌};
ghost use Rattle.run_core.specs.Receipts.{held_by};

use crate::comparison::HasReceipts;
use byte_ledger::ledgers::Ledgers;
use logged_streams::reader::LoggedReader;
use logged_streams::writer::LoggedWriter;
use record_book::closing::ClosedBook;
use record_book::seat::{Receipt, SpentSeat};
use request_pump::inlet::PushLog;
use session_core::end::End;
use session_core::told::Told;
use std::alloc::AllocError;
use std::io::{Read, Write};
use std::marker::Model;
use thiserror::Error;
use trace_writer::sink::Sink;
use trace_writer::traced::Traced;

/// The process of a session, or one that was refused: its number, and the receipts of its acts, in the order of their places.
/// Contracts see the two.
#[derive(Drop)]
pub struct Process {
    pub(crate) pid: u32,
    pub(crate) receipts: Vec<Receipt>,
}

impl Model for Process {
    ghost use Rattle.run_core.specs.Receipts.{Held};

    ghost Value = { Held };

    ghost view = { λ p. record { pid = p.pid; receipts = p.receipts.items } };
}

impl Process {
    /// The number of the process, or the one that was asked for.
    pub fn pid(&self) -> u32
        ensures { result ≡ self.now.pid }
    {
        self.pid
    }

    /// The receipts, in the order of their places.
    pub fn receipts(&self) -> &[Receipt]
        ensures { result.now ≡ self.now.receipts }
    {
        self.receipts.as_slice()
    }
}

/// A session that is over, without its seat. Contracts see it as a `ReportedSession`.
#[derive(Drop)]
pub struct Session<R: Read, W: Write> {
    /// Its process, if it opened one, or was refused one in the record.
    pub process: Option<Process>,
    /// What it told its client, in order.
    pub answers: Vec<Told>,
    pub end: End,
    /// The reader, with what became of its reads. `None` where no thread could be started for it.
    pub reader: Option<LoggedReader<R>>,
    /// The writer, with what became of its writes.
    pub writer: LoggedWriter<W>,
    /// What the ring of its requests gave back.
    pub pushes: PushLog,
}

impl<R: Read, W: Write> Model for Session<R, W> {
    ghost use Rattle.run_core.specs.Run.{ReportedSession};

    ghost Value = { ReportedSession };

    ghost view = { λ s. record { reader = s.reader; writer = s.writer; pushes = s.pushes; process = s.process; answers = s.answers.items; end_is = s.end } };
}

impl<R: Read, W: Write> HasReceipts for Session<R, W> {
    ghost held = { λ s. held_by s.process };

    fn pid(&self) -> u32 {
        match &self.process {
            Some(process) => process.pid(),
            None => 0,
        }
    }

    fn receipts(&self) -> &[Receipt] {
        match &self.process {
            Some(process) => process.receipts(),
            None => &[],
        }
    }
}

/// A run that is over: all its sessions have ended, it is closed, and its trace is written as far as the sink took it.
#[derive(Drop)]
pub struct Report<R: Read, W: Write, K: Sink> {
    /// How many sessions were started.
    pub sessions: usize,
    /// How many records there are, summed over the seats of all sessions and of the house.
    pub records: u64,
    /// How many bytes the calls of all processes wrote, and how many they read, summed in the same way.
    pub bytes_in: u64,
    pub bytes_out: u64,
    /// What became of the trace.
    pub traced: Traced,
    /// The sessions, in the order in which they were accepted: all that there were to be, or those before the source gave no more.
    pub ends: Vec<Session<R, W>>,
    /// What took the trace.
    pub sink: K,
}

/// Why a run gives no report.
#[derive(Clone, Copy, Debug, PartialEq, Eq, Drop, Error)]
pub enum RunFault {
    /// Memory ran out before the first session, for what a session shares with the others, for the closing, or for the list of the
    /// records that were received.
    #[error("no memory")]
    NoMemory,
    /// The thread of the trace could not be started, or that of a session. The sessions before it were served to their end.
    #[error("no thread")]
    NoThread,
    /// Shares of some seats are missing.
    #[error("missing share")]
    Missing,
    /// The receipts of the sessions, the records and what the trace thread received differ: this is the least place at which they do.
    #[error("disagree at {place}")]
    Disagree { place: u64 },
}

/// What a run left that gives no report: all its sessions have ended, it is closed, and its trace is written as far as the sink took it.
#[derive(Drop)]
pub struct Left<R: Read, W: Write, K: Sink, L: Ledgers> {
    /// What became of the trace.
    pub traced: Traced,
    /// The sessions, in the order in which they were accepted.
    pub ends: Vec<Session<R, W>>,
    /// What took the trace.
    pub sink: K,
    /// The records of the run.
    pub book: ClosedBook<L>,
    /// The seat of the house, which closed the run.
    pub house: SpentSeat<L>,
}

/// A run without a report.
#[derive(Drop)]
pub struct Unreported<R: Read, W: Write, K: Sink, L: Ledgers> {
    pub fault: RunFault,
    /// What it left. `None` where no session began, since memory was wanting, or the thread of the trace.
    pub left: Option<Left<R, W, K, L>>,
}

impl<R: Read, W: Write, K: Sink, L: Ledgers> From<AllocError> for Unreported<R, W, K, L> {
    ghost use Rattle.std.specs.Prelude.{None};
    ghost use Rattle.run_core.specs.declared.report.RunFault.TheVariants.{NoMemory};

    ghost from_gives = { λ _ unreported. (unreported.fault ≡ NoMemory) × (unreported.left ≡ None) };

    fn from(_fault: AllocError) -> Self {
        Unreported {
            fault: RunFault::NoMemory,
            left: None,
        }
    }
}

impl From<AllocError> for RunFault {
    ghost use Rattle.run_core.specs.declared.report.RunFault.TheVariants.{NoMemory};

    ghost from_gives = { λ _ fault. fault ≡ NoMemory };

    fn from(_fault: AllocError) -> RunFault {
        RunFault::NoMemory
    }
}

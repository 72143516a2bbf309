//! The book of a run.

ghost use Rattle.std.specs.Prelude.{◌≡◌, [], false, true, IfOk, IfSome, IfNone};
ghost use Rattle.rtrb.specs.Ring.{received};
ghost use Rattle.posix_model.specs.Kept.{IsSettled, KeptExactly};
ghost use Rattle.record_book.specs.Book.{new_book, run_of, world_now};
ghost use Rattle.record_book.specs.Counting.{CountsOf};

use crate::journal::Journal;
use crate::progress::Progress;
use byte_ledger::ledgers::{Blanks, Ledgers};
use byte_ledger::tallies::{Shares, Sums, Tallies};
use call_types::limits::Limits;
use machine_state::machine::Machine;
use posix_model::laws::file_kept_exactly;
use posix_model::pipe_laws::bytes_of_pipe;
use std::alloc::{AllocError, Global};
use std::marker::Model;
use trace_ring::trace_ring::{TraceEnd, TraceRing};

/// The book of a run: its limits and its records, in order, each of which goes into a ring for the trace too. Contracts see these two,
/// the receipts of the house, which the book holds until the run is closed, and whether the reading end of the ring was taken. The
/// world is the one to which the records lead in the model. The type names the ledgers by which records and bytes are counted, so the
/// seat of another book does not fit.
#[derive(Drop)]
pub struct Book<L: Ledgers> {
    pub(crate) journal: Journal,
    pub(crate) tallies: Tallies<L>,
    /// The shares of the house, until the run is closed.
    pub(crate) house: Option<Shares<L>>,
}

impl<L: Ledgers> Model for Book<L> {
    ghost use Rattle.record_book.specs.Book.{BookState};

    ghost Value = { BookState };

    ghost use Rattle.record_book.specs.Proved.Counted.{IsCounted};

    ghost view = { λ b. b.journal };

    ghost invariant = { λ b. IsCounted b.journal b.tallies b.house };
}

impl<L: Ledgers> Book<L> {
    /// A book without records, with room for as many as the limits allow, in its ring too, and with all that its closing will need.
    /// It counts by these ledgers.
    pub fn new(alloc: Global, limits: Limits, blanks: Blanks) -> Result<Self, AllocError>
        requires { blanks ≡ L.names }
        ensures { IfOk result (λ book. book ≡ new_book limits) }
    {
        let journal = Journal::new(alloc, limits)?;
        let mut tallies = Tallies::new(blanks);
        let house = tallies.open_shares();
        Ok(Book {
            journal,
            tallies,
            house: Some(house),
        })
    }

    /// How far the run has come.
    #[inline(always)]
    pub(crate) fn progress(&self) -> &Progress
        ensures { result.now ≡ run_of self.now }
    {
        &self.journal.progress
    }

    /// The state to which the records led. It counts references, names, holders and ends as it goes, and each count
    /// equals the one that the model takes afresh.
    pub fn machine(&self) -> &Machine
        ensures { result.now.world ≡ world_now self.now }
    {
        &self.journal.progress.machine
    }

    /// How many records the book holds, and how many bytes they took and gave. The records are a run of the model. In this run each
    /// pipe holds the bytes that were put into it and not yet taken out, the data of a write of at most 512 bytes (PIPE_BUF) went in
    /// unbroken (page of write), and just the descriptions, pipes and files are there that something refers to (page of close).
    pub fn counts(&self) -> Sums
        ensures sums { CountsOf self.now result }
        ensures settled { IsSettled (world_now self.now) }
        ensures kept { KeptExactly (world_now self.now) }
    {
        bytes_of_pipe();
        file_kept_exactly();
        self.journal.is_run();
        self.journal.is_settled();
        self.tallies.sums()
    }

    /// The ring into which each record is put as it is recorded.
    pub fn ring(&self) -> &TraceRing
        ensures sent { result.now.sent ≡ self.now.history }
        ensures taken { result.now.is_taken ≡ self.now.is_traced }
    {
        self.journal.history.ring()
    }

    /// The reading end of the ring, the first time; nothing was read from it yet. It takes no memory.
    pub fn trace_end(&mut self) -> Option<TraceEnd>
        ensures some { IfSome result (λ end. (self.old.is_traced ≡ false) × (received end ≡ [])) }
        ensures none { IfNone result (self.old.is_traced ≡ true) }
        ensures taken { self.new ≡ record self.old { is_traced = true } }
    {
        self.journal.history.take_end()
    }
}

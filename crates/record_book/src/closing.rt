//! The closing of a run, and the book that is left of it.

ghost use Rattle.std.specs.Prelude.{◌≡◌, ◌≤◌, ◌+◌, ◌∷◌, [], false, true, None, is_some, map, sum, length, IfOk, IfErr, IfNone, OnOk};
ghost use Rattle.std.specs.Arc.{arc_value};
ghost use Rattle.std.specs.List.{slice_get};
ghost use Rattle.std.specs.Option.{option_copied};
ghost use Rattle.slots.specs.Slots.{slot};
ghost use Rattle.posix_model.specs.History.{legal};
ghost use Rattle.posix_model.specs.Turns.{bytes_in, bytes_out};
ghost use Rattle.posix_model.specs.Reserve.{exits_left};
ghost use Rattle.byte_ledger.specs.Tally.{Misses};
ghost use Rattle.record_book.specs.Book.{world_now, closed_book};
ghost use Rattle.record_book.specs.Exits.{closing_record};
ghost use Rattle.record_book.specs.Counting.{CountsOf, seats_given};
ghost use Rattle.record_book.specs.Ends.{Ends, Closes};
ghost use Rattle.record_book.specs.Proved.Leaving.{IsOrphansExit, IsShutBy, OrphansEnd};
ghost use Rattle.record_book.specs.Proved.Quiet.{AreQuiet};

use crate::book::Book;
use crate::journal::Journal;
use crate::seat::{Receipt, SpentSeat};
use byte_ledger::gather::Missing;
use byte_ledger::ledgers::Ledgers;
use byte_ledger::tallies::{Shares, Sums, Tallies};
use call_types::act::{HOUSE, Record};
use call_types::limits::Limits;
use posix_model::pipe_laws::bytes_of_pipe;
use std::marker::Model;
use std::sync::Arc;

impl Journal {
    /// Appends the closing of an open run. Returns the receipts of the house, of which the last is that of the closing.
    pub(crate) fn append_closing(&mut self) -> Vec<Receipt>
        requires { (world_now self.old).closed ≡ false }
        ensures shut { IsShutBy self.old self.new result.items }
        ensures quiet { AreQuiet result.items }
    {
        self.progress.is_closing_planned();
        let house = match self.house.take() {
            Some(house) => house,
            None => unreachable!(),
        };
        let place = self.history.len() as u64;
        let (kept, traced, told) = house.closing.shares();
        let mut receipts = house.receipts;
        self.progress.close();
        self.history.push(kept, traced);
        receipts.push_reserved(Receipt::new(place, told));
        receipts
    }

    /// Promises that a run is closed, if its house has given its receipts away. It does nothing.
    pub(crate) fn is_closed_for_good(&self)
        requires { self.now.house ≡ None }
        ensures { (world_now self.now).closed ≡ true }
    {
        let _house = &self.house;
    }

    /// Finishes the ring of the journal of a closed run. Returns its limits, its records, and whether the reading end of the ring
    /// was taken.
    fn end(self) -> (Limits, Vec<Arc<Record>>, bool)
        requires { (world_now self).closed ≡ true }
        ensures ended { closed_book result.0 (map arc_value result.1.items) result.2 ≡ self }
        ensures is_legal { legal self.limits.bounds self.history }
        ensures reserve { length self.history + exits_left (world_now self) ≤ self.limits.records }
    {
        self.progress.has_reserve();
        let Journal {
            progress,
            history,
            ..
        } = self;
        let (records, is_traced) = history.end();
        (progress.limits, records, is_traced)
    }
}

impl<L: Ledgers> Book<L> {
    /// Records and counts the exit of a live process. The house gets the receipt.
    fn record_orphans_exit(&mut self, process: u32)
        requires there { is_some (slot (world_now self.old).processes process) ≡ true }
        requires is_open { (world_now self.old).closed ≡ false }
        ensures { IsOrphansExit self.old self.new process }
    {
        self.journal.is_run();
        self.journal.has_house();
        self.journal.append_orphans_exit(process);
        match &mut self.house {
            Some(shares) => self.tallies.count(shares, 0, 0),
            None => unreachable!(),
        }
    }

    /// Records the exits of all processes without a connection, in the order of their numbers.
    fn end_orphans(&mut self)
        requires { (world_now self.old).closed ≡ false }
        ensures { OrphansEnd self.old self.new }
    {
        for process in 0..self.next_pid() {
            if self.progress().awaits(process) {
                self.record_orphans_exit(process);
            }
        }
    }

    /// Records the closing of an open run, and returns the seat of the house, with all its receipts.
    fn record_closing(&mut self) -> SpentSeat<L>
        requires { (world_now self.old).closed ≡ false }
        ensures { Ends self.old self.new (closing_record ∷ []) result }
    {
        self.journal.is_run();
        self.journal.has_house();
        let receipts = self.journal.append_closing();
        let mut shares = match self.house.take() {
            Some(shares) => shares,
            None => unreachable!(),
        };
        self.tallies.count(&mut shares, 0, 0);
        SpentSeat {
            pid: HOUSE,
            seen: self.progress().sums().records,
            receipts,
            shares,
        }
    }

    /// Closes a run: records the exits of the processes without a connection, in the order of their numbers, and then the closing.
    /// Returns the seat of the house, which has their receipts; or None if the run was closed already, and then records nothing. It
    /// takes no memory.
    pub fn close_run(&mut self) -> Option<SpentSeat<L>>
        ensures closes { Closes self.old self.new result }
        ensures closed { (world_now self.new).closed ≡ true }
        ensures none { IfNone result (self.old.house ≡ None) }
    {
        if self.progress().is_closed() {
            self.journal.has_no_house();
            return None;
        }
        self.end_orphans();
        let house = self.record_closing();
        self.journal.is_closed_for_good();
        Some(house)
    }

    /// Finishes the ring, so that its reading end can see that no more records will come, and returns the book of the run, which is
    /// closed; or gives the book back as it was, if the run is open. It takes no memory.
    pub fn end_trace(self) -> Result<ClosedBook<L>, Book<L>>
        ensures ok { IfOk result (λ closed. ((world_now self).closed ≡ true) × (closed ≡ self)) }
        ensures err { IfErr result (λ book. ((world_now self).closed ≡ false) × (book ≡ self)) }
    {
        if self.progress().is_closed() {
            return Ok(self.into_closed());
        }
        Err(self)
    }

    /// The book of a run that is closed, as one in which nothing can be recorded. It finishes the ring.
    fn into_closed(self) -> ClosedBook<L>
        requires { (world_now self).closed ≡ true }
        ensures { result ≡ self }
    {
        let Book {
            journal,
            tallies,
            ..
        } = self;
        let (limits, records, is_traced) = journal.end();
        ClosedBook {
            limits,
            records,
            is_traced,
            tallies,
        }
    }
}

/// The book of a run that is closed, whose ring is finished. Contracts see the same of it as of the book that it was.
#[derive(Drop)]
pub struct ClosedBook<L: Ledgers> {
    pub(crate) limits: Limits,
    pub(crate) records: Vec<Arc<Record>>,
    pub(crate) is_traced: bool,
    pub(crate) tallies: Tallies<L>,
}

impl<L: Ledgers> Model for ClosedBook<L> {
    ghost use Rattle.std.specs.Prelude.{map};
    ghost use Rattle.std.specs.Arc.{arc_value};
    ghost use Rattle.record_book.specs.Book.{BookState};

    ghost Value = { BookState };

    ghost use Rattle.record_book.specs.Proved.Closed.{IsClosed};
    ghost use Rattle.record_book.specs.Book.{closed_book};

    ghost view = { λ b. closed_book b.limits (map arc_value b.records.items) b.is_traced };

    ghost invariant = { λ b. IsClosed (closed_book b.limits (map arc_value b.records.items) b.is_traced) b.tallies };
}

impl<L: Ledgers> ClosedBook<L> {
    /// The record at a place, counted from 0, if there is one.
    pub fn record_at(&self, place: u64) -> Option<&Record>
        ensures { option_copied result ≡ slice_get self.now.history place }
    {
        match self.records.get(place as usize) {
            Some(shared) => Some(&**shared),
            None => None,
        }
    }

    /// How many records there are.
    pub fn len(&self) -> u64
        ensures { result ≡ length self.now.history }
    {
        self.records.len() as u64
    }

    /// How many seats the book has given, that of the house among them.
    pub fn seats(&self) -> u64
        ensures { result ≡ seats_given self.now }
    {
        self.tallies.opened()
    }

    /// How many records the book holds, and how many bytes they took and gave, as `Book::counts` tells them.
    pub fn counts(&self) -> Sums
        ensures { CountsOf self.now result }
    {
        bytes_of_pipe();
        self.tallies.sums()
    }

    /// Gathers the shares of all seats and of the house. Returns their sums, which are those of the records; or an error, if some
    /// are missing. It takes no memory.
    pub fn gather(self, shares: Vec<Shares<L>>) -> Result<Sums, Missing>
        ensures records { IfOk result (λ sums. sums.records ≡ length self.history) }
        ensures bytes_in { IfOk result (λ sums. sums.bytes_in ≡ bytes_in self.limits.bounds self.history) }
        ensures bytes_out { IfOk result (λ sums. sums.bytes_out ≡ bytes_out self.limits.bounds self.history) }
        ensures shares_records { IfOk result (λ sums. sums.records ≡ sum (map (λ s. s.records) shares.items)) }
        ensures shares_bytes_in { IfOk result (λ sums. sums.bytes_in ≡ sum (map (λ s. s.bytes_in) shares.items)) }
        ensures shares_bytes_out { IfOk result (λ sums. sums.bytes_out ≡ sum (map (λ s. s.bytes_out) shares.items)) }
        ensures all { OnOk result (length shares.items ≡ seats_given self) }
        ensures missing { IfErr result (Misses (seats_given self) (length shares.items)) }
    {
        self.tallies.gather(shares)
    }
}

ghost use Rattle.std.specs.Prelude.{◌≡◌, max, IfOk};
ghost use Rattle.std.specs.Arc.{arc_value};
ghost use Rattle.posix_model.specs.Proved.Lengths.{IsShortRecord};
ghost use Rattle.record_book.specs.Seat.{Receipted, SeatState};
ghost use Rattle.record_book.specs.Counting.{CountsOwn};

use byte_ledger::ledgers::Ledgers;
use byte_ledger::tallies::Shares;
use call_types::act::{Act, Record};
use call_types::outcome::{Outcome, Reply};
use std::alloc::{AllocError, Global};
use std::marker::Model;
use std::sync::Arc;

/// A record of the book, shared and not copied, with its place, counted from 0. Contracts see the two.
#[derive(Drop)]
pub struct Receipt {
    place: u64,
    item: Arc<Record>,
}

impl Model for Receipt {
    ghost use Rattle.std.specs.Arc.{arc_value};
    ghost use Rattle.record_book.specs.Seat.{Receipted};

    ghost Value = { Receipted };

    ghost view = { λ r. record { place = r.place; record_is = arc_value r.item } };

    ghost use Rattle.posix_model.specs.Proved.Lengths.{IsShortRecord};

    ghost invariant = { λ r. IsShortRecord (arc_value r.item) };
}

impl Receipt {
    pub(crate) fn new(place: u64, item: Arc<Record>) -> Self
        requires short { IsShortRecord (arc_value item) }
        ensures place { result.place ≡ place }
        ensures item { result.record_is ≡ arc_value item }
    {
        Receipt { place, item }
    }

    /// The record's place in the book.
    pub fn place(&self) -> u64
        ensures { result ≡ self.now.place }
    {
        self.place
    }

    /// The record. It has at most `RECORD_LENGTH_MAX` bytes where it is sent.
    pub fn record(&self) -> &Record
        ensures record { result.now ≡ self.now.record_is }
        ensures short { IsShortRecord result.now }
    {
        &self.item
    }

    /// The same receipt once more; the record is shared.
    pub fn share(&self) -> Result<Self, AllocError>
        ensures { IfOk result (λ other. other ≡ self.now) }
    {
        Ok(Receipt {
            place: self.place,
            item: self.item.clone()?,
        })
    }
}

/// Types that hold what a seat holds. By this the contracts of kernels see their seats.
pub trait AsSeat {
    ghost use Rattle.record_book.specs.Seat.{SeatState};

    ghost as_seat: { Self → SeatState };
}

impl<L: Ledgers> AsSeat for Seat<L> {
    ghost as_seat = { λ s. s };
}

impl<L: Ledgers> AsSeat for SpentSeat<L> {
    ghost as_seat = { λ s. s };
}

/// Memory for a record that is not known yet, if there is any. What stands there meanwhile does not matter.
fn blank_record(alloc: Global) -> Option<Arc<Record>> {
    let blank = Record {
        actor: 0,
        act: Act::Exit,
        outcome: Outcome::Reply(Reply::Done),
    };
    Arc::new(alloc, blank).ok()
}

/// What the connection of a process holds: the number of the process, how many records it has seen, the receipts of its own acts,
/// and shares that count these acts and the bytes that they took and gave; beside it, perhaps, memory for its next record. The type names
/// the ledgers of its book.
#[derive(Drop)]
pub struct Seat<L: Ledgers> {
    pub(crate) pid: u32,
    pub(crate) seen: u64,
    pub(crate) receipts: Vec<Receipt>,
    pub(crate) shares: Shares<L>,
    pub(crate) blank: Option<Arc<Record>>,
}

impl<L: Ledgers> Model for Seat<L> {
    ghost use Rattle.record_book.specs.Seat.{SeatState};

    ghost Value = { SeatState };

    ghost view = { λ s. record { pid = s.pid; seen = s.seen; receipts = s.receipts.items; counted = s.shares } };

    ghost use Rattle.std.specs.Prelude.{◌<◌, vec_len, vec_capacity};
    ghost use Rattle.record_book.specs.Counting.{CountsOwn};

    ghost invariant = { λ s. (vec_len s.receipts < vec_capacity s.receipts) × CountsOwn s.shares s.receipts.items };
}

impl<L: Ledgers> Seat<L> {
    /// The number of the seat's process.
    pub fn pid(&self) -> u32
        ensures { result ≡ self.now.pid }
    {
        self.pid
    }

    /// How many records of the book the seat has seen: all up to its last receipt, or as many as it was told of since.
    pub fn seen(&self) -> u64
        ensures { result ≡ self.now.seen }
    {
        self.seen
    }

    /// The receipts, in the order of their places. The seat counts them, and nothing else.
    pub fn receipts(&self) -> &[Receipt]
        ensures receipts { result.now ≡ self.now.receipts }
        ensures own { CountsOwn self.now.counted result.now }
    {
        self.receipts.as_slice()
    }

    /// Takes memory for the next record, and room for its receipt, where there is memory, so that neither is asked for while others wait for
    /// the book.
    pub fn prepare(&mut self, alloc: Global)
        ensures { self.new ≡ self.old }
    {
        if self.blank.is_none() {
            self.blank = blank_record(alloc);
        }
        let _room = self.receipts.reserve(2);
    }

    /// Tells the seat of so many records, if it has seen fewer.
    pub fn told(&mut self, seen: u64)
        ensures { self.new ≡ record self.old { seen = max self.old.seen seen } }
    {
        self.seen = self.seen.max(seen);
    }
}

/// A seat that gets no more receipts: its process has ended, or its join or attach failed. Contracts see the same of it as of a
/// seat.
#[derive(Drop)]
pub struct SpentSeat<L: Ledgers> {
    pub(crate) pid: u32,
    pub(crate) seen: u64,
    pub(crate) receipts: Vec<Receipt>,
    pub(crate) shares: Shares<L>,
}

impl<L: Ledgers> Model for SpentSeat<L> {
    ghost use Rattle.record_book.specs.Seat.{SeatState};

    ghost Value = { SeatState };

    ghost view = { λ s. record { pid = s.pid; seen = s.seen; receipts = s.receipts.items; counted = s.shares } };

    ghost use Rattle.record_book.specs.Counting.{CountsOwn};

    ghost invariant = { λ s. CountsOwn s.shares s.receipts.items };
}

impl<L: Ledgers> SpentSeat<L> {
    /// The same seat, to get no more receipts.
    pub fn of(seat: Seat<L>) -> Self
        ensures { result ≡ seat }
    {
        SpentSeat {
            pid: seat.pid,
            seen: seat.seen,
            receipts: seat.receipts,
            shares: seat.shares,
        }
    }

    /// The number of the seat's process, or of the one that was asked for. That of the house is `HOUSE`.
    pub fn pid(&self) -> u32
        ensures { result ≡ self.now.pid }
    {
        self.pid
    }

    /// How many records of the book the seat has seen.
    pub fn seen(&self) -> u64
        ensures { result ≡ self.now.seen }
    {
        self.seen
    }

    /// The receipts, in the order of their places. The seat counts them, and nothing else.
    pub fn receipts(&self) -> &[Receipt]
        ensures receipts { result.now ≡ self.now.receipts }
        ensures own { CountsOwn self.now.counted result.now }
    {
        self.receipts.as_slice()
    }

    /// Its receipts, and its shares, which count these receipts and nothing else.
    pub fn into_parts(self) -> (Vec<Receipt>, Shares<L>)
        ensures receipts { result.0.items ≡ self.receipts }
        ensures counted { result.1 ≡ self.counted }
        ensures own { CountsOwn result.1 result.0.items }
    {
        (self.receipts, self.shares)
    }
}

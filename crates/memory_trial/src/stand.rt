//! What an act that is refused must leave as it was.
use byte_ledger::ledgers::Ledgers;
use byte_ledger::tallies::Sums;
use call_types::limits::PROCESSES_MAX;
use record_book::book::Book;
use record_book::seat::Seat;

/// What a seat holds, and how its process stands.
#[derive(Clone, Copy, Debug, PartialEq, Eq)]
pub(crate) struct Held {
    pid: u32,
    seen: u64,
    receipts: usize,
    /// Whether its process waits in a call that is ready.
    is_ready: bool,
}

impl Held {
    /// What this seat of a book holds.
    pub(crate) fn of<L: Ledgers>(book: &Book<L>, seat: &Seat<L>) -> Self {
        Held {
            pid: seat.pid(),
            seen: seat.seen(),
            receipts: seat.receipts().len(),
            is_ready: book.is_ready(seat.pid()),
        }
    }
}

/// The counts of a book, the number of its next process, and what each seat of the first processes holds.
#[derive(Clone, Copy, Debug, PartialEq, Eq)]
pub(crate) struct BookStand {
    pub(crate) counts: Sums,
    pub(crate) next_pid: u32,
    pub(crate) seats: [Option<Held>; PROCESSES_MAX],
}

/// How stands what acts are given to: the counts of the run of a script, or a book and its seats.
#[derive(Clone, Copy, Debug, PartialEq, Eq)]
pub(crate) enum Stand {
    Run(Sums),
    Book(BookStand),
}

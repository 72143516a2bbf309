//! What goes into the ring of a book, and comes out at its reading end.

ghost use Rattle.std.specs.Prelude.{◌≡◌};

use byte_ledger::ledgers::{Blanks, Ledgers};
use call_types::act::Record;
use call_types::bounded::Data;
use call_types::call::Call;
use call_types::limits::Limits;
use record_book::book::Book;
use record_book::closing::ClosedBook;
use record_book::opening::Opened;
use record_book::seat::Seat;
use std::alloc::Global;
use std::marker::Brand;
use std::process::Abort;
use std::test::Fail;
use trace_ring::trace_ring::TraceEnd;

/// Whether the process of a seat makes a pipe, writes three bytes into it, reads two of them, and makes a child.
fn pipes_and_forks<L: Ledgers>(alloc: Global, book: &mut Book<L>, seat: &mut Seat<L>) -> bool {
    let bytes = match Data::copied(alloc, b"abc") {
        Ok(bytes) => bytes,
        Err(_) => return false,
    };
    book.start(alloc, seat, Call::Pipe).is_ok()
        && book
            .start(alloc, seat, Call::Write { fd: 1, bytes })
            .is_ok()
        && book
            .start(alloc, seat, Call::Read { fd: 0, count: 2 })
            .is_ok()
        && book.start(alloc, seat, Call::Fork).is_ok()
}

/// Records seven acts. The closing ends a child without a connection, so they make eight records; three bytes are written, and two of
/// them read.
fn run<L: Ledgers>(alloc: Global, book: &mut Book<L>) -> Result<(), Fail> {
    let mut seat = match book.join(alloc) {
        Ok(Opened::Seated(seat)) => seat,
        _ => return Err("there is room for a process")?,
    };
    if pipes_and_forks(alloc, book, &mut seat)
        && book.exit(seat).is_ok()
        && book.close_run().is_some()
    {
        return Ok(());
    }
    Err("each act is recorded")?
}

/// Whether the next record out of a ring is this one.
fn comes_next(end: &mut TraceEnd, stands: Option<&Record>) -> bool {
    match (end.pop(), stands) {
        (Ok(item), Some(stands)) => item.is_same(stands),
        _ => false,
    }
}

/// Whether all records of a book come out of its ring, in their order, and no more are to come.
fn has_all<L: Ledgers>(end: &mut TraceEnd, book: &ClosedBook<L>) -> bool {
    (0..book.len()).all(|place| comes_next(end, book.record_at(place)))
        && end.pop().is_err()
        && end.is_abandoned()
}

/// How many records a closed book has, and how many bytes they took and gave.
fn sums<L: Ledgers>(book: &ClosedBook<L>) -> (u64, u64, u64) {
    let counts = book.counts();
    (counts.records, counts.bytes_in, counts.bytes_out)
}

/// Whether the book of these acts is closed, and all its records come out of its ring.
fn is_traced<L: Ledgers>(ended: &Result<ClosedBook<L>, Book<L>>, end: &mut TraceEnd) -> bool {
    match ended {
        Ok(closed) => sums(closed) == (8, 3, 2) && closed.len() == 8 && has_all(end, closed),
        Err(_) => false,
    }
}

/// Whether the book of a run that is open, with one record, is given back.
fn is_given_back<L: Ledgers>(ended: &Result<ClosedBook<L>, Book<L>>) -> bool {
    match ended {
        Ok(_) => false,
        Err(book) => book.counts().records == 1,
    }
}

/// The reading end of a new book, which is given once.
fn taken_end<L: Ledgers>(rt: &impl Abort, book: &mut Book<L>) -> Result<TraceEnd, Fail> {
    match book.trace_end() {
        Some(end) => {
            assert!(rt; book.trace_end().is_none() && book.trace_end().is_none());
            Ok(end)
        }
        None => Err("the reading end is there")?,
    }
}

/// Records those acts to the closing, or only a join, and returns the reading end, which is taken before.
fn gone_on<L: Ledgers>(
    rt: &impl Abort,
    alloc: Global,
    book: &mut Book<L>,
    closes: bool,
) -> Result<TraceEnd, Fail> {
    let end = taken_end(rt, book)?;
    if closes {
        run(alloc, book)?;
    } else if book.join(alloc).is_err() {
        return Err("there is room for a process")?;
    }
    Ok(end)
}

/// Tells why a book did not go on to the end of its trace, or looks whether it is as it should be there.
fn ends_well<L: Ledgers>(
    rt: &impl Abort,
    ended: &Result<ClosedBook<L>, Book<L>>,
    end: Result<TraceEnd, Fail>,
    closes: bool,
) -> Result<(), Fail> {
    let mut end = end?;
    assert!(rt;
        if closes {
            is_traced(ended, &mut end)
        } else {
            is_given_back(ended)
        }
    );
    Ok(())
}

/// What a new book that goes on has at the end of its trace.
fn ended<L: Ledgers>(
    rt: &impl Abort,
    alloc: Global,
    book: Book<L>,
    closes: bool,
) -> Result<(), Fail> {
    let mut book = book;
    let end = gone_on(rt, alloc, &mut book, closes);
    ends_well(rt, &book.end_trace(), end, closes)
}

/// What a new book has at the end of its trace, whether its run is closed or not.
fn ends<L: Ledgers>(
    rt: &impl Abort,
    alloc: Global,
    blanks: Blanks,
    closes: bool,
) -> Result<(), Fail>
    requires { blanks ≡ L.names }
{
    // No `?` once there is a book, since each would drop it once more; whether it went on as it should is told at the end.
    match Book::<L>::new(alloc, Limits::new(20, 1024)?, blanks) {
        Ok(book) => ended(rt, alloc, book, closes),
        Err(error) => Err(Fail::from(error)),
    }
}

#[test]
fn records_come_out_of_the_ring_in_their_order(rt: HostRuntime) -> Result<(), Fail> {
    ends::<Brand>(&rt, rt.alloc(), Blanks::new(), true)
}

#[test]
fn reading_end_is_given_once_and_an_open_run_keeps_its_book(rt: HostRuntime) -> Result<(), Fail> {
    ends::<Brand>(&rt, rt.alloc(), Blanks::new(), false)
}

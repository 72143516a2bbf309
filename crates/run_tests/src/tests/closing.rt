//! What a closed run comes to, by its seats.

ghost use Rattle.std.specs.Prelude.{◌≡◌, [], IfOk, IfSome};
ghost use Rattle.rtrb.specs.Ring.{received};

use byte_ledger::gather::Missing;
use byte_ledger::ledgers::{Blanks, Ledgers};
use call_types::act::HOUSE;
use call_types::bounded::{Name, Payload};
use call_types::call::Call;
use call_types::flags::OpenFlags;
use call_types::limits::Limits;
use record_book::book::Book;
use record_book::closing::ClosedBook;
use record_book::opening::Opened;
use record_book::seat::{Receipt, Seat, SpentSeat};
use run_core::closing::{CloseFault, Totals, close_run};
use run_core::comparison::{HasReceipts, compare};
use std::alloc::{AllocError, Global};
use std::marker::Brand;
use std::process::Abort;
use std::sync::Wait;
use std::test::Fail;
use std::time::Clock;
use trace_ring::trace_ring::TraceEnd;
use trace_writer::memory::{Manner, MemorySink};
use trace_writer::traced::{TraceFault, Traced};
use trace_writer::write_trace::write_trace;

/// The seat of the next process.
fn joined<L: Ledgers>(alloc: Global, book: &mut Book<L>) -> Result<Seat<L>, Fail> {
    match book.join(alloc) {
        Ok(Opened::Seated(seat)) => Ok(seat),
        _ => Err("there is room for a process")?,
    }
}

/// Has a process open a new file.
fn opens<L: Ledgers>(alloc: Global, book: &mut Book<L>, seat: &mut Seat<L>) -> Result<(), Fail> {
    let name = Name::copied(alloc, b"a")?;
    let flags = OpenFlags::WRITE | OpenFlags::CREAT;
    match book.start(alloc, seat, Call::Open { name, flags }) {
        Ok(_) => Ok(()),
        Err(_) => Err("there is room for a file")?,
    }
}

/// Has a process write three bytes into that file.
fn writes<L: Ledgers>(alloc: Global, book: &mut Book<L>, seat: &mut Seat<L>) -> Result<(), Fail> {
    let bytes = Payload::copied(alloc, b"abc")?;
    match book.start(alloc, seat, Call::Write { fd: 0, bytes }) {
        Ok(_) => Ok(()),
        Err(_) => Err("there is room for the bytes")?,
    }
}

/// Has a process exit, and keeps its seat.
fn exits<L: Ledgers>(
    book: &mut Book<L>,
    seat: Seat<L>,
    spent: &mut Vec<SpentSeat<L>>,
) -> Result<(), Fail> {
    match book.exit(seat) {
        Ok(seat) => Ok(spent.push(seat)?),
        Err(_) => Err("the process is there")?,
    }
}

/// Closes a run, and keeps the seat of the house.
fn closes<L: Ledgers>(book: &mut Book<L>, spent: &mut Vec<SpentSeat<L>>) -> Result<(), Fail> {
    match book.close_run() {
        Some(house) => Ok(spent.push(house)?),
        None => Err("the run is open")?,
    }
}

/// Has a process write three bytes into a new file, as two records.
fn makes_a_file<L: Ledgers>(
    alloc: Global,
    book: &mut Book<L>,
    seat: &mut Seat<L>,
) -> Result<(), Fail> {
    opens(alloc, book, seat)?;
    writes(alloc, book, seat)
}

/// Has a second process join and exit, and the first make a file in between.
fn second_comes_and_goes<L: Ledgers>(
    alloc: Global,
    book: &mut Book<L>,
    first: &mut Seat<L>,
    spent: &mut Vec<SpentSeat<L>>,
) -> Result<(), Fail> {
    let second = joined(alloc, book)?;
    makes_a_file(alloc, book, first)?;
    exits(book, second, spent)
}

/// Has two processes join, of which the first writes, and has both exit: records 0 to 5.
fn come_and_go<L: Ledgers>(
    alloc: Global,
    book: &mut Book<L>,
    spent: &mut Vec<SpentSeat<L>>,
) -> Result<(), Fail> {
    let mut first = joined(alloc, book)?;
    second_comes_and_goes(alloc, book, &mut first, spent)?;
    exits(book, first, spent)
}

/// The seats of a run of two processes that is closed: records 0 to 6.
fn closed<L: Ledgers>(alloc: Global, book: &mut Book<L>) -> Result<Vec<SpentSeat<L>>, Fail> {
    let mut seats = Vec::with_capacity(alloc, 3)?;
    come_and_go(alloc, book, &mut seats)?;
    closes(book, &mut seats)?;
    Ok(seats)
}

/// A run that is closed: its book, its seats, and what became of its trace.
#[derive(Drop)]
struct ClosedRun<L: Ledgers> {
    book: ClosedBook<L>,
    seats: Vec<SpentSeat<L>>,
    traced: Traced,
}

/// What becomes of a trace in memory.
fn traced_by<Rt: Wait + Clock>(rt: &Rt, alloc: Global, end: TraceEnd) -> Result<Traced, Fail>
    requires { received end ≡ [] }
{
    let mut end = end;
    let sink = MemorySink::new(alloc, Manner::sound());
    let (_sink, traced) = write_trace(rt, alloc, &mut end, Limits::new(10, 1024)?, sink);
    Ok(traced)
}

/// The end of the ring of a book, which was not taken.
fn end_of<L: Ledgers>(book: &mut Book<L>) -> Result<TraceEnd, Fail>
    ensures { IfOk result (λ end. received end ≡ []) }
{
    match book.trace_end() {
        Some(end) => Ok(end),
        None => Err("the end of the ring was not taken")?,
    }
}

/// The closed book of a run that is closed.
fn ended<L: Ledgers>(book: Book<L>) -> Option<ClosedBook<L>> {
    book.end_trace().ok()
}

/// Whether this is the book of a run that is closed. Nothing more comes into its ring.
fn is_ended<L: Ledgers>(book: Book<L>) -> bool {
    ended(book).is_some()
}

/// The seats of a run of two processes that is closed, and the end of the ring of its book.
fn closed_with_its_end<L: Ledgers>(
    alloc: Global,
    book: &mut Book<L>,
) -> Result<(Vec<SpentSeat<L>>, TraceEnd), Fail>
    ensures { IfOk result (λ both. received both.1 ≡ []) }
{
    let seats = closed(alloc, book)?;
    let end = end_of(book)?;
    Ok((seats, end))
}

/// A run with its closed book, its seats and what became of its trace, whose ring has this end.
fn with_its_trace<Rt: Wait + Clock, L: Ledgers>(
    rt: &Rt,
    alloc: Global,
    book: Option<ClosedBook<L>>,
    seats: Vec<SpentSeat<L>>,
    end: TraceEnd,
) -> Result<ClosedRun<L>, Fail>
    requires { received end ≡ [] }
{
    let traced = traced_by(rt, alloc, end)?;
    match book {
        Some(book) => Ok(ClosedRun {
            book,
            seats,
            traced,
        }),
        None => Err("the run is closed")?,
    }
}

/// That run of two processes.
fn closed_run<Rt: Wait + Clock, L: Ledgers>(
    rt: &Rt,
    alloc: Global,
    blanks: Blanks,
) -> Result<ClosedRun<L>, Fail>
    requires { blanks ≡ L.names }
{
    let mut book = Book::<L>::new(alloc, Limits::new(10, 1024)?, blanks)?;
    let both = closed_with_its_end(alloc, &mut book);
    let book = ended(book);
    let (seats, end) = both?;
    with_its_trace(rt, alloc, book, seats, end)
}

/// Closes a run that is open, and returns the end of the ring of its book, if that was not taken.
fn only_closed<L: Ledgers>(book: &mut Book<L>) -> Option<TraceEnd>
    ensures { IfSome result (λ end. received end ≡ []) }
{
    match book.close_run() {
        Some(_) => book.trace_end(),
        None => None,
    }
}

/// What became of the trace of a run that was only closed.
fn traced_of_nothing<Rt: Wait + Clock, L: Ledgers>(
    rt: &Rt,
    alloc: Global,
    blanks: Blanks,
) -> Result<Traced, Fail>
    requires { blanks ≡ L.names }
{
    let mut book = Book::<L>::new(alloc, Limits::new(10, 1024)?, blanks)?;
    let end = only_closed(&mut book);
    match (is_ended(book), end) {
        (true, Some(end)) => traced_by(rt, alloc, end),
        _ => Err("the run is closed")?,
    }
}

/// Whether these are the totals of that run.
fn are_totals(totals: &Totals) -> bool {
    (totals.records, totals.bytes_in, totals.bytes_out) == (7, 3, 0)
        && match totals.receipts.as_slice() {
            [second, first, house] => (second.len(), first.len(), house.len()) == (2, 4, 1),
            _ => false,
        }
}

/// All seats have the totals of that run.
fn seats_have_the_totals<Rt: Abort + Wait + Clock, L: Ledgers>(
    rt: &Rt,
    alloc: Global,
    blanks: Blanks,
) -> Result<(), Fail>
    requires { blanks ≡ L.names }
{
    let ClosedRun {
        book,
        seats,
        traced,
    } = closed_run::<Rt, L>(rt, alloc, blanks)?;
    match close_run(alloc, book, seats, &traced) {
        Ok(totals) => assert!(rt; are_totals(&totals)),
        Err(_) => return Err("all seats are there")?,
    }
    Ok(())
}

#[test]
fn all_seats_have_the_totals_of_a_run(rt: HostRuntime) -> Result<(), Fail> {
    seats_have_the_totals::<HostRuntime, Brand>(&rt, rt.alloc(), Blanks::new())
}

/// Without one of its seats that run comes to this, where this was told of its trace.
fn fault_without<Rt: Wait + Clock, L: Ledgers>(
    rt: &Rt,
    alloc: Global,
    blanks: Blanks,
    left_out: usize,
    traced: &Traced,
) -> Result<Option<CloseFault>, Fail>
    requires { blanks ≡ L.names }
{
    let mut run = closed_run::<Rt, L>(rt, alloc, blanks)?;
    if left_out < run.seats.len() {
        run.seats.remove(left_out);
    }
    Ok(close_run(alloc, run.book, run.seats, traced).err())
}

#[test]
fn seat_that_is_left_out_is_missed(rt: HostRuntime) -> Result<(), Fail> {
    let nothing = traced_of_nothing::<HostRuntime, Brand>(&rt, rt.alloc(), Blanks::new())?;
    let missing = CloseFault::Missing(Missing { held: 2, opened: 3 });
    // those of the second process, of the first and of the house; what was received is not looked at then
    for left_out in 0..3 {
        let fault = fault_without::<HostRuntime, Brand>(
            &rt,
            rt.alloc(),
            Blanks::new(),
            left_out,
            &nothing,
        )?;
        assert!(rt; fault == Some(missing));
    }
    Ok(())
}

#[test]
fn trace_of_another_run_differs_from_the_first_place_on(rt: HostRuntime) -> Result<(), Fail> {
    let mut traced = traced_of_nothing::<HostRuntime, Brand>(&rt, rt.alloc(), Blanks::new())?;
    let fault = fault_without::<HostRuntime, Brand>(&rt, rt.alloc(), Blanks::new(), 3, &traced)?;
    assert!(rt; fault == Some(CloseFault::Disagree { place: 0 }));
    // a list that ends early for want of memory is no disagreement
    traced.fault = Some(TraceFault::NoMemory);
    let fault = fault_without::<HostRuntime, Brand>(&rt, rt.alloc(), Blanks::new(), 3, &traced)?;
    assert!(rt; fault == Some(CloseFault::NoMemory));
    Ok(())
}

/// Receipts that somebody holds for a process.
#[derive(Drop)]
struct Holder {
    pid: u32,
    receipts: Vec<Receipt>,
}

impl HasReceipts for Holder {
    ghost held = { λ h. record { pid = h.pid; receipts = h.receipts.items } };

    fn pid(&self) -> u32 {
        self.pid
    }

    fn receipts(&self) -> &[Receipt] {
        self.receipts.as_slice()
    }
}

/// Adds a receipt, if it is that of this place.
fn hold_one(held: &mut Vec<Receipt>, receipt: &Receipt, place: u64) -> Result<(), AllocError> {
    if receipt.place() == place {
        held.push(receipt.share()?)?;
    }
    Ok(())
}

/// Adds what is the receipt of this place, out of these.
fn hold_of(held: &mut Vec<Receipt>, receipts: &[Receipt], place: u64) -> Result<(), AllocError> {
    for receipt in receipts {
        hold_one(held, receipt, place)?;
    }
    Ok(())
}

/// Adds what is the receipt of this place, out of those of the seats.
fn hold<L: Ledgers>(
    held: &mut Vec<Receipt>,
    seats: &[SpentSeat<L>],
    place: u64,
) -> Result<(), AllocError> {
    for seat in seats {
        hold_of(held, seat.receipts(), place)?;
    }
    Ok(())
}

/// Adds the receipts of these places, in the order of the places.
fn hold_all<L: Ledgers>(
    held: &mut Vec<Receipt>,
    seats: &[SpentSeat<L>],
    places: &[u64],
) -> Result<(), AllocError> {
    for place in places {
        hold(held, seats, *place)?;
    }
    Ok(())
}

/// What this process holds: the receipts of these places, out of those of the seats, in the order of the places.
fn held_of<L: Ledgers>(
    alloc: Global,
    seats: &[SpentSeat<L>],
    pid: u32,
    places: &[u64],
) -> Result<Holder, AllocError> {
    let mut receipts = Vec::new(alloc);
    hold_all(&mut receipts, seats, places)?;
    Ok(Holder { pid, receipts })
}

/// The least place that differs where the two processes and the house hold the receipts of these places.
fn least<L: Ledgers>(
    alloc: Global,
    run: &ClosedRun<L>,
    first: &[u64],
    second: &[u64],
    house: &[u64],
) -> Result<Option<u64>, AllocError> {
    let seats = run.seats.as_slice();
    let holders = [
        held_of(alloc, seats, 0, first)?,
        held_of(alloc, seats, 1, second)?,
    ];
    let houses = [held_of(alloc, seats, HOUSE, house)?];
    let received = run.traced.received.as_slice();
    compare(
        alloc,
        &run.book,
        holders.as_slice(),
        houses.as_slice(),
        received,
    )
}

/// Receipts that are the records, and some that are not.
fn all_are_told<L: Ledgers>(
    rt: &impl Abort,
    alloc: Global,
    run: &ClosedRun<L>,
) -> Result<(), AllocError> {
    let told: [(&[u64], &[u64], &[u64], Option<u64>); 7] = [
        (&[0, 2, 3, 5], &[1, 4], &[6], None),
        // none holds the receipt of place 3
        (&[0, 2, 5], &[1, 4], &[6], Some(3)),
        // two hold that of place 4
        (&[0, 2, 3, 4, 5], &[1, 4], &[6], Some(4)),
        // one holds that of place 2 twice, and one that of place 1
        (&[0, 2, 2, 3, 5], &[1, 1, 4], &[6], Some(1)),
        // places fall
        (&[0, 3, 2, 5], &[1, 4], &[6], Some(2)),
        // another process holds that of place 2
        (&[0, 3, 5], &[1, 2, 4], &[6], Some(2)),
        // the house may hold exits, and none but the house the closing
        (&[0, 2, 3], &[1, 4, 6], &[5], Some(6)),
    ];
    for (first, second, house, place) in told {
        assert!(rt; least(alloc, run, first, second, house)? == place);
    }
    Ok(())
}

/// The same of a run whose last record was not received, also where a receipt before it is not there either.
fn last_is_told<L: Ledgers>(
    rt: &impl Abort,
    alloc: Global,
    run: &ClosedRun<L>,
) -> Result<(), AllocError> {
    assert!(rt; least(alloc, run, &[0, 2, 3, 5], &[1, 4], &[6])? == Some(6));
    assert!(rt; least(alloc, run, &[0, 2, 3], &[1, 4], &[6])? == Some(5));
    Ok(())
}

/// The same of a run that is whole, and then of one whose last record was not received.
fn both_are_told<L: Ledgers>(
    rt: &impl Abort,
    alloc: Global,
    run: &mut ClosedRun<L>,
) -> Result<(), AllocError> {
    all_are_told(rt, alloc, run)?;
    run.traced.received.pop();
    last_is_told(rt, alloc, run)
}

/// The same, of the run of two processes.
fn least_place_is_told<Rt: Abort + Wait + Clock, L: Ledgers>(
    rt: &Rt,
    alloc: Global,
    blanks: Blanks,
) -> Result<(), Fail>
    requires { blanks ≡ L.names }
{
    let mut run = closed_run::<Rt, L>(rt, alloc, blanks)?;
    let told = both_are_told(rt, alloc, &mut run);
    drop(run);
    Ok(told?)
}

#[test]
fn least_place_where_receipts_and_records_differ_is_told(rt: HostRuntime) -> Result<(), Fail> {
    least_place_is_told::<HostRuntime, Brand>(&rt, rt.alloc(), Blanks::new())
}

//! The closing of a run whose sessions have ended: their receipts are compared with its records, and what they counted is gathered.

ghost use Rattle.std.specs.Prelude.{◌≡◌, ◌↔◌, ◌++◌, ◌∷◌, ◌+◌, ◌≤◌, ℕ, List, Option, [], true, map, None, Some, length, vec_len, vec_capacity, OnOk, IfOk, IfErr};
ghost use Rattle.std.specs.Arc.{arc_value};
ghost use Rattle.posix_model.specs.Reserve.{IsLegalRun};
ghost use Rattle.posix_model.specs.Turns.{bytes_in, bytes_out};
ghost use Rattle.call_types.specs.declared.act.Record.{Record};
ghost use Rattle.record_book.specs.Book.{world_now};
ghost use Rattle.record_book.specs.Counting.{seats_given};
ghost use Rattle.run_core.specs.declared.report.RunFault.TheVariants as run_fault;
ghost use Rattle.run_core.specs.Proved.Closing.{DiffersFor};
ghost use Rattle.run_core.specs.Proved.Laws.{FlagsDecideAll};
ghost use Rattle.run_core.specs.Receipts.{GoodAt, Held};
ghost use Rattle.run_core.specs.Run.{AreAll, ClosesFor, IsClosing, IsGathered, IsLeast, IsRunOf, IsTorn, held_in};
ghost use Rattle.run_core.specs.Unreported.{UnreportedFor};
ghost use Rattle.trace_writer.specs.declared.traced.TraceFault.{TraceFault as FaultOfTrace};

use crate::comparison::{HasReceipts, compare, compare_known};
use crate::report::RunFault;
use byte_ledger::gather::Missing;
use byte_ledger::ledgers::Ledgers;
use byte_ledger::tallies::{Shares, Sums};
use call_types::act::Record;
use record_book::book::Book;
use record_book::closing::ClosedBook;
use record_book::seat::{Receipt, SpentSeat};
use std::alloc::{AllocError, Global};
use std::slice;
use std::sync::{Arc, Wait};
use thiserror::Error;
use trace_writer::traced::{TraceFault, Traced};

/// Waits until nobody else holds an `Arc`, and returns what it holds.
pub(crate) fn unshared<Rt: Wait, T>(rt: &Rt, shared: Arc<T>) -> T
    ensures { result ≡ arc_value shared }
{
    let mut shared = shared;
    for _ in rt.forever() {
        match Arc::try_unwrap(shared) {
            Ok(held) => return held,
            Err(again) => shared = again,
        }
    }
    unreachable!()
}

/// What a run comes to.
#[derive(Drop)]
pub struct Totals {
    /// How many records there are, summed over the shares of all seats.
    pub records: u64,
    /// How many bytes the calls of all processes wrote, and how many they read, summed in the same way.
    pub bytes_in: u64,
    pub bytes_out: u64,
    /// The receipts of each seat, in the order of the seats.
    pub receipts: Vec<Vec<Receipt>>,
}

/// Why a run comes to no totals.
#[derive(Clone, Copy, Debug, PartialEq, Eq, Drop, Error)]
pub enum CloseFault {
    #[error("no memory")]
    NoMemory,
    /// Some seats are missing.
    #[error("missing share")]
    Missing(Missing),
    /// The receipts, the records and what was received differ: this is the least place at which they do.
    #[error("disagree at {place}")]
    Disagree { place: u64 },
}

impl From<AllocError> for CloseFault {
    ghost use Rattle.run_core.specs.declared.closing.CloseFault.TheVariants.{NoMemory};

    ghost from_gives = { λ _ fault. fault ≡ NoMemory };

    fn from(_fault: AllocError) -> CloseFault {
        CloseFault::NoMemory
    }
}

impl From<Missing> for CloseFault {
    ghost use Rattle.run_core.specs.declared.closing.CloseFault.TheVariants as close_fault;

    ghost from_gives = { λ missing fault. fault ≡ close_fault.Missing missing };

    fn from(missing: Missing) -> CloseFault {
        CloseFault::Missing(missing)
    }
}

impl From<CloseFault> for RunFault {
    ghost use Rattle.run_core.specs.Run.{fault_of_closing};

    ghost from_gives = { λ closing fault. fault ≡ fault_of_closing closing };

    fn from(closing: CloseFault) -> RunFault {
        match closing {
            CloseFault::NoMemory => RunFault::NoMemory,
            CloseFault::Missing(_) => RunFault::Missing,
            CloseFault::Disagree { place } => RunFault::Disagree { place },
        }
    }
}

/// Seats that were parted into their receipts and their shares.
#[derive(Drop)]
struct Parted<L: Ledgers> {
    receipts: Vec<Vec<Receipt>>,
    shares: Vec<Shares<L>>,
}

/// Parts seats into their receipts and their shares.
fn part<L: Ledgers>(alloc: Global, seats: Vec<SpentSeat<L>>) -> Result<Parted<L>, AllocError>
    ensures receipts { IfOk result (λ parts. map (λ r. r.items) parts.receipts.items ≡ map (λ s. s.receipts) seats.items) }
    ensures all { IfOk result (λ parts. vec_len parts.shares ≡ length seats.items) }
    ensures counted { IfOk result (λ parts. parts.shares.items ≡ map (λ s. s.counted) seats.items) }
{
    let mut receipts = Vec::with_capacity(alloc, seats.len())?;
    let mut shares = Vec::with_capacity(alloc, seats.len())?;
    for seat in seats {
        let (held, counted) = seat.into_parts();
        receipts.push_reserved(held);
        shares.push_reserved(counted);
    }
    Ok(Parted { receipts, shares })
}

/// Whether the list of received records ends early, before the records of the run, because memory ran out.
fn is_torn(traced: &Traced, records: u64) -> bool
    ensures { (result ≡ true) ↔ IsTorn traced.now.fault records (map arc_value traced.now.received.items) }
{
    traced.fault == Some(TraceFault::NoMemory) && (traced.received.len() as u64) < records
}

/// Whether all places of a run agree, where this is the least that does not. If there is one, it is the fault, or want of memory, where that
/// is why less was received.
fn all_agree(traced: &Traced, records: u64, least: Option<u64>) -> Result<(), CloseFault>
    ensures all { OnOk result (least ≡ None) }
    ensures fault { IfErr result (DiffersFor least traced.now.fault records (map arc_value traced.now.received.items)) }
{
    match least {
        None => Ok(()),
        Some(_) if is_torn(traced, records) => Err(CloseFault::NoMemory),
        Some(place) => Err(CloseFault::Disagree { place }),
    }
}

/// Compares the receipts of seats, and what was received, with the records of their book: the least place that does not agree, if there
/// is one.
fn compare_seats<L: Ledgers>(
    alloc: Global,
    book: &ClosedBook<L>,
    seats: &[SpentSeat<L>],
    received: &[Arc<Record>],
) -> Result<Option<u64>, AllocError>
    ensures all { IfOk result (λ least. least ≡ None → AreAll book.now.history (map held_in seats.now) (map arc_value received.now)) }
    ensures least { IfOk result (λ least. (place : ℕ) → least ≡ Some place → IsLeast book.now.history (map held_in seats.now) (map arc_value received.now) place) }
{
    let others: Vec<SpentSeat<L>> = Vec::new(alloc);
    let least = compare(alloc, book, seats, others.as_slice(), received)?;
    Ok(least)
}

/// Brings all seats of a run together: the sums of what they counted, and their receipts. Where seats are missing, that is the fault.
fn gather_seats<L: Ledgers>(
    alloc: Global,
    book: ClosedBook<L>,
    seats: Vec<SpentSeat<L>>,
) -> Result<Totals, CloseFault>
    ensures records { IfOk result (λ totals. totals.records ≡ length book.history) }
    ensures bytes_in { IfOk result (λ totals. totals.bytes_in ≡ bytes_in book.limits.bounds book.history) }
    ensures bytes_out { IfOk result (λ totals. totals.bytes_out ≡ bytes_out book.limits.bounds book.history) }
    ensures gathered { IfOk result (λ totals. IsGathered book (map (λ s. s.counted) seats.items) totals.records totals.bytes_in totals.bytes_out) }
    ensures receipts { IfOk result (λ totals. map (λ r. r.items) totals.receipts.items ≡ map (λ s. s.receipts) seats.items) }
    ensures all { OnOk result (length seats.items ≡ seats_given book) }
    ensures fault { IfErr result (λ fault. (held : List Held) (why : Option FaultOfTrace) (received : List Record) → ClosesFor book (length seats.items) held why received fault) }
{
    let parted = part(alloc, seats)?;
    let Parted { receipts, shares } = parted;
    let sums = book.gather(shares)?;
    Ok(Totals {
        records: sums.records,
        bytes_in: sums.bytes_in,
        bytes_out: sums.bytes_out,
        receipts,
    })
}

/// Brings all seats of a run together: the sums of what they counted, and their receipts. The seat of the house, which closed the run, is
/// among them. The receipts are the records of the book, each of them once, in a seat of its process, and what the trace thread received
/// is these records. Where seats are missing, that is the fault. Otherwise, where receipts, records and what was received differ, the
/// fault is the least place at which they do, or want of memory, if that is why less was received. It takes time in proportion to the
/// records and the receipts.
pub fn close_run<L: Ledgers>(
    alloc: Global,
    book: ClosedBook<L>,
    seats: Vec<SpentSeat<L>>,
    traced: &Traced,
) -> Result<Totals, CloseFault>
    ensures records { IfOk result (λ totals. totals.records ≡ length book.history) }
    ensures bytes_in { IfOk result (λ totals. totals.bytes_in ≡ bytes_in book.limits.bounds book.history) }
    ensures bytes_out { IfOk result (λ totals. totals.bytes_out ≡ bytes_out book.limits.bounds book.history) }
    ensures gathered { IfOk result (λ totals. IsGathered book (map (λ s. s.counted) seats.items) totals.records totals.bytes_in totals.bytes_out) }
    ensures receipts { IfOk result (λ totals. map (λ r. r.items) totals.receipts.items ≡ map (λ s. s.receipts) seats.items) }
    ensures all { OnOk result (AreAll book.history (map held_in seats.items) (map arc_value traced.now.received.items)) }
    ensures received { OnOk result (map arc_value traced.now.received.items ≡ book.history) }
    ensures fault { IfErr result (ClosesFor book (length seats.items) (map held_in seats.items) traced.now.fault (map arc_value traced.now.received.items)) }
{
    let received = traced.received.as_slice();
    let least = compare_seats(alloc, &book, seats.as_slice(), received);
    // This takes the book and the seats, so no way out has to drop them. A fault of the comparison is told first.
    let totals = gather_seats(alloc, book, seats);
    let least = least?;
    let totals = totals?;
    all_agree(traced, totals.records, least)?;
    Ok(totals)
}

/// A run that is closed: its book, and the seat of the house, which closed it.
#[derive(Drop)]
pub(crate) struct Closed<L: Ledgers> {
    pub(crate) book: ClosedBook<L>,
    pub(crate) house: SpentSeat<L>,
}

/// Ends what the trace thread of a closed run is to receive.
fn end_trace<L: Ledgers>(book: Book<L>) -> ClosedBook<L>
    requires { (world_now book).closed ≡ true }
    ensures { result ≡ book }
{
    match book.end_trace() {
        Ok(book) => book,
        Err(_) => unreachable!(),
    }
}

/// Closes a run, whose house has no receipt yet, and ends what the trace thread is to receive.
pub(crate) fn close<L: Ledgers>(book: Book<L>) -> Closed<L>
    requires { book.house ≡ Some [] }
    ensures { IsClosing book result.book result.house }
{
    let mut book = book;
    let house = book.close_run();
    let book = end_trace(book);
    match house {
        Some(house) => Closed { book, house },
        None => unreachable!(),
    }
}

/// Compares the records of a closed run with the receipts of these holders and of the house, and with what was received: the least place
/// that does not agree, if there is one. The receipts of the holders are known to be good, so of them only the places are looked at.
fn compare_with_house<L: Ledgers, T: HasReceipts>(
    alloc: Global,
    closed: &Closed<L>,
    holders: &[T],
    received: &[Arc<Record>],
) -> Result<Option<u64>, AllocError>
    requires owned { (p : ℕ) → GoodAt closed.now.book.history p (map T.held holders.now) }
    ensures is_legal { OnOk result (IsLegalRun closed.now.book.limits.bounds (Some closed.now.book.limits.records) closed.now.book.history) }
    ensures all { IfOk result (λ least. least ≡ None → AreAll closed.now.book.history (map T.held holders.now ++ held_in closed.now.house ∷ []) (map arc_value received.now)) }
    ensures least { IfOk result (λ least. (place : ℕ) → least ≡ Some place → IsLeast closed.now.book.history (map T.held holders.now ++ held_in closed.now.house ∷ []) (map arc_value received.now) place) }
    ensures decided { IfOk result (λ least. least ≡ None → FlagsDecideAll (map arc_value received.now)) }
{
    let least = compare_known(
        alloc,
        &closed.book,
        holders,
        None,
        slice::from_ref(&closed.house),
        received,
    )?;
    Ok(least)
}

/// Finds why a closed run of so many shares beside those of the house has no totals, if there is a reason but for want of memory. The
/// faults are those of `close_run`.
fn check_run<L: Ledgers, T: HasReceipts>(
    alloc: Global,
    closed: &Closed<L>,
    holders: &[T],
    shares: usize,
    traced: &Traced,
) -> Result<(), RunFault>
    requires owned { (p : ℕ) → GoodAt closed.now.book.history p (map T.held holders.now) }
    ensures is_legal { OnOk result (IsLegalRun closed.now.book.limits.bounds (Some closed.now.book.limits.records) closed.now.book.history) }
    ensures all { OnOk result (AreAll closed.now.book.history (map T.held holders.now ++ held_in closed.now.house ∷ []) (map arc_value traced.now.received.items)) }
    ensures decided { OnOk result (FlagsDecideAll (map arc_value traced.now.received.items)) }
    ensures whole { OnOk result (seats_given closed.now.book ≤ shares + 1) }
    ensures fault { IfErr result (UnreportedFor closed.now.book (shares + 1) (map T.held holders.now ++ held_in closed.now.house ∷ []) traced.now.fault (map arc_value traced.now.received.items)) }
    ensures no_thread { IfErr result (λ fault. fault ≡ run_fault.NoThread → ⊥) }
{
    let least = compare_with_house(alloc, closed, holders, traced.received.as_slice())?;
    if (shares as u64) < closed.book.seats() - 1 {
        return Err(RunFault::Missing);
    }
    all_agree(traced, closed.book.len(), least)?;
    Ok(())
}

/// Gathers these shares and those of the house, of which none is missing: the number of the records of a closed run, and of the bytes that
/// they took and gave.
fn gather_with_house<L: Ledgers>(closed: Closed<L>, shares: Vec<Shares<L>>) -> Sums
    requires room { vec_len shares + 1 ≤ vec_capacity shares }
    requires whole { seats_given closed.book ≤ vec_len shares + 1 }
    ensures records { result.records ≡ length closed.book.history }
    ensures bytes_in { result.bytes_in ≡ bytes_in closed.book.limits.bounds closed.book.history }
    ensures bytes_out { result.bytes_out ≡ bytes_out closed.book.limits.bounds closed.book.history }
    ensures gathered { IsGathered closed.book (shares.items ++ closed.house.counted ∷ []) result.records result.bytes_in result.bytes_out }
{
    let Closed { book, house } = closed;
    let (_receipts, own) = house.into_parts();
    let mut shares = shares;
    shares.push_reserved(own);
    match book.gather(shares) {
        Ok(sums) => sums,
        Err(_) => unreachable!(),
    }
}

/// A closed run without totals.
#[derive(Drop)]
pub(crate) struct Unended<L: Ledgers> {
    pub(crate) fault: RunFault,
    pub(crate) closed: Closed<L>,
}

/// Ends a run that is closed and whose seats are parted into holders of their receipts, which are good, and shares. It sees that each
/// record stands in one receipt and was received, and gathers the shares: the number of the records, and of the bytes that they took and
/// gave. The faults are those of `close_run`, and give the run back.
pub(crate) fn end_run<L: Ledgers, T: HasReceipts>(
    alloc: Global,
    closed: Closed<L>,
    holders: &[T],
    shares: Vec<Shares<L>>,
    traced: &Traced,
) -> Result<Sums, Unended<L>>
    requires owned { (p : ℕ) → GoodAt closed.book.history p (map T.held holders.now) }
    ensures run { IfOk result (λ sums. IsRunOf closed.book.limits sums.records sums.bytes_in sums.bytes_out closed.book closed.house shares.items (map T.held holders.now) (map arc_value traced.now.received.items)) }
    ensures decided { OnOk result (FlagsDecideAll (map arc_value traced.now.received.items)) }
    ensures fault { IfErr result (λ unended. UnreportedFor closed.book (vec_len shares + 1) (map T.held holders.now ++ held_in closed.house ∷ []) traced.now.fault (map arc_value traced.now.received.items) unended.fault) }
    ensures no_thread { IfErr result (λ unended. unended.fault ≡ run_fault.NoThread → ⊥) }
    ensures back { IfErr result (λ unended. unended.closed ≡ closed) }
{
    let mut shares = shares;
    if let Err(fault) = check_run(alloc, &closed, holders, shares.len(), traced) {
        return Err(Unended { fault, closed });
    }
    if shares.reserve(1).is_err() {
        return Err(Unended {
            fault: RunFault::NoMemory,
            closed,
        });
    }
    Ok(gather_with_house(closed, shares))
}

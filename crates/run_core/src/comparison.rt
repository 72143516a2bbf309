//! Whether the receipts of all seats are the records of a book, each of them once.

ghost use Rattle.std.specs.Prelude.{◌≡◌, ◌↔◌, ◌<◌, ◌≤◌, ◌+◌, ◌==◌, ◌⊎◌, ◌++◌, ℕ, map, None, Some, true, false, length, if◌then◌else◌, IfOk, IfSome};
ghost use Rattle.std.specs.List.{slice_index};
ghost use Rattle.posix_model.specs.Reserve.{IsLegalRun};
ghost use Rattle.std.specs.Arc.{arc_value};
ghost use Rattle.run_core.specs.Judged.{FlagsDecideAt};
ghost use Rattle.run_core.specs.Receipts.{Held, Agrees, IsGood, IsOwn, IsAbove, GoodFrom, GoodAt, IsBefore, IsReceivedAt, names, named, wanted, IsSound};

use byte_ledger::ledgers::Ledgers;
use call_types::act::{Act, HOUSE, Record};
use frame_codec::ranges::record_is_in_range;
use posix_model::laws::reserve_was_kept;
use record_book::closing::ClosedBook;
use record_book::seat::{Receipt, SpentSeat};
use std::alloc::{AllocError, Global};
use std::sync::Arc;

/// What holds the receipts of one process, if it has any.
pub trait HasReceipts {
    ghost held: { Self → Held };

    /// The number of the process.
    fn pid(&self) -> u32
        ensures { result ≡ (held self.now).pid };

    /// Its receipts.
    fn receipts(&self) -> &[Receipt]
        ensures { result.now ≡ (held self.now).receipts };
}

impl<L: Ledgers> HasReceipts for SpentSeat<L> {
    ghost held = { λ s. record { pid = s.pid; receipts = s.receipts } };

    fn pid(&self) -> u32 {
        self.pid()
    }

    fn receipts(&self) -> &[Receipt] {
        self.receipts()
    }
}

/// Whether an act is an exit.
fn is_exit(act: &Act) -> bool
    ensures { (result ≡ true) ↔ (act.now ≡ Act.Exit) }
{
    match act {
        Act::Exit => true,
        _ => false,
    }
}

/// Whether a record is one of this process, or of the house.
fn is_own(pid: u32, told: &Record) -> bool
    ensures { (result ≡ true) ↔ IsOwn pid told.now }
{
    told.actor == pid || (pid == HOUSE && is_exit(&told.act))
}

/// Whether a place is above the one before, if there is one.
fn is_above(before: Option<u64>, place: u64) -> bool
    ensures { (result ≡ true) ↔ IsAbove before place }
{
    match before {
        None => true,
        Some(before) => before < place,
    }
}

/// The lower of two places, of which one may not be there.
fn lower(least: Option<u64>, place: u64) -> u64
    ensures both { (p : ℕ) → p < result → IsBefore p least × (p < place) }
    ensures one { ((result ≡ place) × IsBefore place least) ⊎ (least ≡ Some result) }
{
    match least {
        None => place,
        Some(least) => least.min(place),
    }
}

/// The lower of two places, if there is one.
fn lowest(one: Option<u64>, other: Option<u64>) -> Option<u64>
    ensures both { (p : ℕ) → IsBefore p result → IsBefore p one × IsBefore p other }
    ensures either { (result ≡ one) ⊎ ((result ≡ other) × IfSome result (λ q. IsBefore q one)) }
{
    match other {
        None => one,
        Some(place) => Some(lower(one, place)),
    }
}

/// Whether a receipt is good: it tells the record at its place, that is a record of this process, and its place is above the one before.
fn is_good<L: Ledgers>(
    book: &ClosedBook<L>,
    pid: u32,
    before: Option<u64>,
    receipt: &Receipt,
) -> bool
    ensures { (result ≡ true) ↔ IsGood book.now.history pid before receipt.now }
{
    let stands = match book.record_at(receipt.place()) {
        Some(stands) => stands.is_same(receipt.record()),
        None => false,
    };
    stands && is_own(pid, receipt.record()) && is_above(before, receipt.place())
}

/// The least place that is named by a receipt which is not good.
fn least_bad<L: Ledgers>(book: &ClosedBook<L>, pid: u32, receipts: &[Receipt]) -> Option<u64>
    ensures good { (p : ℕ) → IsBefore p result → GoodFrom book.now.history pid p None receipts.now }
    ensures bad { IfSome result (λ p. GoodFrom book.now.history pid p None receipts.now → ⊥) }
{
    let mut least = None;
    let mut before = None;
    let mut left = receipts;
    while let Some((receipt, rest)) = left.split_first() {
        if !is_good(book, pid, before, receipt) {
            least = Some(lower(least, receipt.place()));
        }
        before = Some(receipt.place());
        left = rest;
    }
    least
}

/// The least place that is named by a receipt of these holders which is not good.
fn least_bad_of<L: Ledgers, T: HasReceipts>(book: &ClosedBook<L>, holders: &[T]) -> Option<u64>
    ensures good { (p : ℕ) → IsBefore p result → GoodAt book.now.history p (map T.held holders.now) }
    ensures bad { IfSome result (λ p. GoodAt book.now.history p (map T.held holders.now) → ⊥) }
{
    let mut least = None;
    let mut left = holders;
    while let Some((holder, rest)) = left.split_first() {
        least = lowest(least, least_bad(book, holder.pid(), holder.receipts()));
        left = rest;
    }
    least
}

/// Marks a place, if it is one and is not marked yet.
fn mark_one(marks: &mut [u8], place: u64) -> bool
    ensures len { length marks.new ≡ length marks.old }
    ensures ones { ((p : ℕ) → slice_index marks.old p ≤ 1) → (p : ℕ) → slice_index marks.new p ≤ 1 }
    ensures marked { result ≡ true → (p : ℕ) → slice_index marks.new p ≡ (if place == p then slice_index marks.old p + 1 else slice_index marks.old p) }
    ensures refused { result ≡ false → (marks.new ≡ marks.old) × (wanted (length marks.old) place ≤ slice_index marks.old place) }
{
    let at = place as usize;
    if at < marks.len() && marks[at] == 0 {
        marks[at] = 1;
        return true;
    }
    false
}

/// Marks the places that receipts name. It returns the least of those that were marked already or have no record, or the least so far, if
/// that is lower.
fn mark(marks: &mut [u8], least: Option<u64>, receipts: &[Receipt]) -> Option<u64>
    ensures len { length marks.new ≡ length marks.old }
    ensures ones { ((p : ℕ) → slice_index marks.old p ≤ 1) → (p : ℕ) → slice_index marks.new p ≤ 1 }
    ensures marked { (p : ℕ) → IsBefore p result → slice_index marks.new p ≡ slice_index marks.old p + names p receipts.now }
    ensures lower { (p : ℕ) → IsBefore p result → IsBefore p least }
    ensures twice { (result ≡ least) ⊎ IfSome result (λ q. IsBefore q least × (wanted (length marks.old) q < slice_index marks.old q + names q receipts.now)) }
{
    let mut least = least;
    let mut left = receipts;
    while let Some((receipt, rest)) = left.split_first() {
        let place = receipt.place();
        if !mark_one(marks, place) {
            least = Some(lower(least, place));
        }
        left = rest;
    }
    least
}

/// Marks the places that receipts of these holders name. It returns the least of those that were marked already or have no record, or the
/// least so far, if that is lower.
fn mark_all<T: HasReceipts>(marks: &mut [u8], least: Option<u64>, holders: &[T]) -> Option<u64>
    ensures len { length marks.new ≡ length marks.old }
    ensures ones { ((p : ℕ) → slice_index marks.old p ≤ 1) → (p : ℕ) → slice_index marks.new p ≤ 1 }
    ensures marked { (p : ℕ) → IsBefore p result → slice_index marks.new p ≡ slice_index marks.old p + named p (map T.held holders.now) }
    ensures lower { (p : ℕ) → IsBefore p result → IsBefore p least }
    ensures twice { (result ≡ least) ⊎ IfSome result (λ q. IsBefore q least × (wanted (length marks.old) q < slice_index marks.old q + named q (map T.held holders.now))) }
{
    let mut least = least;
    let mut left = holders;
    while let Some((holder, rest)) = left.split_first() {
        least = mark(marks, least, holder.receipts());
        left = rest;
    }
    least
}

/// The first place that is not marked.
fn unmarked(marks: &[u8]) -> Option<u64>
    ensures before { (p : ℕ) → IsBefore p result → p < length marks.now → 1 ≤ slice_index marks.now p }
    ensures there { IfSome result (λ q. (q < length marks.now) × (slice_index marks.now q ≡ 0)) }
{
    for at in 0..marks.len() {
        if marks[at] == 0 {
            return Some(at as u64);
        }
    }
    None
}

/// The least place that has a record and is not named by exactly one receipt, or has none and is named. No place is marked yet.
fn uncovered<T: HasReceipts, U: HasReceipts>(
    marks: &mut [u8],
    holders: &[T],
    others: &[U],
) -> Option<u64>
    requires fresh { (p : ℕ) → slice_index marks.old p ≡ 0 }
    ensures covered { (p : ℕ) → IsBefore p result → named p (map T.held holders.now ++ map U.held others.now) ≡ wanted (length marks.old) p }
    ensures uncovered { IfSome result (λ q. named q (map T.held holders.now ++ map U.held others.now) ≡ wanted (length marks.old) q → ⊥) }
{
    let first = mark_all(marks, None, holders);
    let twice = mark_all(marks, first, others);
    lowest(twice, unmarked(marks))
}

/// How many records a closed book holds. They are those of a legal run.
fn records_of<L: Ledgers>(book: &ClosedBook<L>) -> usize
    ensures count { result ≡ length book.now.history }
    ensures legal { IsLegalRun book.now.limits.bounds (Some book.now.limits.records) book.now.history }
{
    reserve_was_kept();
    book.counts().records as usize
}

/// The least place that is not sound: one whose record is not in exactly one receipt of all holders, or that a receipt names which is not
/// good; `bad` is the least that such a receipt of the first holders names, if there is one. The records are a legal run.
fn least_unsound<L: Ledgers, T: HasReceipts, U: HasReceipts>(
    alloc: Global,
    book: &ClosedBook<L>,
    holders: &[T],
    bad: Option<u64>,
    others: &[U],
) -> Result<Option<u64>, AllocError>
    requires good { (p : ℕ) → IsBefore p bad → GoodAt book.now.history p (map T.held holders.now) }
    requires bad { IfSome bad (λ p. GoodAt book.now.history p (map T.held holders.now) → ⊥) }
    ensures legal { IsLegalRun book.now.limits.bounds (Some book.now.limits.records) book.now.history }
    ensures sound { IfOk result (λ least. (p : ℕ) → IsBefore p least → IsSound book.now.history (map T.held holders.now ++ map U.held others.now) p) }
    ensures broken { IfOk result (λ least. IfSome least (λ q. IsSound book.now.history (map T.held holders.now ++ map U.held others.now) q → ⊥)) }
{
    let records = records_of(book);
    let mut marks = vec![in alloc; 0u8; records]?;
    let uncovered = uncovered(marks.as_mut_slice(), holders, others);
    let bad = lowest(bad, least_bad_of(book, others));
    Ok(lowest(uncovered, bad))
}

/// Whether the record of a place was received there, or there is none and none was received.
fn is_received<L: Ledgers>(book: &ClosedBook<L>, received: &[Arc<Record>], place: usize) -> bool
    ensures received { (result ≡ true) ↔ IsReceivedAt book.now.history (map arc_value received.now) place }
    ensures decided { result ≡ true → FlagsDecideAt (map arc_value received.now) place }
{
    match (book.record_at(place as u64), received.get(place)) {
        (Some(stands), Some(told)) => {
            record_is_in_range(&**told);
            stands.is_same(&**told)
        }
        (None, None) => true,
        _ => false,
    }
}

/// The first place at which the records and what was received differ. If one of them ends first, its end differs.
fn first_difference<L: Ledgers>(book: &ClosedBook<L>, received: &[Arc<Record>]) -> Option<u64>
    ensures same { (p : ℕ) → IsBefore p result → IsReceivedAt book.now.history (map arc_value received.now) p }
    ensures decided { (p : ℕ) → IsBefore p result → FlagsDecideAt (map arc_value received.now) p }
    ensures differs { IfSome result (λ p. IsReceivedAt book.now.history (map arc_value received.now) p → ⊥) }
{
    let records = book.counts().records as usize;
    for place in 0..records.max(received.len()) {
        if !is_received(book, received, place) {
            return Some(place as u64);
        }
    }
    None
}

/// The least place that does not agree, as `compare` finds it. The receipts of the first holders are not compared with the records: `bad` is
/// the least place that is named by one of them which is not good, if there is one.
pub(crate) fn compare_known<L: Ledgers, T: HasReceipts, U: HasReceipts>(
    alloc: Global,
    book: &ClosedBook<L>,
    holders: &[T],
    bad: Option<u64>,
    others: &[U],
    received: &[Arc<Record>],
) -> Result<Option<u64>, AllocError>
    requires good { (p : ℕ) → IsBefore p bad → GoodAt book.now.history p (map T.held holders.now) }
    requires bad { IfSome bad (λ p. GoodAt book.now.history p (map T.held holders.now) → ⊥) }
    ensures legal { IsLegalRun book.now.limits.bounds (Some book.now.limits.records) book.now.history }
    ensures agree { IfOk result (λ least. (p : ℕ) → IsBefore p least → Agrees book.now.history (map T.held holders.now ++ map U.held others.now) (map arc_value received.now) p) }
    ensures broken { IfOk result (λ least. IfSome least (λ q. Agrees book.now.history (map T.held holders.now ++ map U.held others.now) (map arc_value received.now) q → ⊥)) }
    ensures decided { IfOk result (λ least. (p : ℕ) → IsBefore p least → FlagsDecideAt (map arc_value received.now) p) }
{
    let unsound = least_unsound(alloc, book, holders, bad, others)?;
    Ok(lowest(unsound, first_difference(book, received)))
}

/// The least place that does not agree: one that is not sound, since its record is not in exactly one receipt of all holders or a
/// receipt names it that is not good, or whose record was not received as the trace thread says. The records are a legal run, as those
/// of a book are. It takes time in proportion to the receipts and the records, and a byte of memory for each record.
pub fn compare<L: Ledgers, T: HasReceipts, U: HasReceipts>(
    alloc: Global,
    book: &ClosedBook<L>,
    holders: &[T],
    others: &[U],
    received: &[Arc<Record>],
) -> Result<Option<u64>, AllocError>
    ensures legal { IsLegalRun book.now.limits.bounds (Some book.now.limits.records) book.now.history }
    ensures agree { IfOk result (λ least. (p : ℕ) → IsBefore p least → Agrees book.now.history (map T.held holders.now ++ map U.held others.now) (map arc_value received.now) p) }
    ensures broken { IfOk result (λ least. IfSome least (λ q. Agrees book.now.history (map T.held holders.now ++ map U.held others.now) (map arc_value received.now) q → ⊥)) }
    ensures decided { IfOk result (λ least. (p : ℕ) → IsBefore p least → FlagsDecideAt (map arc_value received.now) p) }
{
    let bad = least_bad_of(book, holders);
    compare_known(alloc, book, holders, bad, others, received)
}

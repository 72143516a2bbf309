//! Records of the process of a seat, counted by the seat's shares.

ghost use Rattle.std.specs.Prelude.{◌≡◌, ◌<◌, ◌≤◌, ◌+◌, ◌^◌, ◌∷◌, [], false, vec_capacity, IfOk, OnErr};
ghost use Rattle.byte_ledger.specs.Counted.{counted_more};
ghost use Rattle.posix_model.specs.Proved.Sound.{ended, closes};
ghost use Rattle.record_book.specs.Book.{Records, run_of};
ghost use Rattle.record_book.specs.Openings.{IsOpening};
ghost use Rattle.record_book.specs.Counting.{seats_of, only_records, CountsOwn};
ghost use Rattle.record_book.specs.Proved.Planned.{IsPlanned};

use crate::book::Book;
use crate::journal::Appended;
use crate::seat::{Receipt, Seat};
use byte_ledger::ledgers::Ledgers;
use byte_ledger::tallies::Tallies;
use call_types::act::Act;
use posix_model::change::Decided;
use posix_model::laws::processes_are_counted;
use std::alloc::{AllocError, Global};

/// Opens the seat of a process, whose first record was appended: it counts it, and has its receipt. Returns the seat and, beside it,
/// its receipt.
fn open_seat<L: Ledgers>(
    tallies: &mut Tallies<L>,
    receipts: Vec<Receipt>,
    pid: u32,
    appended: Appended,
) -> (Seat<L>, Receipt)
    requires few { tallies.old.opened < 1000000 }
    requires records { tallies.old.counted.records + 1 < 2 ^ 64 }
    requires bytes_in { tallies.old.counted.bytes_in + appended.bytes_in < 2 ^ 64 }
    requires bytes_out { tallies.old.counted.bytes_out + appended.bytes_out < 2 ^ 64 }
    requires place { appended.receipt.place + 1 < 2 ^ 64 }
    requires empty { receipts.items ≡ [] }
    requires room { 2 ≤ vec_capacity receipts }
    requires own { CountsOwn (counted_more appended.bytes_in appended.bytes_out (only_records 0)) (appended.shared ∷ []) }
    ensures tallies { tallies.new ≡ record { opened = tallies.old.opened + 1; counted = counted_more appended.bytes_in appended.bytes_out tallies.old.counted } }
    ensures seat { result.0 ≡ record { pid = pid; seen = appended.receipt.place + 1; receipts = appended.shared ∷ []; counted = counted_more appended.bytes_in appended.bytes_out (only_records 0) } }
    ensures receipt { result.1 ≡ appended.receipt }
{
    let Appended {
        receipt,
        shared,
        bytes_in,
        bytes_out,
    } = appended;
    let mut shares = tallies.open_shares();
    tallies.count(&mut shares, bytes_in, bytes_out);
    let seen = receipt.place() + 1;
    let mut receipts = receipts;
    receipts.push_reserved(shared);
    let seat = Seat {
        pid,
        seen,
        receipts,
        shares,
        blank: None,
    };
    (seat, receipt)
}

impl<L: Ledgers> Book<L> {
    /// Records a planned act of a seat's process. The act opens no seat, ends no process and does not close the run. The seat gets
    /// the receipt too. On an error nothing changes.
    #[inline(always)]
    pub(crate) fn record_act(
        &mut self,
        alloc: Global,
        seat: &mut Seat<L>,
        act: Act,
        decided: Decided,
    ) -> Result<Receipt, AllocError>
        requires planned { IsPlanned (run_of self.old) seat.old.pid act decided }
        requires opens { seats_of act ≡ 0 }
        requires ends { ended act ≡ 0 }
        requires closes { closes act ≡ false }
        ensures ok { IfOk result (λ receipt. Records self.old self.new seat.old seat.new act receipt) }
        ensures err { OnErr result ((self.new ≡ self.old) × (seat.new ≡ seat.old)) }
    {
        processes_are_counted();
        self.journal.is_run();
        seat.receipts.reserve(2)?;
        // A match, since `?` would move the record's receipts once more.
        let blank = seat.blank.take();
        let appended = match self.journal.append(alloc, blank, seat.pid, act, decided) {
            Ok(appended) => appended,
            Err(error) => return Err(error),
        };
        let (bytes_in, bytes_out) = (appended.bytes_in, appended.bytes_out);
        self.tallies.count(&mut seat.shares, bytes_in, bytes_out);
        seat.seen = appended.receipt.place() + 1;
        seat.receipts.push_reserved(appended.shared);
        Ok(appended.receipt)
    }

    /// Records an act that opens a seat and that `is_planned` covers. Returns the seat and, beside it, its receipt. On an error
    /// nothing changes.
    pub(crate) fn record_opening(
        &mut self,
        alloc: Global,
        actor: u32,
        act: Act,
        decided: Decided,
    ) -> Result<(Seat<L>, Receipt), AllocError>
        requires planned { IsPlanned (run_of self.old) actor act decided }
        requires opens { seats_of act ≡ 1 }
        requires ends { ended act ≡ 0 }
        requires closes { closes act ≡ false }
        ensures ok { IfOk result (λ opened. IsOpening self.old self.new actor act opened.0 opened.1) }
        ensures err { OnErr result (self.new ≡ self.old) }
    {
        let receipts = Vec::with_capacity(alloc, 2)?;
        let appended = match self.journal.append(alloc, None, actor, act, decided) {
            Ok(appended) => appended,
            Err(error) => return Err(error),
        };
        processes_are_counted();
        self.journal.is_run();
        Ok(open_seat(&mut self.tallies, receipts, actor, appended))
    }
}

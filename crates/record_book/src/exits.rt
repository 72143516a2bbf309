//! Exits, which take no memory, since what they need is made with the process.

ghost use Rattle.std.specs.Prelude.{◌≡◌, ◌+◌, ◌<◌, ◌≤◌, ◌^◌, None, Some, true, false, is_some, length, slice_set, IfOk, IfErr, OnOk, OnErr};
ghost use Rattle.std.specs.Arc.{arc_value};
ghost use Rattle.call_types.specs.declared.outcome.Outcome.TheVariants.{Reply as Replied};
ghost use Rattle.call_types.specs.declared.outcome.Reply.TheVariants.{Done};
ghost use Rattle.byte_ledger.specs.Counted.{counted_more, IsPartOf};
ghost use Rattle.slots.specs.Slots.{slot, live};
ghost use Rattle.posix_model.specs.Exit.{exit};
ghost use Rattle.posix_model.specs.Proved.Lengths.{IsShortRecord};
ghost use Rattle.trace_ring.specs.Proved.Trace.{Pushes};
ghost use Rattle.record_book.specs.RunState.{grown, next_of};
ghost use Rattle.record_book.specs.Book.{world_now, Appends};
ghost use Rattle.record_book.specs.Exits.{exit_record};
ghost use Rattle.record_book.specs.Counting.{counted_in};
ghost use Rattle.record_book.specs.Refusals.{exit_refusal};
ghost use Rattle.record_book.specs.Ends.{Exits};
ghost use Rattle.record_book.specs.Proved.Planned.{IsPlanned};
ghost use Rattle.record_book.specs.Proved.Prepared.{prepared_for, with_prepared};
ghost use Rattle.record_book.specs.Proved.House.{HasRoom, SameHouse};
ghost use Rattle.record_book.specs.Proved.Leaving.{IsOrphansExit};

use crate::book::Book;
use crate::history::History;
use crate::journal::{House, Journal};
use crate::progress::Progress;
use crate::seat::{Receipt, Seat, SpentSeat};
use byte_ledger::ledgers::Ledgers;
use byte_ledger::tallies::Shares;
use call_types::act::{Act, Record};
use call_types::outcome::{Outcome, Reply};
use call_types::refusal::Refusal;
use posix_model::change::ProcessEdit;
use posix_model::laws::processes_are_counted;
use posix_model::reader::WorldReader;
use slots::numbered::Numbered;
use std::alloc::{AllocError, Global};
use std::marker::Model;
use std::sync::Arc;

/// The record of an act that cannot be refused. It is made before it is due, and shared: once for the history, once for the trace,
/// and once for its receipt. Contracts see the record.
#[derive(Drop)]
pub(crate) struct Prepared {
    kept: Arc<Record>,
    traced: Arc<Record>,
    told: Arc<Record>,
}

impl Model for Prepared {
    ghost use Rattle.std.specs.Prelude.{◌≡◌};
    ghost use Rattle.std.specs.Arc.{arc_value};
    ghost use Rattle.call_types.specs.declared.act.Record.{Record as Records};

    ghost Value = { Records };

    ghost view = { λ p. arc_value p.kept };

    ghost invariant = { λ p. (arc_value p.traced ≡ arc_value p.kept) × (arc_value p.told ≡ arc_value p.kept) };
}

impl Prepared {
    /// The record of an act whose reply is ok.
    pub(crate) fn new(alloc: Global, actor: u32, act: Act) -> Result<Self, AllocError>
        requires short { IsShortRecord (record { actor = actor; act = act; outcome = Replied Done }) }
        ensures { IfOk result (λ p. p ≡ record { actor = actor; act = act; outcome = Replied Done }) }
    {
        let kept = Arc::new(
            alloc,
            Record {
                actor,
                act,
                outcome: Outcome::Reply(Reply::Done),
            },
        )?;
        let traced = kept.clone()?;
        let told = kept.clone()?;
        Ok(Prepared { kept, traced, told })
    }

    /// The share for the history, the one for the trace, and the one for the receipt.
    pub(crate) fn shares(self) -> (Arc<Record>, Arc<Record>, Arc<Record>)
        ensures kept { arc_value result.0 ≡ self }
        ensures traced { arc_value result.1 ≡ self }
        ensures told { arc_value result.2 ≡ self }
    {
        (self.kept, self.traced, self.told)
    }
}

/// Makes room in the house for the receipts of so many exits and of the closing.
fn reserve_house(house: &mut Option<House>, live: usize) -> Result<(), AllocError>
    requires { live < 4294967296 }
    ensures same { SameHouse house.old house.new }
    ensures room { OnOk result (HasRoom live house.new) }
{
    match house {
        Some(house) => house.receipts.reserve(live + 1),
        None => Ok(()),
    }
}

/// Makes what the exit of the next process will need: its record, and room for its receipt.
#[inline(never)]
fn prepare_added(
    alloc: Global,
    exits: &mut Numbered<Prepared>,
    house: &mut Option<House>,
    progress: &Progress,
) -> Result<Prepared, AllocError>
    ensures prepared { IfOk result (λ prepared. prepared ≡ exit_record (next_of progress.now)) }
    ensures exits { exits.new.0 ≡ exits.old.0 }
    ensures room { OnOk result (0 < exits.new.1) }
    ensures house { SameHouse house.old house.new }
    ensures house_room { OnOk result (HasRoom (live progress.now.world.processes + 1) house.new) }
{
    progress.has_reserve();
    let live = progress.machine.live_processes();
    exits.reserve()?;
    reserve_house(house, live + 1)?;
    Prepared::new(alloc, progress.next_pid(), Act::Exit)
}

/// Makes what the exit of a process will need, if the edit adds one.
#[inline(always)]
pub(crate) fn prepare_exit(
    alloc: Global,
    exits: &mut Numbered<Prepared>,
    house: &mut Option<House>,
    progress: &Progress,
    edit: &ProcessEdit,
) -> Result<Option<Prepared>, AllocError>
    ensures prepared { IfOk result (λ prepared. prepared ≡ prepared_for (next_of progress.now) edit.now) }
    ensures exits { exits.new.0 ≡ exits.old.0 }
    ensures room { IfOk result (λ prepared. is_some prepared ≡ true → 0 < exits.new.1) }
    ensures house { SameHouse house.old house.new }
    ensures house_room { IfOk result (λ prepared. is_some prepared ≡ true → HasRoom (live progress.now.world.processes + 1) house.new) }
{
    match edit {
        ProcessEdit::Add { .. } => Ok(Some(prepare_added(alloc, exits, house, progress)?)),
        _ => Ok(None),
    }
}

/// Keeps what was prepared for the next process, if there is one.
#[inline(always)]
pub(crate) fn keep_exit(exits: &mut Numbered<Prepared>, prepared: Option<Prepared>)
    requires { is_some prepared ≡ true → 0 < exits.old.1 }
    ensures { exits.new.0 ≡ with_prepared prepared exits.old.0 }
{
    if let Some(prepared) = prepared {
        exits.push(prepared);
    }
}

/// Ends a process by its prepared record, and returns the receipt.
fn end_by_prepared(
    progress: &mut Progress,
    history: &mut History,
    exits: &mut Numbered<Prepared>,
    process: u32,
) -> Receipt
    requires there { is_some (slot progress.old.world.processes process) ≡ true }
    requires prepared { slot exits.old.0 process ≡ Some (exit_record process) }
    requires room { progress.old.limits.records ≤ progress.old.counts.records + history.old.free }
    ensures planned { IsPlanned progress.old process Act.Exit (exit process) }
    ensures grows { progress.new ≡ grown progress.old (exit_record process) }
    ensures history { Pushes history.old history.new (exit_record process) }
    ensures exits { exits.new.0 ≡ slice_set exits.old.0 process None }
    ensures receipt { result ≡ record { place = length history.old.sent; record_is = exit_record process } }
{
    progress.is_exit_planned(process);
    let place = history.len() as u64;
    let (kept, traced, told) = match exits.remove(process as usize) {
        Some(prepared) => prepared.shares(),
        None => unreachable!(),
    };
    progress.end_process(process);
    history.push(kept, traced);
    Receipt::new(place, told)
}

impl Journal {
    /// Appends the exit of a live process, and returns the receipt.
    pub(crate) fn append_exit(&mut self, process: u32) -> Receipt
        requires { is_some (slot (world_now self.old).processes process) ≡ true }
        ensures appends { Appends self.old self.new process Act.Exit result }
        ensures record_is { result.record_is ≡ exit_record process }
        ensures few { result.place + 1 < 2 ^ 64 }
    {
        self.progress.has_reserve();
        end_by_prepared(
            &mut self.progress,
            &mut self.history,
            &mut self.exits,
            process,
        )
    }

    /// Appends the exit of a live process. The house gets the receipt.
    pub(crate) fn append_orphans_exit(&mut self, process: u32)
        requires there { is_some (slot (world_now self.old).processes process) ≡ true }
        requires is_open { (world_now self.old).closed ≡ false }
        ensures { IsOrphansExit self.old self.new process }
    {
        let receipt = end_by_prepared(
            &mut self.progress,
            &mut self.history,
            &mut self.exits,
            process,
        );
        match &mut self.house {
            Some(house) => house.receipts.push_reserved(receipt),
            None => unreachable!(),
        }
    }
}

/// A seat that an exit gives back, and why.
#[derive(Drop)]
pub struct Unspent<L: Ledgers> {
    pub seat: Seat<L>,
    pub refusal: Refusal,
}

impl<L: Ledgers> Book<L> {
    /// Records the exit of a process, which is live, counts it by the shares of its seat, and returns the receipt.
    fn record_exit(&mut self, process: u32, shares: &mut Shares<L>) -> Receipt
        requires { is_some (slot (world_now self.old).processes process) ≡ true }
        ensures appends { Appends self.old self.new process Act.Exit result }
        ensures record_is { result.record_is ≡ exit_record process }
        ensures counts { shares.new ≡ counted_more 0 0 shares.old }
        ensures few { result.place + 1 < 2 ^ 64 }
    {
        processes_are_counted();
        self.journal.is_run();
        let receipt = self.journal.append_exit(process);
        self.tallies.count(shares, 0, 0);
        receipt
    }

    /// Records the exit of the seat's process, and returns the spent seat, whose last receipt is that of the exit; or gives the
    /// seat back and leaves the book as it was. What the seat counts is part of what the book counts. It takes no memory.
    pub fn exit(&mut self, seat: Seat<L>) -> Result<SpentSeat<L>, Unspent<L>>
        ensures recorded { IfOk result (λ spent. Exits self.old self.new seat spent) }
        ensures not_refused { OnOk result (exit_refusal self.old seat ≡ None) }
        ensures refused { IfErr result (λ unspent. (exit_refusal self.old seat ≡ Some unspent.refusal) × (unspent.seat ≡ seat)) }
        ensures unchanged { OnErr result (self.new ≡ self.old) }
        ensures part { IsPartOf seat.counted (counted_in self.old) }
    {
        let mut seat = seat;
        self.tallies.have_part(&mut seat.shares);
        if let Some(refusal) = self.exit_refusal(&seat) {
            return Err(Unspent { seat, refusal });
        }
        let Seat {
            pid,
            mut receipts,
            mut shares,
            ..
        } = seat;
        let receipt = self.record_exit(pid, &mut shares);
        let seen = receipt.place() + 1;
        receipts.push_reserved(receipt);
        Ok(SpentSeat {
            pid,
            seen,
            receipts,
            shares,
        })
    }
}

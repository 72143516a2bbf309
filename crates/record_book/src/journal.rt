//! A book without what its seats count: the records of a run, and how far they lead.

ghost use Rattle.std.specs.Prelude.{◌≡◌, ◌≤◌, ◌+◌, false, true, None, is_some, length, IfErr, IfOk, OnErr};
ghost use Rattle.std.specs.Arc.{arc_value};
ghost use Rattle.posix_model.specs.History.{legal};
ghost use Rattle.posix_model.specs.Kept.{IsSettled};
ghost use Rattle.posix_model.specs.Reserve.{exits_left};
ghost use Rattle.posix_model.specs.Proved.Lengths.{IsShort, IsShortRecord};
ghost use Rattle.posix_model.specs.Proved.Sound.{ended, closes};
ghost use Rattle.record_book.specs.Book.{new_book, run_of, world_now, Appends};
ghost use Rattle.record_book.specs.Proved.Planned.{IsPlanned};
ghost use Rattle.record_book.specs.Proved.Quiet.{AreQuiet};

use crate::exits::{Prepared, keep_exit, prepare_exit};
use crate::history::History;
use crate::progress::Progress;
use crate::seat::Receipt;
use call_types::act::{Act, HOUSE, Record};
use call_types::limits::{Limits, PROCESSES_MAX};
use posix_model::change::Decided;
use posix_model::laws::records_are_short;
use posix_model::reader::WorldReader;
use slots::numbered::Numbered;
use std::alloc::{AllocError, Global};
use std::marker::Model;
use std::sync::Arc;

/// What the house holds while the run is open: its receipts, which are of exits alone, with room for those of further exits and of the
/// closing, and the record of the closing.
#[derive(Drop)]
pub(crate) struct House {
    pub(crate) receipts: Vec<Receipt>,
    pub(crate) closing: Prepared,
    ghost quiet: { AreQuiet receipts.items },
}

/// The records of a run in order, and how far they lead. Contracts see the same of it as of a book.
#[derive(Drop)]
pub(crate) struct Journal {
    pub(crate) progress: Progress,
    pub(crate) history: History,
    pub(crate) exits: Numbered<Prepared>,
    pub(crate) house: Option<House>,
}

impl Model for Journal {
    ghost use Rattle.record_book.specs.Book.{BookState};

    ghost Value = { BookState };

    ghost use Rattle.record_book.specs.JournalSeen.{state_of};
    ghost use Rattle.record_book.specs.Proved.Inside.{IsJournal};

    ghost view = { state_of };

    ghost invariant = { IsJournal };
}

/// One record, shared four times: for the history, for the trace, and for two receipts.
#[derive(Drop)]
struct SharedRecord {
    item: Arc<Record>,
    traced: Arc<Record>,
    receipt: Receipt,
    shared: Receipt,
}

/// Promises that no field of an act is longer than a call may give it. It does nothing.
fn act_is_short(act: &Act)
    ensures { IsShort act.now }
{
    if let Act::Call(call) = act {
        call.fields_are_short();
    }
}

/// Puts a record where there is memory for it that nobody else has. Else it is given back.
#[inline(always)]
fn filled(blank: Option<Arc<Record>>, entry: Record) -> Result<Arc<Record>, Record>
    ensures item { IfOk result (λ item. arc_value item ≡ entry) }
    ensures back { IfErr result (λ back. back ≡ entry) }
{
    let Some(mut item) = blank else {
        return Err(entry);
    };
    match Arc::get_mut(&mut item) {
        Some(place) => *place = entry,
        None => return Err(entry),
    }
    Ok(item)
}

/// Puts a record into memory that was taken for it, or else allocates it. An error says that memory ran out.
#[inline(always)]
fn kept_in(
    alloc: Global,
    blank: Option<Arc<Record>>,
    entry: Record,
) -> Result<Arc<Record>, AllocError>
    ensures { IfOk result (λ item. arc_value item ≡ entry) }
{
    match filled(blank, entry) {
        Ok(item) => Ok(item),
        Err(entry) => Ok(Arc::new(alloc, entry)?),
    }
}

/// Keeps a record that will stand at this place, and shares it. An error says that memory ran out.
#[inline(always)]
fn shared_at(
    alloc: Global,
    blank: Option<Arc<Record>>,
    place: u64,
    entry: Record,
) -> Result<SharedRecord, AllocError>
    requires short { IsShortRecord entry }
    ensures item { IfOk result (λ s. arc_value s.item ≡ entry) }
    ensures traced { IfOk result (λ s. arc_value s.traced ≡ entry) }
    ensures place { IfOk result (λ s. s.receipt.place ≡ place) }
    ensures receipt { IfOk result (λ s. s.receipt.record_is ≡ entry) }
    ensures shared { IfOk result (λ s. s.shared ≡ s.receipt) }
{
    let item = kept_in(alloc, blank, entry)?;
    let traced = item.clone()?;
    let receipt = Receipt::new(place, item.clone()?);
    let shared = receipt.share()?;
    Ok(SharedRecord {
        item,
        traced,
        receipt,
        shared,
    })
}

/// What is told of a record that was appended: its receipt, twice, and how many bytes it took from its process and gave to its
/// process.
#[derive(Drop)]
pub(crate) struct Appended {
    pub(crate) receipt: Receipt,
    pub(crate) shared: Receipt,
    pub(crate) bytes_in: u64,
    pub(crate) bytes_out: u64,
}

impl Journal {
    /// A journal without records, with room for as many as the limits allow, and with all that the closing of its run will need.
    pub(crate) fn new(alloc: Global, limits: Limits) -> Result<Self, AllocError>
        ensures { IfOk result (λ journal. journal ≡ new_book limits) }
    {
        let records = limits.records();
        let house = House {
            receipts: Vec::with_capacity(alloc, PROCESSES_MAX + 1)?,
            closing: Prepared::new(alloc, HOUSE, Act::CloseRun)?,
        };
        Ok(Journal {
            progress: Progress::new(alloc, limits),
            history: History::new(alloc, records as usize)?,
            exits: Numbered::new(alloc),
            house: Some(house),
        })
    }

    /// Promises that the records are a run of the model, and that enough more are free for the exits and the closing. It does
    /// nothing.
    pub(crate) fn is_run(&self)
        ensures is_legal { legal self.now.limits.bounds self.now.history }
        ensures reserve { length self.now.history + exits_left (world_now self.now) ≤ self.now.limits.records }
        ensures short { length self.now.history + exits_left (world_now self.now) ≤ 1000000 }
    {
        self.progress.has_reserve();
    }

    /// Promises that all that is live is referred to. It does nothing.
    pub(crate) fn is_settled(&self)
        ensures { IsSettled (world_now self.now) }
    {
        self.progress.machine.is_settled();
    }

    /// Promises that the house of an open run holds its receipts. It does nothing.
    pub(crate) fn has_house(&self)
        ensures { (world_now self.now).closed ≡ false → is_some self.now.house ≡ true }
    {
        let _house = &self.house;
    }

    /// Promises that the house of a closed run holds none. It does nothing.
    pub(crate) fn has_no_house(&self)
        ensures { (world_now self.now).closed ≡ true → self.now.house ≡ None }
    {
        let _house = &self.house;
    }

    ghost use Rattle.record_book.specs.Proved.Appended.{TellsMoved};

    /// Makes the change of a planned act, and appends its record, in the memory that was taken for it, if there is some. The act ends no
    /// process and does not close the run. If it adds a process, all that the exit of that process will need is made too. On an error
    /// nothing changes.
    #[inline(always)]
    pub(crate) fn append(
        &mut self,
        alloc: Global,
        blank: Option<Arc<Record>>,
        actor: u32,
        act: Act,
        decided: Decided,
    ) -> Result<Appended, AllocError>
        requires planned { IsPlanned (run_of self.old) actor act decided }
        requires ends { ended act ≡ 0 }
        requires closes { closes act ≡ false }
        ensures appends { IfOk result (λ appended. Appends self.old self.new actor act appended.receipt) }
        ensures moved { IfOk result (λ appended. TellsMoved self.old appended) }
        ensures err { OnErr result (self.new ≡ self.old) }
    {
        act_is_short(&act);
        records_are_short();
        let place = self.history.len() as u64;
        let entry = Record {
            actor,
            act,
            outcome: decided.outcome,
        };
        let made = shared_at(alloc, blank, place, entry)?;
        let prepared = prepare_exit(
            alloc,
            &mut self.exits,
            &mut self.house,
            &self.progress,
            &decided.change.process,
        )?;
        let moved = self.progress.append(&made.item, decided.change)?;
        self.history.push(made.item, made.traced);
        keep_exit(&mut self.exits, prepared);
        Ok(Appended {
            receipt: made.receipt,
            shared: made.shared,
            bytes_in: moved.bytes_in,
            bytes_out: moved.bytes_out,
        })
    }
}

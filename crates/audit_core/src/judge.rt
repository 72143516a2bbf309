//! What judges records one after another, over a machine that is changed in place.

ghost use Rattle.std.specs.Prelude.{◌≡◌, ◌+◌, ◌≤◌, nat_le, Some, IfOk, OnErr};
ghost use Rattle.call_types.specs.declared.limits.TheConstants.{OFFSET_MAX};
ghost use Rattle.posix_model.specs.Step.{given, comes_to, stepped};
ghost use Rattle.posix_model.specs.Reserve.{can_end};
ghost use Rattle.audit_core.specs.Proved.Judging.{fresh_judge, in_world, Judges, CanMake};

use crate::state::Audited;
use crate::verdict::{Ending, ended_by};
use call_types::act::{Act, Record};
use call_types::outcome::Outcome;
use calls::decide::decide;
use calls::given::given;
use frame_codec::trace::ToldLimits;
use machine_state::machine::Machine;
use posix_model::change::Decided;
use posix_model::laws::{acts_are_sound, numbers_rise};
use posix_model::reader::WorldReader;
use std::alloc::{AllocError, Global};
use std::marker::Model;

/// A judge of records: the machine that those so far led to, what is told of their run, how many they were and how they end. It keeps
/// none of them.
#[derive(Drop)]
pub struct Judge {
    state: Audited,
    told: ToldLimits,
    place: u64,
    ending: Ending,
}

impl Model for Judge {
    ghost use Rattle.audit_core.specs.JudgeState.{JudgeState};

    ghost Value = { JudgeState };

    ghost use Rattle.audit_core.specs.JudgeSeen.{state_of};
    ghost use Rattle.audit_core.specs.Proved.Inside.{IsJudge};

    ghost view = { state_of };

    ghost invariant = { IsJudge };
}

/// What is said of a record.
#[derive(Drop)]
pub enum Judged {
    /// It is what the model gives.
    Same,
    /// The model gives another outcome of its act, or none: the rules record nothing there, or the run could not be ended after it.
    Differs { expected: Option<Outcome> },
}

/// Whether a run that may have so many records has enough of them left for the exits of these processes and for so many closings, after
/// one record more than these.
fn has_reserve(most: u32, records: u64, live: u64, closings: u64) -> bool
    ensures { result ≡ nat_le (((records + 1) + live) + closings) most }
{
    let taken = records.saturating_add(1).saturating_add(live);
    taken.saturating_add(closings) <= u64::from(most)
}

impl Judge {
    /// A judge before the first record of a run of which this is told. It takes no memory.
    pub fn new(alloc: Global, told: ToldLimits) -> Self
        requires { told.bounds.file_size ≤ OFFSET_MAX }
        ensures { result ≡ fresh_judge told }
    {
        Judge {
            state: Audited {
                machine: Machine::new(alloc, told.bounds.pipe_capacity as usize),
            },
            told,
            place: 0,
            ending: Ending::Open,
        }
    }

    /// How many records agreed with the model so far: the place of the next one. It stops at `u64::MAX`.
    pub fn place(&self) -> u64
        ensures { result ≡ self.now.place }
    {
        self.place
    }

    /// How the records end that agreed with the model so far.
    pub fn ending(&self) -> Ending
        ensures { result ≡ self.now.ending }
    {
        self.ending
    }

    /// What an act comes to, or nothing where the rules record none. An error says that memory ran out.
    fn comes_to(&self, alloc: Global, actor: u32, act: &Act) -> Result<Option<Decided>, AllocError>
        ensures { IfOk result (λ d. d ≡ comes_to self.now.told.bounds self.now.world actor act.now) }
    {
        decide(&self.state, alloc, self.told.bounds, actor as usize, act)
    }

    /// What an act comes to can be made. It does nothing.
    fn can_make(&self, actor: u32, act: &Act, decided: &Decided)
        requires { comes_to self.now.told.bounds self.now.world actor act.now ≡ Some decided.now }
        ensures { CanMake self.now act.now decided.now }
    {
        let _actor = actor;
        let _act = act;
        let _decided = decided;
        let _machine = &self.state.machine;
        numbers_rise();
        acts_are_sound();
    }

    /// Makes what an act comes to. An error says that memory ran out, or that the machine has no number left for what is new: all is as
    /// it was.
    fn make(&mut self, act: &Act, decided: Decided) -> Result<(), AllocError>
        requires { CanMake self.old act.now decided }
        ensures ok { IfOk result (λ _. self.new ≡ in_world self.old (stepped self.old.world (given act.now) decided).world) }
        ensures err { OnErr result (self.new ≡ self.old) }
    {
        self.state.machine.reserve_for(&decided.change)?;
        self.state.machine.apply(given(act), decided.change);
        Ok(())
    }

    /// Whether the run can be ended after one record more, which led to the world as it is.
    fn can_end(&self) -> bool
        ensures { result ≡ can_end self.now.told.records self.now.world (self.now.place + 1) }
    {
        let Some(most) = self.told.records else {
            return true;
        };
        let live = self.state.machine.live_processes() as u64;
        let closing = if self.state.machine.is_closed() { 0 } else { 1 };
        has_reserve(most, self.place, live, closing)
    }

    /// Judges the next record. An error says that memory ran out, or that the machine has no number left for what is new: all is as it
    /// was, and the record can be judged again.
    pub fn judge(&mut self, alloc: Global, told: &Record) -> Result<Judged, AllocError>
        ensures judged { IfOk result (λ judged. Judges self.old self.new told.now judged) }
        ensures err { OnErr result (self.new ≡ self.old) }
    {
        // A match, since `?` would move what was decided once more.
        let decided = match self.comes_to(alloc, told.actor, &told.act) {
            Ok(Some(decided)) => decided,
            Ok(None) => return Ok(Judged::Differs { expected: None }),
            Err(error) => return Err(error),
        };
        if !decided.outcome.is_same(&told.outcome) {
            return Ok(Judged::Differs {
                expected: Some(decided.outcome),
            });
        }
        self.can_make(told.actor, &told.act, &decided);
        self.make(&told.act, decided)?;
        if !self.can_end() {
            return Ok(Judged::Differs { expected: None });
        }
        self.place = self.place.saturating_add(1);
        self.ending = ended_by(&told.act);
        Ok(Judged::Same)
    }
}

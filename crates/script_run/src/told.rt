ghost use Rattle.std.specs.Prelude.{◌≡◌};

use call_types::act::{Record, ScriptAct};
use call_types::refusal::Refusal;
use std::marker::Model;

/// A record of a run, with its place, counted from 0. Contracts see the two.
#[derive(Drop)]
pub struct Told {
    place: u64,
    item: Record,
}

impl Model for Told {
    ghost use Rattle.record_book.specs.Seat.{Receipted};

    ghost Value = { Receipted };

    ghost view = { λ t. record { place = t.place; record_is = t.item } };
}

impl Told {
    #[inline(always)]
    pub(crate) fn new(place: u64, item: Record) -> Self
        ensures { result ≡ record { place = place; record_is = item } }
    {
        Told { place, item }
    }

    /// The record's place in the run.
    pub fn place(&self) -> u64
        ensures { result ≡ self.now.place }
    {
        self.place
    }

    /// The record.
    pub fn record(&self) -> &Record
        ensures { result.now ≡ self.now.record_is }
    {
        &self.item
    }
}

/// What is told of an act of a script.
#[derive(Drop)]
pub enum ScriptAnswer {
    /// Its record.
    Recorded(Told),
    /// All records that a closing made.
    Closed(Vec<Told>),
    /// Nothing was recorded: the run to be closed is closed already, or the process to be resumed waits in no call that is ready.
    Still {
        actor: u32,
        act: ScriptAct,
    },
    /// The act was refused, and why. The actor is the process whose act it was, or would have been.
    Refused {
        actor: u32,
        act: ScriptAct,
        refusal: Refusal,
    },
}

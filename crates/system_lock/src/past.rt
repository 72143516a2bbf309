//! The records of a run so far, as its history has them.

ghost use Rattle.std.specs.Prelude.{◌≡◌, ◌∷◌, ◌++◌, []};
ghost use Rattle.run_history.specs.Fronts.{Grows};

use call_types::act::Record;
use call_types::limits::RECORDS_MAX;
use run_history::front::{Begun, Front, History, OfHistory};
use std::marker::Model;
use std::sync::Wait;
use std::thread;

/// All records of a run so far. Only who holds it adds to the history of the run. Contracts see the records.
#[derive(Drop)]
pub(crate) struct Past<H: OfHistory> {
    history: History<H>,
    front: Front<H>,
}

impl<H: OfHistory> Model for Past<H> {
    ghost use Rattle.std.specs.Prelude.{List};
    ghost use Rattle.call_types.specs.declared.act.Record.{Record};

    ghost Value = { List Record };

    ghost view = { λ p. p.front };
}

impl<H: OfHistory> Past<H> {
    /// No record yet.
    pub(crate) fn new(begun: Begun) -> Self
        requires { begun.seen.book ≡ H.book }
        ensures { result ≡ [] }
    {
        let (history, front) = begun.named::<H>();
        Past { history, front }
    }

    /// The front that has all of them.
    pub(crate) fn front(&self) -> &Front<H>
        ensures { result.now ≡ self.now }
    {
        &self.front
    }

    /// Sees that it has all records of a front. It waits for ever where it has not: that does not happen, since nobody else adds to the
    /// history.
    pub(crate) fn has_all_of<Rt: Wait>(&self, rt: &Rt, front: &Front<H>)
        ensures { Grows front.now self.now }
    {
        if self.front.covers(front) {
            return;
        }
        for _ in rt.forever() {
            thread::yield_now();
        }
        unreachable!()
    }

    /// Adds a record. It waits for ever where the history has another one at this place, or as many as a run may have: neither happens,
    /// since nobody else adds to it.
    pub(crate) fn add<Rt: Wait>(&mut self, rt: &Rt, told: &Record)
        ensures { self.new ≡ self.old ++ told.now ∷ [] }
    {
        if self.front.len() < RECORDS_MAX && self.front.add(&self.history, told) {
            return;
        }
        for _ in rt.forever() {
            thread::yield_now();
        }
        unreachable!()
    }
}

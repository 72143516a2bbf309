//! A run of sessions as a type.

use byte_ledger::ledgers::{Blanks, Ledgers};
use run_history::front::{Begun, OfHistory};
use std::marker::{Brand, Model};

/// A run as a type: the names of its ledgers and of its history, and its limits. What belongs to one run does not fit another.
pub trait Run: Ledgers + OfHistory {}

impl Run for Brand {}

/// New ledgers and a history without records, which no type stands for yet. Contracts see what they are called.
#[derive(Drop)]
pub struct NewRun {
    pub(crate) blanks: Blanks,
    pub(crate) begun: Begun,
}

impl Model for NewRun {
    ghost use Rattle.system_lock.specs.System.{RunNames};

    ghost Value = { RunNames };

    ghost view = { λ r. record { names = r.blanks; book = r.begun.seen.book } };
}

impl NewRun {
    /// New ledgers and a new history.
    pub fn new() -> Self {
        NewRun {
            blanks: Blanks::new(),
            begun: Begun::new(),
        }
    }
}

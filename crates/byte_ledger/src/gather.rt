//! The shares of a tally, brought together one after another, which takes no memory.

ghost use Rattle.std.specs.Prelude.{◌≡◌, ◌+◌, ◌<◌, IfOk, IfErr, OnOk};
ghost use Rattle.byte_ledger.specs.Tally.{Misses};
ghost use Rattle.byte_ledger.specs.Merged.{MergedState};

use crate::tally::{Share, Tally};
use std::marker::Model;
use std::sync::ledger;
use std::sync::ledger::{Book, Ledger};

/// Some shares are missing.
#[derive(Clone, Copy, Debug, PartialEq, Eq)]
pub struct Missing {
    /// How many are there.
    pub held: u64,
    /// How many were opened.
    pub opened: u64,
}

/// A tally, and those of its shares that are brought together. Contracts see the tally, how many shares these are, and their sum.
#[derive(Drop)]
pub(crate) struct Merged<L: Ledger> {
    book: Book<L>,
    total: u64,
    opened: u64,
    /// The part that no share was opened for, and all shares so far.
    all: ledger::Share<L>,
    held: u64,
}

impl<L: Ledger> Model for Merged<L> {
    ghost use Rattle.std.specs.Prelude.{◌≡◌, ◌+◌, ◌≤◌};
    ghost use Rattle.byte_ledger.specs.Merged.{MergedState};

    ghost Value = { MergedState };

    ghost view = { λ m. record { tally = record { total = m.total; opened = m.opened }; held = m.held; sum = m.all.amount } };

    ghost invariant = { λ m. (m.total ≡ m.book.total) × (m.all.parts + m.opened ≡ 1000001 + m.held) × (m.all.parts ≤ 1000001) };
}

impl<L: Ledger> Merged<L> {
    /// No share yet.
    pub(crate) fn of(tally: Tally<L>) -> Self
        ensures { result ≡ record { tally = tally; held = 0; sum = 0 } }
    {
        let Tally {
            book,
            unopened,
            total,
            opened,
        } = tally;
        Merged {
            book,
            total,
            opened,
            all: unopened,
            held: 0,
        }
    }

    /// Brings one share more to the others.
    pub(crate) fn merge(&mut self, share: Share<L>)
        requires { L.parts ≡ 1000001 }
        ensures { self.new ≡ record self.old { held = self.old.held + 1; sum = self.old.sum + share } }
    {
        let Share { mark, amount: _ } = share;
        self.all.merge(mark);
        self.held += 1;
    }

    /// The sum of all shares of the tally, which is the tally's own; or that some are missing.
    pub(crate) fn sum(self) -> Result<u64, Missing>
        requires { L.parts ≡ 1000001 }
        ensures sum { IfOk result (λ total. total ≡ self.sum) }
        ensures total { IfOk result (λ total. total ≡ self.tally.total) }
        ensures all { OnOk result (self.held ≡ self.tally.opened) }
        ensures missing { IfErr result (Misses self.tally.opened self.held) }
    {
        let Merged {
            mut book,
            total,
            opened,
            mut all,
            held,
        } = self;
        if held < opened {
            return Err(Missing { held, opened });
        }
        book.audit(&mut all);
        Ok(total)
    }
}

ghost use Rattle.std.specs.Prelude.{◌≡◌, ◌+◌, ◌^◌, ◌<◌, ◌≤◌};
ghost use Rattle.byte_ledger.specs.Tally.{TallyState};

use std::marker::Model;
use std::sync::ledger;
use std::sync::ledger::{Blank, Book, Ledger};

/// How many parts the ledger of a tally has: one for each of at most 1,000,000 shares, and one that stays with the tally.
pub const PARTS: u64 = 1_000_001;

/// A sum, and how many shares of it were opened. Its type names its ledger, so a share of another tally does not fit.
#[derive(Drop)]
pub struct Tally<L: Ledger> {
    pub(crate) book: Book<L>,
    pub(crate) unopened: ledger::Share<L>,
    pub(crate) total: u64,
    pub(crate) opened: u64,
}

impl<L: Ledger> Model for Tally<L> {
    ghost use Rattle.std.specs.Prelude.{◌≡◌, ◌+◌};
    ghost use Rattle.byte_ledger.specs.Tally.{TallyState};

    ghost Value = { TallyState };

    ghost view = { λ t. record { total = t.total; opened = t.opened } };

    ghost invariant = { λ t. (t.total ≡ t.book.total) × (t.unopened.amount ≡ 0) × (t.unopened.parts + t.opened ≡ 1000001) };
}

/// What was added to a tally through one share. It can be moved to another thread, and is counted when all are gathered.
#[derive(Drop)]
pub struct Share<L: Ledger> {
    pub(crate) mark: ledger::Share<L>,
    pub(crate) amount: u64,
}

impl<L: Ledger> Model for Share<L> {
    ghost use Rattle.std.specs.Prelude.{◌≡◌, ℕ};

    ghost Value = { ℕ };

    ghost view = { λ s. s.amount };

    ghost invariant = { λ s. (s.mark.parts ≡ 1) × (s.mark.amount ≡ s.amount) };
}

impl<L: Ledger> Tally<L> {
    /// A tally of nothing, on a ledger of `PARTS` parts.
    pub fn new(blank: Blank) -> Self
        requires name { blank.name ≡ L.name }
        requires parts { blank.parts ≡ L.parts }
        requires all { blank.parts ≡ 1000001 }
        ensures { result ≡ record { total = 0; opened = 0 } }
    {
        let (book, unopened) = blank.open::<L>();
        Tally {
            book,
            unopened,
            total: 0,
            opened: 0,
        }
    }

    /// The sum of all that was added.
    pub fn total(&self) -> u64
        ensures { result ≡ self.now.total }
    {
        self.total
    }

    /// One share more, with nothing added.
    pub fn open_share(&mut self) -> Share<L>
        requires { self.old.opened < 1000000 }
        ensures opens { self.new ≡ record self.old { opened = self.old.opened + 1 } }
        ensures empty { result ≡ 0 }
    {
        self.opened += 1;
        Share {
            mark: self.unopened.split_off(1, 0),
            amount: 0,
        }
    }

    /// Promises that what was added through a share of this tally is part of its sum. It does nothing.
    pub fn has_part(&mut self, share: &mut Share<L>)
        ensures part { share.old ≤ self.old.total }
        ensures same { (self.new ≡ self.old) × (share.new ≡ share.old) }
    {
        self.book.audit(&mut share.mark);
    }

    /// Adds an amount, through a share of this tally.
    pub fn add(&mut self, share: &mut Share<L>, amount: u64)
        requires { self.old.total + amount < 2 ^ 64 }
        ensures total { self.new ≡ record self.old { total = self.old.total + amount } }
        ensures share { share.new ≡ share.old + amount }
    {
        self.has_part(share);
        self.book.add(&mut share.mark, amount);
        self.total += amount;
        share.amount += amount;
    }
}

//! The three tallies of a run, and the shares of each who adds to them.

ghost use Rattle.std.specs.Prelude.{◌≡◌, ◌<◌, ◌+◌, ◌^◌, map, sum, length, IfOk, IfErr, OnOk};
ghost use Rattle.byte_ledger.specs.Counted.{counted_more, IsPartOf};
ghost use Rattle.byte_ledger.specs.Tally.{Misses};

use crate::gather::{Merged, Missing};
use crate::ledgers::{Blanks, BytesIn, BytesOut, Ledgers, Records};
use crate::tally::{Share, Tally};
use std::marker::Model;

/// How many records were counted, and how many bytes in and out.
#[derive(Clone, Copy, Debug, PartialEq, Eq)]
pub struct Sums {
    pub records: u64,
    pub bytes_in: u64,
    pub bytes_out: u64,
}

/// What was counted through one holder: its records, and the bytes that they took and gave. It can be moved to another thread.
#[derive(Drop)]
pub struct Shares<L: Ledgers> {
    records: Share<Records<L>>,
    bytes_in: Share<BytesIn<L>>,
    bytes_out: Share<BytesOut<L>>,
}

impl<L: Ledgers> Model for Shares<L> {
    ghost use Rattle.byte_ledger.specs.Counted.{Counted};

    ghost Value = { Counted };

    ghost view = { λ s. record { records = s.records; bytes_in = s.bytes_in; bytes_out = s.bytes_out } };
}

/// The records of a run and the bytes that they took and gave, all that was counted through all shares.
#[derive(Drop)]
pub struct Tallies<L: Ledgers> {
    records: Tally<Records<L>>,
    bytes_in: Tally<BytesIn<L>>,
    bytes_out: Tally<BytesOut<L>>,
}

impl<L: Ledgers> Model for Tallies<L> {
    ghost use Rattle.std.specs.Prelude.{◌≡◌};
    ghost use Rattle.byte_ledger.specs.Counted.{TalliesState};

    ghost Value = { TalliesState };

    ghost view = { λ t. record { opened = t.records.opened; counted = record { records = t.records.total; bytes_in = t.bytes_in.total; bytes_out = t.bytes_out.total } } };

    ghost invariant = { λ t. (t.bytes_in.opened ≡ t.records.opened) × (t.bytes_out.opened ≡ t.records.opened) };
}

impl<L: Ledgers> Tallies<L> {
    /// Tallies of nothing, on these ledgers.
    pub fn new(blanks: Blanks) -> Self
        requires { blanks ≡ L.names }
        ensures { result ≡ record { opened = 0; counted = record { records = 0; bytes_in = 0; bytes_out = 0 } } }
    {
        Tallies {
            records: Tally::new(blanks.records),
            bytes_in: Tally::new(blanks.bytes_in),
            bytes_out: Tally::new(blanks.bytes_out),
        }
    }

    /// All that was counted.
    pub fn sums(&self) -> Sums
        ensures records { result.records ≡ self.now.counted.records }
        ensures bytes_in { result.bytes_in ≡ self.now.counted.bytes_in }
        ensures bytes_out { result.bytes_out ≡ self.now.counted.bytes_out }
    {
        Sums {
            records: self.records.total(),
            bytes_in: self.bytes_in.total(),
            bytes_out: self.bytes_out.total(),
        }
    }

    /// How many holders have shares.
    pub fn opened(&self) -> u64
        ensures { result ≡ self.now.opened }
    {
        self.records.opened
    }

    /// Shares for one holder more, who has counted nothing.
    pub fn open_shares(&mut self) -> Shares<L>
        requires { self.old.opened < 1000000 }
        ensures opens { self.new ≡ record self.old { opened = self.old.opened + 1 } }
        ensures empty { result ≡ record { records = 0; bytes_in = 0; bytes_out = 0 } }
    {
        Shares {
            records: self.records.open_share(),
            bytes_in: self.bytes_in.open_share(),
            bytes_out: self.bytes_out.open_share(),
        }
    }

    /// Promises that what one holder counted is part of what these tallies counted. It does nothing.
    pub fn have_part(&mut self, shares: &mut Shares<L>)
        ensures part { IsPartOf shares.old self.old.counted }
        ensures same { (self.new ≡ self.old) × (shares.new ≡ shares.old) }
    {
        self.records.has_part(&mut shares.records);
        self.bytes_in.has_part(&mut shares.bytes_in);
        self.bytes_out.has_part(&mut shares.bytes_out);
    }

    /// Counts one record, and the bytes that it took and gave, through shares of these tallies.
    pub fn count(&mut self, shares: &mut Shares<L>, bytes_in: u64, bytes_out: u64)
        requires records { self.old.counted.records + 1 < 2 ^ 64 }
        requires bytes_in { self.old.counted.bytes_in + bytes_in < 2 ^ 64 }
        requires bytes_out { self.old.counted.bytes_out + bytes_out < 2 ^ 64 }
        ensures tallies { self.new ≡ record self.old { counted = counted_more bytes_in bytes_out self.old.counted } }
        ensures shares { shares.new ≡ counted_more bytes_in bytes_out shares.old }
    {
        self.records.add(&mut shares.records, 1);
        self.bytes_in.add(&mut shares.bytes_in, bytes_in);
        self.bytes_out.add(&mut shares.bytes_out, bytes_out);
    }

    /// The sums of all shares that were opened, which are those of the tallies; or that some are missing. It takes no memory.
    pub fn gather(self, shares: Vec<Shares<L>>) -> Result<Sums, Missing>
        ensures records { IfOk result (λ sums. sums.records ≡ sum (map (λ s. s.records) shares.items)) }
        ensures bytes_in { IfOk result (λ sums. sums.bytes_in ≡ sum (map (λ s. s.bytes_in) shares.items)) }
        ensures bytes_out { IfOk result (λ sums. sums.bytes_out ≡ sum (map (λ s. s.bytes_out) shares.items)) }
        ensures counted { IfOk result (λ sums. record { records = sums.records; bytes_in = sums.bytes_in; bytes_out = sums.bytes_out } ≡ self.counted) }
        ensures all { OnOk result (length shares.items ≡ self.opened) }
        ensures missing { IfErr result (Misses self.opened (length shares.items)) }
    {
        let mut records = Merged::of(self.records);
        let mut bytes_in = Merged::of(self.bytes_in);
        let mut bytes_out = Merged::of(self.bytes_out);
        for held in shares {
            records.merge(held.records);
            bytes_in.merge(held.bytes_in);
            bytes_out.merge(held.bytes_out);
        }
        Ok(Sums {
            records: records.sum()?,
            bytes_in: bytes_in.sum()?,
            bytes_out: bytes_out.sum()?,
        })
    }
}

//! The ledgers of a run: one for its records, one for the bytes that it took and one for those that it gave.

use crate::tally::PARTS;
use std::marker::{Brand, Model, PhantomData};
use std::sync::ledger::{Blank, Ledger};

/// A run as a type: the names of its three ledgers, and its limits, if it has any. What belongs to one run does not fit
/// another.
pub trait Ledgers {
    ghost use Rattle.std.specs.Prelude.{Option};
    ghost use Rattle.byte_ledger.specs.Counted.{Names};
    ghost use Rattle.call_types.specs.declared.limits.Limits.{Limits};

    ghost names: { Names };

    ghost limits: { Option Limits };
}

impl Ledgers for Brand {
    ghost use Rattle.std.specs.Prelude.{None};

    ghost limits = { None };

    ghost names = { record { records = 0; bytes_in = 0; bytes_out = 0 } };
}

/// The ledger of the records of a run.
pub struct Records<L: Ledgers> {
    run: PhantomData<L>,
}

impl<L: Ledgers> Ledger for Records<L> {
    ghost name = { L.names.records };

    ghost parts = { 1000001 };
}

/// The ledger of the bytes that a run took.
pub struct BytesIn<L: Ledgers> {
    run: PhantomData<L>,
}

impl<L: Ledgers> Ledger for BytesIn<L> {
    ghost name = { L.names.bytes_in };

    ghost parts = { 1000001 };
}

/// The ledger of the bytes that a run gave.
pub struct BytesOut<L: Ledgers> {
    run: PhantomData<L>,
}

impl<L: Ledgers> Ledger for BytesOut<L> {
    ghost name = { L.names.bytes_out };

    ghost parts = { 1000001 };
}

/// Three new ledgers, which no type stands for yet. Contracts see what they are called.
#[derive(Drop)]
pub struct Blanks {
    pub(crate) records: Blank,
    pub(crate) bytes_in: Blank,
    pub(crate) bytes_out: Blank,
}

impl Model for Blanks {
    ghost use Rattle.std.specs.Prelude.{◌≡◌};
    ghost use Rattle.byte_ledger.specs.Counted.{Names};

    ghost Value = { Names };

    ghost view = { λ b. record { records = b.records.name; bytes_in = b.bytes_in.name; bytes_out = b.bytes_out.name } };

    ghost invariant = { λ b. (b.records.parts ≡ 1000001) × (b.bytes_in.parts ≡ 1000001) × (b.bytes_out.parts ≡ 1000001) };
}

impl Blanks {
    /// Three new ledgers.
    pub fn new() -> Self {
        Blanks {
            records: Blank::new(PARTS),
            bytes_in: Blank::new(PARTS),
            bytes_out: Blank::new(PARTS),
        }
    }
}

//! The first records of a history, as far as somebody knows them.

ghost use Rattle.std.specs.Prelude.{◌≡◌, ◌+◌, ◌<◌, ◌^◌, ◌++◌, ◌∷◌, [], length, MatchBool};
ghost use mathlib.Core.List.{IsPrefix};
ghost use Rattle.run_history.specs.Fronts.{GoesOn, Grows};
ghost use Rattle.run_history.specs.Law.{word_of};

use crate::law::{AddsOne, CountsAll, NoGain};
use call_types::act::Record;
use logbook::{Offer, Seen, Start, Word};
use std::marker::{Brand, Model, PhantomData};

/// A history as a type: the name of its book. What belongs to one history does not fit another.
pub trait OfHistory {
    ghost use Rattle.logbook.specs.Pages.{Book};

    ghost book: { Book };
}

impl OfHistory for Brand {
    ghost book = { record { number = 0; log_name = 0; cells_name = 0 } };
}

/// A history without records that no type names yet.
#[derive(Drop)]
pub struct Begun {
    word: Word<Record, u64, CountsAll>,
    seen: Seen<Record, u64, CountsAll>,
    pub ghost none: { seen.log ≡ [] },
    pub ghost word_is: { word ≡ word_of seen.book },
}

impl Begun {
    /// A new history.
    pub fn new() -> Begun {
        let (seen, mut pen, _other) = Seen::open(Start::alone(), 0, 0);
        Begun {
            word: Word::tracked(0, &mut pen),
            seen,
        }
    }

    /// The same history under the name of its book, and its front of no records.
    pub fn named<H: OfHistory>(self) -> (History<H>, Front<H>)
        requires { self.seen.book ≡ H.book }
        ensures { result.1 ≡ [] }
    {
        let Begun { word, seen } = self;
        (
            History {
                word,
                of: PhantomData,
            },
            Front {
                records: 0,
                seen,
                of: PhantomData,
            },
        )
    }
}

/// The history of a run. It is kept in the proofs alone: at run time it is a word, the number of its records.
#[derive(Drop)]
pub struct History<H: OfHistory> {
    word: Word<Record, u64, CountsAll>,
    of: PhantomData<H>,
    ghost word_is: { word ≡ word_of H.book },
}

/// The first records of a history. Contracts see these records; at run time it is how many they are. Of two fronts of one history
/// the shorter begins the longer.
#[derive(Drop)]
pub struct Front<H: OfHistory> {
    records: u64,
    seen: Seen<Record, u64, CountsAll>,
    of: PhantomData<H>,
}

impl<H: OfHistory> Model for Front<H> {
    ghost use Rattle.std.specs.Prelude.{◌≡◌, List, length};
    ghost use Rattle.call_types.specs.declared.act.Record.{Record};

    ghost Value = { List Record };

    ghost view = { λ f. f.seen.log };

    ghost invariant = { λ f. (f.records ≡ length f.seen.log) × (f.seen.book ≡ H.book) };
}

impl<H: OfHistory> Front<H> {
    /// How many records it has.
    pub fn len(&self) -> u64
        ensures { result ≡ length self.now }
    {
        self.records
    }

    /// The same records once more.
    pub fn again(&self) -> Front<H>
        ensures { result ≡ self.now }
    {
        Front {
            records: self.records,
            seen: self.seen.again(),
            of: PhantomData,
        }
    }

    /// Whether it has all records of another front. If not, the other one has its records, and more.
    pub fn covers(&self, other: &Front<H>) -> bool
        ensures { MatchBool result (Grows other.now self.now) (GoesOn self.now other.now) }
    {
        let mut both = self.seen.again();
        both.learn(&other.seen);
        if self.records < other.records {
            return false;
        }
        true
    }

    /// Takes over what another front has more than this one.
    #[tactic(auto, using(crate::proofs::Prefixes::grown))]
    pub fn catch_up(&mut self, other: &Front<H>)
        ensures own { Grows self.old self.new }
        ensures others { Grows other.now self.new }
    {
        if !self.covers(other) {
            *self = other.again();
        }
    }

    /// Adds a record to the history where that has no more than this front, and says whether it did. Either way the front has all
    /// records of the history then.
    pub fn add(&mut self, history: &History<H>, told: &Record) -> bool
        requires { length self.old < 2 ^ 62 }
        ensures { MatchBool result (self.new ≡ self.old ++ told.now ∷ []) (GoesOn self.old self.new) }
    {
        let mut offer: Offer<Record, u64, CountsAll, NoGain> = self
            .seen
            .plain::<NoGain, Record, AddsOne>(told);
        let mut pen = self.seen.no_pen();
        let known = self.records;
        let found = history
            .word
            .compare_exchange::<AddsOne, NoGain>(
                known,
                known + 1,
                &mut self.seen,
                &mut offer,
                &mut pen,
            );
        let is_added = found == known;
        self.records = if is_added { known + 1 } else { found };
        is_added
    }
}

//! Lists in which an element is found again by its key. Nothing is promised of where is looked, but that what is found has the key.

ghost use Rattle.std.specs.Prelude.{◌≡◌, ◌++◌, ◌∷◌, [], true, length, option_copied, IfSome, IfOk, OnOk, OnErr};
ghost use Rattle.std.specs.List.{slice_get};
ghost use Rattle.race_outcomes.specs.Tables.{StandsAt};

use script_text::row::Row;
use std::alloc::{AllocError, Global};
use std::marker::Model;

/// How many chains there are.
const CHAINS: usize = 1 << 20;

/// No place.
const NOWHERE: u32 = u32::MAX;

/// What is found by a key.
pub trait Entry<K> {
    ghost key: { Self → K };

    /// Whether this has the key that is sought. No says nothing.
    fn has(&self, alloc: Global, sought: &K) -> bool
        ensures { result ≡ true → key self.now ≡ sought.now };

    /// A number that is made of a key. Nothing is promised of it.
    fn digest(alloc: Global, sought: &K) -> u64;
}

/// Chains of places, by a number that is made of the key at each.
#[derive(Drop)]
struct Index {
    /// The last place of each chain.
    heads: Vec<u32>,
    /// Of each place the one before it in its chain.
    before: Vec<u32>,
}

impl Index {
    /// No place.
    fn new(alloc: Global) -> Result<Self, AllocError> {
        Ok(Index {
            heads: vec![in alloc; NOWHERE; CHAINS]?,
            before: Vec::new(alloc),
        })
    }

    /// Adds the next place, at which a key with this digest stands.
    fn add(&mut self, digest: u64, place: usize) -> Result<(), AllocError> {
        if let Some(head) = self.heads.get_mut(digest as usize % CHAINS) {
            self.before.push(*head)?;
            if place < NOWHERE as usize {
                *head = place as u32;
            }
        }
        Ok(())
    }

    /// The last place of the chain of a digest.
    fn last(&self, digest: u64) -> u32 {
        match self.heads.get(digest as usize % CHAINS) {
            Some(head) => *head,
            None => NOWHERE,
        }
    }

    /// The place before one in its chain.
    fn before(&self, place: u32) -> u32 {
        match self.before.get(place as usize) {
            Some(before) => *before,
            None => NOWHERE,
        }
    }
}

/// A list whose elements are found by their keys. Contracts see the list.
#[derive(Drop)]
pub struct Table<T> {
    items: Row<T>,
    index: Index,
}

impl<T> Model for Table<T> {
    ghost use Rattle.std.specs.Prelude.{List};

    ghost Value = { List T };

    ghost view = { λ table. table.items };
}

impl<T: Drop> Table<T> {
    /// Nothing.
    pub fn new(alloc: Global) -> Result<Self, AllocError>
        ensures { IfOk result (λ table. table ≡ []) }
    {
        Ok(Table {
            items: Row::new(alloc),
            index: Index::new(alloc)?,
        })
    }

    /// How many there are.
    pub fn len(&self) -> usize
        ensures { result ≡ length self.now }
    {
        self.items.len()
    }

    /// What stands at a place.
    pub fn get(&self, place: usize) -> Option<&T>
        ensures { option_copied result ≡ slice_get self.now place }
    {
        self.items.get(place)
    }

    /// The list alone.
    pub fn into_row(self) -> Row<T>
        ensures { result ≡ self }
    {
        self.items
    }

    /// A place where the key stands that is sought. None says nothing.
    pub fn find<K>(&self, alloc: Global, sought: &K, digest: u64) -> Option<usize>
    where
        T: Entry<K>,
        ensures { IfSome result (StandsAt T.key self.now sought.now) }
    {
        let mut place = self.index.last(digest);
        for _ in 0..self.items.len() {
            match self.items.get(place as usize) {
                Some(item) => {
                    if item.has(alloc, sought) {
                        return Some(place as usize);
                    }
                }
                None => return None,
            }
            place = self.index.before(place);
        }
        None
    }

    /// One more at the end, whose key has this digest. An error says that memory ran out, and that nothing changed.
    pub fn add(&mut self, digest: u64, item: T) -> Result<(), AllocError>
        ensures ok { OnOk result (self.new ≡ self.old ++ item ∷ []) }
        ensures err { OnErr result (self.new ≡ self.old) }
    {
        self.index.add(digest, self.items.len())?;
        self.items.push(item)?;
        Ok(())
    }
}

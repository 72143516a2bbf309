ghost use Rattle.std.specs.Prelude.{◌≡◌, ◌∷◌, [], ◌++◌, List, Option, length, replicate, slice_set, IfOk, OnOk, OnErr, None, option_copied, if◌then◌else◌};
ghost use Rattle.slots.specs.Slots.{slot, lowest, live};

use crate::ticket::Ticket;
use std::alloc::{AllocError, Global};
use std::marker::Model;
use std::mem;

/// Numbered slots: the position of a value is its number, and a slot that is `None` is gone for good or free.
/// Contracts see the list of the slots.
#[derive(Drop)]
pub struct Slots<T> {
    items: Vec<Option<T>>,
}

impl<T> Model for Slots<T> {
    ghost Value = { List (Option T) };

    ghost view = { λ slots. slots.items.items };
}

impl<T> Slots<T> {
    /// No slot at all.
    pub fn new(alloc: Global) -> Self
        ensures { result ≡ [] }
    {
        Slots {
            items: Vec::new(alloc),
        }
    }

    /// How many slots there are, full or not.
    pub fn len(&self) -> usize
        ensures { result ≡ length self.now }
    {
        self.items.len()
    }

    /// What stands at a number.
    pub fn get(&self, number: usize) -> Option<&T>
        ensures { option_copied result ≡ slot self.now number }
    {
        match self.items.get(number) {
            Some(slot) => slot.as_ref(),
            None => None,
        }
    }

    /// All slots, in the order of their numbers.
    pub fn all(&self) -> &[Option<T>]
        ensures { result.now ≡ self.now }
    {
        self.items.as_slice()
    }

    /// The least number of a slot that is free.
    pub fn lowest_free(&self) -> Option<usize>
        ensures { result ≡ lowest self.now }
    {
        self.items.iter().position(|slot| slot.is_none())
    }

    /// How many slots are full.
    pub fn live(&self) -> usize
        ensures { result ≡ live self.now }
    {
        self.items.iter().filter(|slot| slot.is_some()).count()
    }
}

impl Slots<Ticket> {
    /// So many slots, all of them free.
    pub fn free(alloc: Global, len: usize) -> Result<Self, AllocError>
        ensures { IfOk result (λ slots. slots ≡ replicate len None) }
    {
        Ok(Slots {
            items: vec![in alloc; None; len]?,
        })
    }
}

impl<T: Drop> Slots<T> {
    /// One more slot at the end.
    pub fn push(&mut self, value: T) -> Result<(), AllocError>
        ensures ok { OnOk result (self.new ≡ self.old ++ Some value ∷ []) }
        ensures err { OnErr result (self.new ≡ self.old) }
    {
        self.items.push(Some(value))?;
        Ok(())
    }

    /// Takes the value out of a slot, which is then empty.
    pub fn take(&mut self, number: usize) -> Option<T>
        ensures value { result ≡ slot self.old number }
        ensures after { self.new ≡ slice_set self.old number None }
    {
        if number < self.items.len() {
            self.items[number].take()
        } else {
            None
        }
    }

    /// Puts a value at a number, or empties its slot; past the last slot it does nothing.
    pub fn put(&mut self, number: usize, value: Option<T>)
        ensures { self.new ≡ slice_set self.old number value }
    {
        if number < self.items.len() {
            self.items[number] = value;
        }
    }

    /// Puts a value at a number, or empties its slot, and gives back what stood there; past the last slot it does nothing.
    pub fn replace(&mut self, number: usize, value: Option<T>) -> Option<T>
        ensures value { result ≡ slot self.old number }
        ensures after { self.new ≡ slice_set self.old number value }
    {
        if number < self.items.len() {
            mem::replace(&mut self.items[number], value)
        } else {
            None
        }
    }

    /// Empties a slot that is not to be kept.
    pub fn clear_unless(&mut self, number: usize, keeps: bool)
        ensures { self.new ≡ slice_set self.old number (if keeps then slot self.old number else None) }
    {
        if !keeps {
            self.put(number, None);
        }
    }
}

impl<T: Clone> Clone for Slots<T> {
    ghost use Rattle.std.specs.Prelude.{List, Option, length, ◌≡◌};

    ghost is_clone = { λ old new. (((x y : T) → T.is_clone x y → y ≡ x) → new ≡ old) };

    fn clone(&self) -> Result<Self, AllocError> {
        Ok(Slots {
            items: self.items.clone()?,
        })
    }
}

ghost use Rattle.std.specs.Prelude.{◌≡◌, ℕ, ◌+◌, ◌<◌, ◌≤◌, ◌∷◌, [], ◌++◌, None, Some, true, is_some, length, slice_set, option_copied, IfSome, IfNone, OnOk, IsOk};
ghost use Rattle.slots.specs.Slots.{slot, live};
ghost use Rattle.slots.specs.KeyedSlots.{found};
ghost use Rattle.slots.specs.Proved.Keys.{HasNumber};

use crate::ticket::Ticket;
use slab::Slab;
use std::alloc::{AllocError, Global};
use std::marker::Model;

/// A value and its number.
#[derive(Drop)]
pub(crate) struct Entry<T> {
    pub(crate) number: usize,
    pub(crate) value: T,
}

/// The key of the entry of a number, looked for among all entries.
#[cold]
#[inline(never)]
fn search<T>(entries: &Slab<Entry<T>>, number: usize) -> Option<usize>
    ensures there { IfSome result (λ key. HasNumber entries.now.slots key number) }
    ensures gone { IfNone result (found entries.now.slots number ≡ None) }
{
    for (key, entry) in entries.iter() {
        if entry.number == number {
            return Some(key);
        }
    }
    None
}

/// Whether the entry under the key of a ticket has its number.
#[inline(always)]
fn hits<T>(entries: &Slab<Entry<T>>, ticket: &Ticket, key: usize) -> bool
    ensures { result ≡ true → HasNumber entries.now.slots key ticket.now }
{
    match entries.get(key) {
        Some(entry) => entry.number == ticket.number(),
        None => false,
    }
}

/// The key of the entry of a number: that of its ticket, unless another entry stands there.
#[inline(always)]
pub(crate) fn key_of<T>(entries: &Slab<Entry<T>>, ticket: &Ticket) -> Option<usize>
    ensures there { IfSome result (λ key. HasNumber entries.now.slots key ticket.now) }
    ensures gone { IfNone result (found entries.now.slots ticket.now ≡ None) }
{
    let key = ticket.key();
    if hits(entries, ticket, key) {
        return Some(key);
    }
    search(entries, ticket.number())
}

/// Slots by number, of which only the live ones are stored, each under a key that is used again. Contracts see a slot for
/// each number that was ever given, and for how many more entries there is room.
#[derive(Drop)]
pub struct Keyed<T> {
    pub(crate) entries: Slab<Entry<T>>,
    next: usize,
}

impl<T> Model for Keyed<T> {
    ghost use Rattle.std.specs.Prelude.{List, Option, ℕ};
    ghost use Rattle.slab.specs.Slab.{slab_len};
    ghost use Rattle.slots.specs.NumberedSlots.{room_of};
    ghost use Rattle.slots.specs.KeyedSlots.{slots_of};
    ghost use Rattle.slots.specs.Proved.Keys.{AreNumbered};

    ghost Value = { List (Option T) × ℕ };

    ghost view = { λ k. (slots_of k.next k.entries.slots, room_of k.entries.capacity (slab_len k.entries) k.next) };

    ghost invariant = { λ k. AreNumbered k.entries.slots k.next };
}

impl<T> Keyed<T> {
    /// No number given yet.
    pub fn new(alloc: Global) -> Self
        ensures { result.0 ≡ [] }
    {
        Keyed {
            entries: Slab::new(alloc),
            next: 0,
        }
    }

    /// The next number.
    #[inline(always)]
    pub fn next(&self) -> usize
        ensures { result ≡ length self.now.0 }
    {
        self.next
    }

    /// How many slots are live.
    #[inline(always)]
    pub fn live(&self) -> usize
        ensures { result ≡ live self.now.0 }
    {
        self.entries.len()
    }

    /// What stands at a number.
    #[inline(always)]
    pub fn get(&self, ticket: &Ticket) -> Option<&T>
        ensures { option_copied result ≡ slot self.now.0 ticket.now }
    {
        if let Some(entry) = self.entries.get(ticket.key()) {
            if entry.number == ticket.number() {
                return Some(&entry.value);
            }
        }
        match search(&self.entries, ticket.number()) {
            Some(key) => Some(&self.entries[key].value),
            None => None,
        }
    }

    ghost use Rattle.std.specs.Borrow.{sem};
    ghost use Rattle.slots.specs.Proved.KeyedLends.{lends_value};

    /// The value at a number, to be edited where it stands.
    #[inline(always)]
    pub fn value_mut(&mut self, ticket: &Ticket) -> &mut T
        requires { is_some (slot self.old.0 ticket.now) ≡ true }
        ensures* writes_back { sem 𝓛 (lends_value T.row self.entry ticket.now result) }
        ensures value { slot self.old.0 ticket.now ≡ Some result.now }
    {
        let key = ticket.key();
        if hits(&self.entries, ticket, key) {
            return &mut self.entries[key].value;
        }
        match search(&self.entries, ticket.number()) {
            Some(key) => &mut self.entries[key].value,
            None => unreachable!(),
        }
    }

    /// Takes the value of a number away, and gives it back; the number is not given again.
    pub fn remove(&mut self, ticket: &Ticket) -> Option<T>
        ensures value { result ≡ slot self.old.0 ticket.now }
        ensures slots { self.new.0 ≡ slice_set self.old.0 ticket.now None }
        ensures room { self.old.1 ≤ self.new.1 }
        ensures most { self.new.1 ≤ self.old.1 + 1 }
    {
        match key_of(&self.entries, ticket) {
            Some(key) => Some(self.entries.remove(key).value),
            None => None,
        }
    }

    /// Makes room for one more entry; an error says that memory or numbers ran out.
    pub fn reserve(&mut self) -> Result<(), AllocError>
        ensures slots { self.new.0 ≡ self.old.0 }
        ensures room { OnOk result (0 < self.new.1) }
        ensures kept { self.old.1 ≤ self.new.1 }
        ensures succeeds { 0 < self.old.1 → IsOk result }
    {
        if self.next == usize::MAX {
            return Err(AllocError);
        }
        self.entries.reserve(1)
    }

    /// Makes room for so many more entries; an error says that memory or numbers ran out.
    pub fn reserve_more(&mut self, count: usize) -> Result<(), AllocError>
        ensures slots { self.new.0 ≡ self.old.0 }
        ensures room { OnOk result (count ≤ self.new.1) }
        ensures kept { self.old.1 ≤ self.new.1 }
        ensures succeeds { count ≤ self.old.1 → IsOk result }
    {
        if usize::MAX - self.next < count {
            return Err(AllocError);
        }
        let _holds_all = self.entries.capacity();
        self.entries.reserve(count)
    }
}

impl<T: Drop> Keyed<T> {
    /// Gives the next number to a value, for which there is room; its ticket.
    pub fn push(&mut self, value: T) -> Ticket
        requires { 0 < self.old.1 }
        ensures number { result ≡ length self.old.0 }
        ensures slots { self.new.0 ≡ self.old.0 ++ Some value ∷ [] }
        ensures room { self.new.1 + 1 ≡ self.old.1 }
    {
        let number = self.next;
        let key = self.entries.insert_reserved(Entry { number, value });
        self.next = number + 1;
        Ticket::new(number, key)
    }
}

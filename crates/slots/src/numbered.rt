ghost use Rattle.std.specs.Prelude.{◌≡◌, ℕ, ◌+◌, ◌<◌, ◌≤◌, ◌∷◌, [], ◌++◌, None, Some, true, is_some, length, slice_set, option_copied, IfOk, IfErr, OnOk, IsOk};
ghost use Rattle.slots.specs.Slots.{slot};
ghost use Rattle.slots.specs.NumberedSlots.{found};
ghost use Rattle.slots.specs.Proved.Entries.{EntriesRise, IsAt};

use std::alloc::{AllocError, Global};
use std::marker::Model;

/// The index of the entry of a number. While no entry between the lowest and this one is gone, it is the distance
/// between their numbers, so that is tried first.
pub(crate) fn index_of<T>(entries: &[(usize, T)], number: usize) -> Result<usize, usize>
    requires { (next : ℕ) × EntriesRise 0 entries.now next }
    ensures there { IfOk result (IsAt entries.now number) }
    ensures gone { IfErr result (λ _. found entries.now number ≡ None) }
{
    if let [lowest, ..] = entries {
        let index = number.saturating_sub(lowest.0);
        if index < entries.len() && entries[index].0 == number {
            return Ok(index);
        }
    }
    entries.binary_search_by_key(&number, |entry| entry.0)
}

/// Slots by number, of which only the live ones are stored. Contracts see a slot for each number that was ever given,
/// and for how many more entries there is room.
#[derive(Drop)]
pub struct Numbered<T> {
    pub(crate) entries: Vec<(usize, T)>,
    next: usize,
}

impl<T> Model for Numbered<T> {
    ghost use Rattle.std.specs.Prelude.{List, Option, ℕ, vec_len, vec_capacity};
    ghost use Rattle.slots.specs.NumberedSlots.{slots_of, room_of};
    ghost use Rattle.slots.specs.Proved.Entries.{EntriesRise};

    ghost Value = { List (Option T) × ℕ };

    ghost view = { λ n. (slots_of n.next n.entries.items, room_of (vec_capacity n.entries) (vec_len n.entries) n.next) };

    ghost invariant = { λ n. EntriesRise 0 n.entries.items n.next };
}

impl<T> Numbered<T> {
    /// No number given yet.
    pub fn new(alloc: Global) -> Self
        ensures { result.0 ≡ [] }
    {
        Numbered {
            entries: Vec::new(alloc),
            next: 0,
        }
    }

    /// The next number.
    pub fn next(&self) -> usize
        ensures { result ≡ length self.now.0 }
    {
        self.next
    }

    /// What stands at a number.
    pub fn get(&self, number: usize) -> Option<&T>
        ensures { option_copied result ≡ slot self.now.0 number }
    {
        match index_of(self.entries.as_slice(), number) {
            Ok(index) => Some(&self.entries[index].1),
            Err(_) => None,
        }
    }

    ghost use Rattle.std.specs.Borrow.{sem};
    ghost use Rattle.slots.specs.Proved.Lends.{lends_value};

    /// The value at a number, to be edited where it stands.
    pub fn value_mut(&mut self, number: usize) -> &mut T
        requires { is_some (slot self.old.0 number) ≡ true }
        ensures* writes_back { sem 𝓛 (lends_value T.row self.entry number result) }
        ensures value { slot self.old.0 number ≡ Some result.now }
    {
        match index_of(self.entries.as_slice(), number) {
            Ok(index) => &mut self.entries[index].1,
            Err(_) => unreachable!(),
        }
    }

    /// Takes the value of a number away, and gives it back; the number is not given again.
    pub fn remove(&mut self, number: usize) -> Option<T>
        ensures value { result ≡ slot self.old.0 number }
        ensures slots { self.new.0 ≡ slice_set self.old.0 number None }
        ensures room { self.old.1 ≤ self.new.1 }
        ensures most { self.new.1 ≤ self.old.1 + 1 }
    {
        match index_of(self.entries.as_slice(), number) {
            Ok(index) => Some(self.entries.remove(index).1),
            Err(_) => None,
        }
    }

    /// Makes room for one more entry; an error says that memory or numbers ran out.
    pub fn reserve(&mut self) -> Result<(), AllocError>
        ensures slots { self.new.0 ≡ self.old.0 }
        ensures room { OnOk result (0 < self.new.1) }
        ensures kept { self.old.1 ≤ self.new.1 }
        ensures succeeds { 0 < self.old.1 → IsOk result }
    {
        if self.next == usize::MAX {
            return Err(AllocError);
        }
        self.entries.reserve(1)
    }
}

impl<T: Drop> Numbered<T> {
    /// Gives the next number to a value, for which there is room.
    pub fn push(&mut self, value: T)
        requires { 0 < self.old.1 }
        ensures slots { self.new.0 ≡ self.old.0 ++ Some value ∷ [] }
        ensures room { self.new.1 + 1 ≡ self.old.1 }
    {
        self.entries.push_reserved((self.next, value));
        self.next += 1;
    }
}

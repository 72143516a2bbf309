ghost use Rattle.std.specs.Prelude.{◌≡◌, ◌+◌, ◌<◌, ◌≤◌, ◌^◌, true, is_some};
ghost use Rattle.slots.specs.Slots.{slot};
ghost use Rattle.slots.specs.Proved.Uses.{uses_at, last_value, use_added, use_dropped};

use crate::keyed::{Keyed, key_of};
use crate::numbered::{Numbered, index_of};
use crate::ticket::Ticket;

/// A value, and how often it is used.
#[derive(Drop)]
pub struct Used<T> {
    pub value: T,
    pub uses: usize,
}

impl<T: Drop> Numbered<Used<T>> {
    /// A value is used once more.
    pub fn add_use(&mut self, number: usize)
        requires there { is_some (slot self.old.0 number) ≡ true }
        requires few { uses_at (slot self.old.0 number) < 2 ^ 63 }
        ensures slots { self.new.0 ≡ use_added number self.old.0 }
        ensures room { self.new.1 ≡ self.old.1 }
    {
        self.value_mut(number).uses += 1;
    }

    /// A value is used once less. The last use takes it away, and gives it back.
    pub fn drop_use(&mut self, number: usize) -> Option<T>
        ensures slots { self.new.0 ≡ use_dropped number self.old.0 }
        ensures room { self.old.1 ≤ self.new.1 }
        ensures most { self.new.1 ≤ self.old.1 + 1 }
        ensures last { result ≡ last_value (slot self.old.0 number) }
    {
        let index = match index_of(self.entries.as_slice(), number) {
            Ok(index) => index,
            Err(_) => return None,
        };
        if self.entries[index].1.uses > 1 {
            self.entries[index].1.uses -= 1;
            return None;
        }
        Some(self.entries.remove(index).1.value)
    }
}

impl<T: Drop> Keyed<Used<T>> {
    /// A value is used once more.
    pub fn add_use(&mut self, ticket: &Ticket)
        requires there { is_some (slot self.old.0 ticket.now) ≡ true }
        requires few { uses_at (slot self.old.0 ticket.now) < 2 ^ 63 }
        ensures slots { self.new.0 ≡ use_added ticket.now self.old.0 }
        ensures room { self.new.1 ≡ self.old.1 }
    {
        self.value_mut(ticket).uses += 1;
    }

    /// A value is used once less. The last use takes it away, and gives it back.
    pub fn drop_use(&mut self, ticket: &Ticket) -> Option<T>
        ensures slots { self.new.0 ≡ use_dropped ticket.now self.old.0 }
        ensures room { self.old.1 ≤ self.new.1 }
        ensures most { self.new.1 ≤ self.old.1 + 1 }
        ensures last { result ≡ last_value (slot self.old.0 ticket.now) }
    {
        let key = match key_of(&self.entries, ticket) {
            Some(key) => key,
            None => return None,
        };
        if self.entries[key].value.uses > 1 {
            self.entries[key].value.uses -= 1;
            return None;
        }
        Some(self.entries.remove(key).value.value)
    }
}

//! The open file descriptions that are live, each under its number and with the count of the descriptors that refer to it.
#![tactic(auto)]

ghost use Rattle.std.specs.Prelude.{◌≡◌, ◌+◌, ◌<◌, ◌≤◌, ◌^◌, ◌∷◌, ◌++◌, [], Some, true, is_some, length, option_copied, OnOk, IsOk};
ghost use Rattle.std.specs.Option.{option_map};
ghost use Rattle.slots.specs.Slots.{slot, live, edited};
ghost use Rattle.slots.specs.UsedSlots.{value_at};
ghost use Rattle.slots.specs.Proved.Uses.{uses_at, last_value, used_once, use_added, use_dropped, with_value};
ghost use Rattle.call_types.specs.Descriptions.{described, flags_of};
ghost use Rattle.description_table.specs.Proved.Drops.{dropped};

use call_types::description::{Description, DescriptionEdit, Mode, Target};
use call_types::flags::OpenFlags;
use slots::keyed::Keyed;
use slots::ticket::Ticket;
use slots::used::Used;
use std::alloc::{AllocError, Global};
use std::marker::Model;

/// What becomes of a description that loses a reference (page of close).
#[derive(Clone, Copy)]
pub enum Dropped {
    /// It is still referred to, or was gone before.
    Still,
    /// It went with its last reference; this is what it referred to, and for what it was open.
    Gone { target: Target, mode: Mode },
}

/// The live descriptions (XBD 3, Open File Description). Contracts see a slot for each number that was ever given, with its references, and for how many
/// more descriptions there is room.
#[derive(Drop)]
pub struct DescriptionTable {
    descriptions: Keyed<Used<Description>>,
}

impl Model for DescriptionTable {
    ghost use Rattle.std.specs.Prelude.{List, Option, ℕ};
    ghost use Rattle.slots.specs.declared.used.Used.{Used as Uses};
    ghost use Rattle.call_types.specs.declared.description.Description.{Description as Descriptions};

    ghost Value = { List (Option (Uses Descriptions)) × ℕ };

    ghost use Rattle.description_table.specs.Proved.Drops.{Referred};

    ghost view = { λ table. table.descriptions };

    ghost invariant = { λ table. Referred table.descriptions.0 };
}

impl DescriptionTable {
    /// No description yet, and no number given.
    pub fn new(alloc: Global) -> Self
        ensures { result.0 ≡ [] }
    {
        DescriptionTable {
            descriptions: Keyed::new(alloc),
        }
    }

    /// The number of the next description.
    pub fn next(&self) -> usize
        ensures { result ≡ length self.now.0 }
    {
        self.descriptions.next()
    }

    /// How many descriptions are live.
    pub fn live(&self) -> usize
        ensures { result ≡ live self.now.0 }
    {
        self.descriptions.live()
    }

    /// The description of a number, if it is live.
    #[inline(always)]
    pub fn get(&self, ticket: &Ticket) -> Option<&Description>
        ensures { option_copied result ≡ value_at (slot self.now.0 ticket.now) }
    {
        match self.descriptions.get(ticket) {
            Some(used) => Some(&used.value),
            None => None,
        }
    }

    /// How many descriptors refer to a description; none where it is gone.
    pub fn references(&self, ticket: &Ticket) -> usize
        ensures { result ≡ uses_at (slot self.now.0 ticket.now) }
    {
        match self.descriptions.get(ticket) {
            Some(used) => used.uses,
            None => 0,
        }
    }

    /// The offset of a description, in bytes, if it is live.
    pub fn offset(&self, ticket: &Ticket) -> Option<u64>
        ensures { result ≡ option_map (λ description. description.offset) (value_at (slot self.now.0 ticket.now)) }
    {
        match self.get(ticket) {
            Some(description) => Some(description.offset),
            None => None,
        }
    }

    /// The flags of a description, of those that stay with it, if it is live (page of fcntl, F_GETFL).
    pub fn flags(&self, ticket: &Ticket) -> Option<OpenFlags>
        ensures { result ≡ option_map flags_of (value_at (slot self.now.0 ticket.now)) }
    {
        match self.get(ticket) {
            Some(description) => Some(description.flags()),
            None => None,
        }
    }

    /// Makes room for one more description; an error says that memory or numbers ran out.
    pub fn reserve(&mut self) -> Result<(), AllocError>
        ensures slots { self.new.0 ≡ self.old.0 }
        ensures room { OnOk result (0 < self.new.1) }
        ensures kept { self.old.1 ≤ self.new.1 }
        ensures succeeds { 0 < self.old.1 → IsOk result }
    {
        self.descriptions.reserve()
    }

    /// Makes room for two more descriptions; an error says that memory or numbers ran out.
    pub fn reserve_two(&mut self) -> Result<(), AllocError>
        ensures slots { self.new.0 ≡ self.old.0 }
        ensures room { OnOk result (2 ≤ self.new.1) }
        ensures kept { self.old.1 ≤ self.new.1 }
        ensures succeeds { 2 ≤ self.old.1 → IsOk result }
    {
        self.descriptions.reserve_more(2)
    }

    /// Gives the next number to a description, for which there is room, with one reference; its ticket.
    pub fn add(&mut self, description: Description) -> Ticket
        requires { 0 < self.old.1 }
        ensures number { result ≡ length self.old.0 }
        ensures slots { self.new.0 ≡ self.old.0 ++ Some (used_once description) ∷ [] }
        ensures room { self.new.1 + 1 ≡ self.old.1 }
    {
        self.descriptions.push(Used {
            value: description,
            uses: 1,
        })
    }

    /// Adds a reference to a description.
    pub fn hold(&mut self, ticket: &Ticket)
        requires there { is_some (slot self.old.0 ticket.now) ≡ true }
        requires few { uses_at (slot self.old.0 ticket.now) < 2 ^ 63 }
        ensures slots { self.new.0 ≡ use_added ticket.now self.old.0 }
        ensures room { self.new.1 ≡ self.old.1 }
    {
        self.descriptions.add_use(ticket);
    }

    /// Drops a reference to a description, which goes with its last one (page of close). It does nothing if it is gone.
    pub fn drop_one(&mut self, ticket: &Ticket) -> Dropped
        ensures slots { self.new.0 ≡ use_dropped ticket.now self.old.0 }
        ensures room { self.old.1 ≤ self.new.1 }
        ensures most { self.new.1 ≤ self.old.1 + 1 }
        ensures told { result ≡ dropped (last_value (slot self.old.0 ticket.now)) }
    {
        match self.descriptions.drop_use(ticket) {
            Some(description) => Dropped::Gone {
                target: description.target,
                mode: description.mode,
            },
            None => Dropped::Still,
        }
    }

    /// Gives a live description another offset, or other flags. An offset is in bytes, below 2^63.
    #[inline(always)]
    pub fn describe(&mut self, ticket: &Ticket, edit: DescriptionEdit)
        requires { is_some (slot self.old.0 ticket.now) ≡ true }
        ensures slots { self.new.0 ≡ edited ticket.now (with_value (described edit)) self.old.0 }
        ensures room { self.new.1 ≡ self.old.1 }
    {
        self.descriptions.value_mut(ticket).value.edit(edit);
    }
}

//! What the entries of descriptor tables refer to.

ghost use Rattle.std.specs.Prelude.{◌≡◌, ℕ, ◌+◌, ◌<◌, ◌^◌, Some, true, is_some, length};
ghost use Rattle.slots.specs.Slots.{slot};
ghost use Rattle.slots.specs.Proved.Uses.{uses_at};
ghost use Rattle.posix_model.specs.Proved.Whole.{EachThere};
ghost use Rattle.posix_model.specs.Kept.{IsThere};
ghost use Rattle.description_table.specs.Proved.Drops.{dropped};
ghost use Rattle.machine_state.specs.Proved.Uses.{with_use, with_uses, without_use, lost};

use description_table::{DescriptionTable, Dropped};
use slots::ticket::Ticket;

/// Adds a reference to the description of an entry; a free entry refers to none.
pub(crate) fn hold_entry(table: &mut DescriptionTable, entry: &Option<Ticket>)
    requires there { (n : ℕ) → entry.now ≡ Some n → is_some (slot table.old.0 n) ≡ true }
    requires few { (n : ℕ) → uses_at (slot table.old.0 n) < 2 ^ 63 }
    ensures slots { table.new.0 ≡ with_use entry.now table.old.0 }
    ensures room { table.new.1 ≡ table.old.1 }
{
    if let Some(number) = entry {
        table.hold(number);
    }
}

/// Adds a reference to the description of each of these entries.
pub(crate) fn hold_entries(table: &mut DescriptionTable, entries: &[Option<Ticket>])
    requires there { EachThere (IsThere table.old.0) entries.now }
    requires few { (n : ℕ) → uses_at (slot table.old.0 n) + length entries.now < 2 ^ 63 }
    ensures slots { table.new.0 ≡ with_uses entries.now table.old.0 }
    ensures room { table.new.1 ≡ table.old.1 }
{
    for entry in entries {
        hold_entry(table, entry);
    }
}

/// Drops a reference to the description of an entry; with its last one the description is removed.
pub(crate) fn drop_entry(table: &mut DescriptionTable, entry: &Option<Ticket>) -> Dropped
    ensures slots { table.new.0 ≡ without_use entry.now table.old.0 }
    ensures told { result ≡ dropped (lost entry.now table.old.0) }
{
    match entry {
        Some(number) => table.drop_one(number),
        None => Dropped::Still,
    }
}

ghost use Rattle.std.specs.Prelude.{◌≡◌, ◌<◌, None, Some, replicate, slice_set, option_copied, IfOk, IfSome, IfNone};
ghost use Rattle.slots.specs.Slots.{slot, lowest};
ghost use Rattle.process_table.specs.Tables.{two_lowest, IsNextOpen, IsFreeFrom};

use crate::mask::OpenMask;
use call_types::limits::OPEN_MAX;
use slots::dense::Slots;
use slots::ticket::Ticket;
use std::alloc::{AllocError, Global};
use std::marker::Model;

/// The descriptors of a process (XBD 3, File Descriptor), each with the number of the description that it refers to, or free.
/// Contracts see the list of them, by number.
#[derive(Drop)]
pub struct DescriptorTable {
    slots: Slots<Ticket>,
    mask: OpenMask,
}

impl Model for DescriptorTable {
    ghost use Rattle.std.specs.Prelude.{List, Option, ℕ};
    ghost use Rattle.process_table.specs.Proved.Masks.{Marks};

    ghost Value = { List (Option ℕ) };

    ghost view = { λ table. table.slots };

    ghost invariant = { λ table. Marks table.mask.bits table.slots };
}

impl DescriptorTable {
    /// All 32 descriptors that a process may have, none of them open.
    pub fn free(alloc: Global) -> Result<Self, AllocError>
        ensures { IfOk result (λ table. table ≡ replicate OPEN_MAX None) }
    {
        Ok(DescriptorTable {
            slots: Slots::free(alloc, OPEN_MAX)?,
            mask: OpenMask::none(),
        })
    }

    /// All descriptors, in the order of their numbers.
    pub fn entries(&self) -> &[Option<Ticket>]
        ensures { result.now ≡ self.now }
    {
        self.slots.all()
    }

    /// What a descriptor refers to, if it is open.
    #[inline(always)]
    pub fn get(&self, fd: usize) -> Option<&Ticket>
        ensures { option_copied result ≡ slot self.now fd }
    {
        self.slots.get(fd)
    }

    /// The least descriptor from a number on that is open.
    pub fn next_open(&self, from: usize) -> Option<usize>
        ensures least { IfSome result (IsNextOpen self.now from) }
        ensures none { IfNone result (IsFreeFrom self.now from) }
        ensures within { IfSome result (λ fd. fd < OPEN_MAX) }
    {
        self.mask.next_open(from)
    }

    /// The lowest free descriptor (XSH 2.14, File Descriptor Allocation).
    pub fn lowest_free(&self) -> Option<usize>
        ensures { result ≡ lowest self.now }
    {
        self.mask.lowest_free()
    }

    /// The two lowest free descriptors, as a call that opens two of them takes them (page of pipe).
    pub fn two_lowest_free(&self) -> Option<(usize, usize)>
        ensures exact { result ≡ two_lowest self.now }
        ensures within { IfSome result (λ fds. (fds.0 < OPEN_MAX) × (fds.1 < OPEN_MAX)) }
    {
        let first = self.mask.lowest_free()?;
        let second = self.mask.with(first).lowest_free()?;
        Some((first, second))
    }

    /// Lets a descriptor refer to this description, or frees it; what it referred to before. Past the last descriptor it does nothing.
    pub fn replace(&mut self, fd: usize, entry: Option<Ticket>) -> Option<Ticket>
        ensures old { result ≡ slot self.old fd }
        ensures table { self.new ≡ slice_set self.old fd entry }
    {
        self.mask = self.mask.replaced(fd, &entry);
        self.slots.replace(fd, entry)
    }

    /// Frees a descriptor (page of close); what it referred to.
    pub fn clear(&mut self, fd: usize) -> Option<Ticket>
        ensures old { result ≡ slot self.old fd }
        ensures table { self.new ≡ slice_set self.old fd None }
    {
        self.replace(fd, None)
    }
}

/// The copy refers to the same descriptions (page of fork).
impl Clone for DescriptorTable {
    ghost is_clone = { λ old new. new ≡ old };

    fn clone(&self) -> Result<Self, AllocError> {
        Ok(DescriptorTable {
            slots: self.slots.clone()?,
            mask: self.mask,
        })
    }
}

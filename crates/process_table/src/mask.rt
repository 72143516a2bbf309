//! Which descriptors of a table are open, as bits of one number.

ghost use Rattle.std.specs.Prelude.{◌≡◌, ◌<◌, ℕ, List, Option, None, Some, replicate, slice_set, IfSome, IfNone};
ghost use Rattle.call_types.specs.declared.limits.TheConstants.{OPEN_MAX};
ghost use Rattle.slots.specs.Slots.{lowest};
ghost use Rattle.process_table.specs.Tables.{IsNextOpen, IsFreeFrom};
ghost use Rattle.process_table.specs.Proved.Masks.{Marks};

use call_types::limits::OPEN_MAX;
use slots::ticket::Ticket;

/// A bit for each of the 32 descriptors, set where it is open. Contracts speak of every table that it marks.
#[derive(Clone, Copy)]
pub(crate) struct OpenMask {
    bits: u32,
}

impl OpenMask {
    /// No descriptor is open.
    pub(crate) fn none() -> Self
        ensures { Marks result.bits (replicate OPEN_MAX None) }
    {
        OpenMask { bits: 0 }
    }

    /// The least descriptor from a number on that is open.
    #[inline(always)]
    pub(crate) fn next_open(self, from: usize) -> Option<usize>
        ensures least { (slots : List (Option ℕ)) → Marks self.bits slots → IfSome result (IsNextOpen slots from) }
        ensures none { (slots : List (Option ℕ)) → Marks self.bits slots → IfNone result (IsFreeFrom slots from) }
        ensures within { IfSome result (λ fd. fd < OPEN_MAX) }
    {
        if from >= OPEN_MAX {
            return None;
        }
        let behind = self.bits >> from;
        if behind == 0 {
            return None;
        }
        Some(from + behind.trailing_zeros() as usize)
    }

    /// The lowest free descriptor.
    #[inline(always)]
    pub(crate) fn lowest_free(self) -> Option<usize>
        ensures least { (slots : List (Option ℕ)) → Marks self.bits slots → result ≡ lowest slots }
        ensures within { IfSome result (λ fd. fd < OPEN_MAX) }
    {
        if self.bits == u32::MAX {
            return None;
        }
        Some(self.bits.trailing_ones() as usize)
    }

    /// The mask once a descriptor is open. Past the last descriptor it does nothing.
    #[inline(always)]
    pub(crate) fn with(self, fd: usize) -> Self
        ensures { (slots : List (Option ℕ)) (entry : ℕ) → Marks self.bits slots → Marks result.bits (slice_set slots fd (Some entry)) }
    {
        if fd >= OPEN_MAX {
            return self;
        }
        OpenMask {
            bits: self.bits | 1 << fd,
        }
    }

    /// The mask once a descriptor is free. Past the last descriptor it does nothing.
    #[inline(always)]
    fn without(self, fd: usize) -> Self
        ensures { (slots : List (Option ℕ)) → Marks self.bits slots → Marks result.bits (slice_set slots fd None) }
    {
        if fd >= OPEN_MAX {
            return self;
        }
        OpenMask {
            bits: self.bits & !(1 << fd),
        }
    }

    /// The mask once a descriptor refers to this, or is free.
    #[inline(always)]
    pub(crate) fn replaced(self, fd: usize, entry: &Option<Ticket>) -> Self
        ensures { (slots : List (Option ℕ)) → Marks self.bits slots → Marks result.bits (slice_set slots fd entry.now) }
    {
        match entry {
            Some(_) => self.with(fd),
            None => self.without(fd),
        }
    }
}

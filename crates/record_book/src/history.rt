//! The records of a run, each of which goes to its trace too.

ghost use Rattle.std.specs.Prelude.{◌≡◌, ◌<◌, ◌≤◌, false, true, [], map, length, IfOk, IfSome, IfNone};
ghost use Rattle.std.specs.Arc.{arc_value};
ghost use Rattle.rtrb.specs.Ring.{received};
ghost use Rattle.call_types.specs.declared.limits.TheConstants.{RECORDS_MAX};
ghost use Rattle.trace_ring.specs.Proved.Trace.{fresh_ring, Pushes};

use call_types::act::Record;
use std::alloc::{AllocError, Global};
use std::marker::Model;
use std::sync::Arc;
use trace_ring::trace_ring::{TraceEnd, TraceRing};

/// The records of a run, in order, and the ring into which each of them was put. Contracts see of it what they see of the ring: the
/// records that were put in are those that it keeps, and there is room for as many more in both.
#[derive(Drop)]
pub(crate) struct History {
    kept: Vec<Arc<Record>>,
    ring: TraceRing,
}

impl Model for History {
    ghost use Rattle.trace_ring.specs.RingState.{RingState};

    ghost Value = { RingState };

    ghost use Rattle.record_book.specs.Proved.History.{IsHistory};

    ghost view = { λ h. h.ring };

    ghost invariant = { IsHistory };
}

impl History {
    /// No record yet, and room for this many.
    pub(crate) fn new(alloc: Global, room: usize) -> Result<Self, AllocError>
        requires { room ≤ RECORDS_MAX }
        ensures { IfOk result (λ history. history ≡ fresh_ring room) }
    {
        Ok(History {
            kept: Vec::with_capacity(alloc, room)?,
            ring: TraceRing::new(alloc, room)?,
        })
    }

    /// How many records there are.
    #[inline(always)]
    pub(crate) fn len(&self) -> usize
        ensures { result ≡ length self.now.sent }
    {
        self.kept.len()
    }

    /// Keeps one record more, and puts a share of it into the ring. There is room for both, so this takes no memory.
    #[inline(always)]
    pub(crate) fn push(&mut self, item: Arc<Record>, traced: Arc<Record>)
        requires room { 0 < self.old.free }
        requires same { arc_value traced ≡ arc_value item }
        ensures { Pushes self.old self.new (arc_value item) }
    {
        self.kept.push_reserved(item);
        self.ring.push(traced);
    }

    /// The ring.
    pub(crate) fn ring(&self) -> &TraceRing
        ensures { result.now ≡ self.now }
    {
        &self.ring
    }

    /// The reading end of the ring, the first time.
    pub(crate) fn take_end(&mut self) -> Option<TraceEnd>
        ensures some { IfSome result (λ end. (self.old.is_taken ≡ false) × (received end ≡ [])) }
        ensures none { IfNone result (self.old.is_taken ≡ true) }
        ensures taken { self.new ≡ record self.old { is_taken = true } }
    {
        self.ring.take_end()
    }

    /// Finishes the writing end of the ring. Returns the records, and whether the reading end was taken.
    pub(crate) fn end(self) -> (Vec<Arc<Record>>, bool)
        ensures kept { map arc_value result.0.items ≡ self.sent }
        ensures taken { result.1 ≡ self.is_taken }
    {
        let History { kept, ring } = self;
        let is_taken = ring.is_taken();
        let _finished = ring.finish();
        (kept, is_taken)
    }
}

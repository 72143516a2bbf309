ghost use Rattle.std.specs.Prelude.{◌≡◌, ◌<◌, [], true, false, map, length, IfOk, IfSome, IfNone};
ghost use Rattle.std.specs.Arc.{arc_value};
ghost use Rattle.rtrb.specs.Ring.{received, all_sent};
ghost use Rattle.call_types.specs.declared.limits.TheConstants.{RECORDS_MAX};
ghost use Rattle.trace_ring.specs.Proved.Trace.{fresh_ring, Pushes};

use call_types::act::Record;
use rtrb::{Consumer, Finished, Producer, Protocol, RingBuffer};
use std::alloc::{AllocError, Global};
use std::marker::Model;
use std::sync::Arc;

/// What is known of each record in the ring of a trace: fewer than a run may have were put in before it.
#[derive(Clone, Copy)]
pub struct InRun;

impl<T> Protocol<T> for InRun {
    ghost use Rattle.std.specs.Prelude.{◌<◌, length};
    ghost use Rattle.call_types.specs.declared.limits.TheConstants.{RECORDS_MAX};

    ghost allows = { λ before x. length before < RECORDS_MAX };
}

/// The reading end of a ring, for the thread that writes the trace.
pub type TraceEnd = Consumer<Arc<Record>, Global, InRun>;

/// A ring: its writing end, and its reading end until that is taken. Contracts see the records that were put in, for how many more
/// there is known to be room, and whether the reading end was taken.
#[derive(Drop)]
pub struct TraceRing {
    producer: Producer<Arc<Record>, Global, InRun>,
    consumer: Option<TraceEnd>,
}

impl Model for TraceRing {
    ghost use Rattle.trace_ring.specs.RingState.{RingState};

    ghost Value = { RingState };

    ghost use Rattle.trace_ring.specs.RingSeen.{ring_state};
    ghost use Rattle.trace_ring.specs.Proved.RingInside.{IsRing};

    ghost view = { ring_state };

    ghost invariant = { IsRing };
}

impl TraceRing {
    /// A ring with room for this many records. All memory that it ever needs is taken here; an error says that it ran out.
    pub fn new(alloc: Global, room: usize) -> Result<Self, AllocError>
        ensures { IfOk result (λ ring. ring ≡ fresh_ring room) }
    {
        let (producer, consumer) = RingBuffer::with_protocol::<Global, InRun>(alloc, room)?;
        Ok(TraceRing {
            producer,
            consumer: Some(consumer),
        })
    }

    /// Puts a record into the ring, in which there is room for it. It takes no memory, does not wait and cannot fail.
    #[inline(always)]
    pub fn push(&mut self, item: Arc<Record>)
        requires room { 0 < self.old.free }
        requires few { length self.old.sent < RECORDS_MAX }
        ensures { Pushes self.old self.new (arc_value item) }
    {
        self.producer.push_reserved(item);
    }

    /// The reading end, the first time; nothing was read from it yet. It takes no memory.
    pub fn take_end(&mut self) -> Option<TraceEnd>
        ensures some { IfSome result (λ end. (self.old.is_taken ≡ false) × (received end ≡ [])) }
        ensures none { IfNone result (self.old.is_taken ≡ true) }
        ensures taken { self.new ≡ record self.old { is_taken = true } }
    {
        self.consumer.take()
    }

    /// Whether the reading end was taken.
    pub fn is_taken(&self) -> bool
        ensures { result ≡ self.now.is_taken }
    {
        self.consumer.is_none()
    }

    /// Finishes the writing end, so that the reading end can see that nothing more will come. Returns what was put in, if the
    /// reading end is still there. It takes no memory.
    pub fn finish(self) -> Option<Finished<Arc<Record>, Global, InRun>>
        ensures { IfSome result (λ finished. map arc_value (all_sent finished) ≡ self.sent) }
    {
        let TraceRing { producer, consumer } = self;
        let finished = producer.finish();
        drop(consumer);
        finished
    }
}

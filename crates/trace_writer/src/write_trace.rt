//! The records of a ring, written as a trace.

ghost use Rattle.std.specs.Prelude.{◌≡◌, ◌+◌, ◌<◌, ◌^◌, [], true, map, length};
ghost use Rattle.std.specs.Arc.{arc_value};
ghost use Rattle.rtrb.specs.Ring.{received, known_items};
ghost use Rattle.frame_codec.specs.Trace.{told_of};
ghost use Rattle.trace_writer.specs.Traces.{IsReceived, IsTrace};
ghost use Rattle.trace_writer.specs.Proved.Tracing.{Follows, GoesOn};

use crate::sink::Sink;
use crate::traced::Traced;
use crate::tracer::Tracer;
use call_types::limits::Limits;
use std::alloc::Global;
use std::sync::Wait;
use std::thread;
use std::time::{Clock, Duration};
use trace_ring::trace_ring::TraceEnd;

/// A ring that was found empty is looked at again after so many milliseconds.
const PAUSE: u64 = 1;

/// Takes a record that was seen out of the ring.
fn take_one<S: Sink>(ring: &mut TraceEnd, tracer: &mut Tracer<S>)
    requires seen { 0 < length (known_items ring.old) }
    requires follows { Follows (map arc_value (received ring.old)) tracer.old }
    ensures goes_on { GoesOn tracer.old tracer.new (map arc_value (received ring.new)) }
    ensures fewer { length (known_items ring.old) ≡ length (known_items ring.new) + 1 }
{
    let item = ring.pop_known();
    tracer.keep(item);
    tracer.flush_much();
}

/// Takes all records out of the ring that are there; how many there were.
fn take_all<S: Sink>(ring: &mut TraceEnd, tracer: &mut Tracer<S>) -> usize
    requires { Follows (map arc_value (received ring.old)) tracer.old }
    ensures goes_on { GoesOn tracer.old tracer.new (map arc_value (received ring.new)) }
    ensures empty { length (known_items ring.new) ≡ 0 }
{
    let count = ring.slots();
    for _taken in 0..count {
        take_one(ring, tracer);
    }
    count
}

/// Writes the records that come out of a ring as a trace that tells these limits of their run, until the other end of the ring is finished and the ring is empty. While
/// records come they are written in pieces, and the rest is written once the ring is empty. After a fault nothing more is written,
/// and records are received all the same. The other end is never waited for: an empty ring is looked at again after a pause.
pub fn write_trace<R: Wait + Clock, S: Sink>(
    rt: &R,
    alloc: Global,
    ring: &mut TraceEnd,
    limits: Limits,
    sink: S,
) -> (S, Traced)
    requires fresh { received ring.old ≡ [] }
    requires sound { S.is_sound sink ≡ true }
    requires few { S.failures sink + 1 < 2 ^ 64 }
    ensures trace { IsTrace (told_of limits) (S.contents sink) (S.contents result.0) (S.failures sink) (S.failures result.0) (S.is_synced result.0) result.1.whole result.1.bytes result.1.fault (map arc_value result.1.received.items) }
    ensures receives { IsReceived (map arc_value (received ring.new)) (map arc_value result.1.received.items) result.1.fault }
    ensures empty { length (known_items ring.new) ≡ 0 }
{
    let mut tracer = Tracer::new(alloc, limits, sink);
    for _ in rt.forever() {
        let is_last = ring.is_abandoned();
        let count = take_all(ring, &mut tracer);
        if is_last {
            return tracer.finish();
        }
        if count == 0 {
            tracer.flush();
            thread::sleep(rt, Duration::from_millis(PAUSE));
        }
    }
    unreachable!()
}

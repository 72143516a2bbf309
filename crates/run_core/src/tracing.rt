//! The thread that writes the trace of a run.

ghost use Rattle.std.specs.Prelude.{◌≡◌, ◌+◌, ◌<◌, ◌^◌, [], true, map, IfOk, OnErr, OnOk};
ghost use Rattle.std.specs.Arc.{arc_value};
ghost use Rattle.rtrb.specs.Ring.{received};
ghost use Rattle.frame_codec.specs.Trace.{told_of};
ghost use Rattle.logged_streams.specs.Streams.{one_more};
ghost use Rattle.run_core.specs.Traced.{IsTold};

use call_types::limits::Limits;
use session_core::starter::{StartFailed, Starter, start};
use std::alloc::Global;
use std::snapshot::Snapshot;
use std::sync::Wait;
use std::thread::{Promise, PromisedHandle, Threads};
use std::time::Clock;
use trace_ring::trace_ring::TraceEnd;
use trace_writer::sink::Sink;
use trace_writer::traced::Traced;
use trace_writer::write_trace::write_trace;

/// A trace that is written, and its sink.
#[derive(Drop)]
pub(crate) struct Done<K: Sink> {
    pub(crate) traced: Traced,
    pub(crate) sink: K,
}

/// What the thread of a trace promises: that the records which it received are written to this sink, as far as it tells, after these
/// limits.
#[derive(Drop)]
pub(crate) struct Tracing<K: Sink> {
    limits: Limits,
    sink: Snapshot<K>,
}

impl<K: Sink> Promise<Done<K>> for Tracing<K> {
    ghost use Rattle.std.specs.Prelude.{map};
    ghost use Rattle.std.specs.Arc.{arc_value};
    ghost use Rattle.frame_codec.specs.Trace.{told_of};
    ghost use Rattle.run_core.specs.Traced.{IsTold};

    ghost kept_by = { λ p done. IsTold (told_of p.limits) (record { base = K.contents p.sink.value; now = K.contents done.sink; before = K.failures p.sink.value; after = K.failures done.sink; is_synced = K.is_synced done.sink; whole = done.traced.whole; bytes = done.traced.bytes; fault = done.traced.fault }) (map arc_value done.traced.received.items) };
}

/// A trace that goes on in its thread.
#[derive(Drop)]
pub(crate) struct Traces<K: Sink> {
    thread: PromisedHandle<Done<K>, Tracing<K>>,
}

/// Writes a trace, and gives its sink back beside what became of it.
fn trace_into<Rt: Wait + Clock, K: Sink>(
    rt: &Rt,
    alloc: Global,
    end: TraceEnd,
    limits: Limits,
    sink: K,
) -> Done<K>
    requires fresh { received end ≡ [] }
    requires sound { K.is_sound sink ≡ true }
    requires few { K.failures sink + 1 < 2 ^ 64 }
    ensures { IsTold (told_of limits) (record { base = K.contents sink; now = K.contents result.sink; before = K.failures sink; after = K.failures result.sink; is_synced = K.is_synced result.sink; whole = result.traced.whole; bytes = result.traced.bytes; fault = result.traced.fault }) (map arc_value result.traced.received.items) }
{
    let mut end = end;
    let (sink, traced) = write_trace(rt, alloc, &mut end, limits, sink);
    Done { traced, sink }
}

/// Starts the thread of a trace, if one can be started. It goes on until its end of the ring is the only one left and is empty.
pub(crate) fn start_trace<
    Rt: Threads + Wait + Clock + Copy + Send + 'static,
    T: Starter,
    K: Sink + Send + Drop + 'static,
>(
    rt: Rt,
    alloc: Global,
    starter: &mut T,
    end: TraceEnd,
    limits: Limits,
    sink: K,
) -> Result<Traces<K>, StartFailed>
    requires fresh { received end ≡ [] }
    requires sound { K.is_sound sink ≡ true }
    requires few { K.failures sink + 1 < 2 ^ 64 }
    ensures promised { IfOk result (λ t. (K.contents t.thread.promise.sink.value ≡ K.contents sink) × (K.failures t.thread.promise.sink.value ≡ K.failures sink) × (t.thread.promise.limits ≡ limits)) }
    ensures started { OnOk result (T.failures starter.new ≡ T.failures starter.old) }
    ensures refused { OnErr result (T.failures starter.new ≡ one_more (T.failures starter.old)) }
{
    let promise = Tracing {
        limits,
        sink: Snapshot::of(&sink),
    };
    let tracing = move || trace_into(&rt, alloc, end, limits, sink);
    let thread = start(&rt, starter, promise, tracing)?;
    Ok(Traces { thread })
}

impl<K: Sink> Traces<K> {
    /// Waits until the trace is written.
    pub(crate) fn join<Rt: Threads>(self, rt: &Rt) -> Done<K>
        ensures { IsTold (told_of self.thread.promise.limits) (record { base = K.contents self.thread.promise.sink.value; now = K.contents result.sink; before = K.failures self.thread.promise.sink.value; after = K.failures result.sink; is_synced = K.is_synced result.sink; whole = result.traced.whole; bytes = result.traced.bytes; fault = result.traced.fault }) (map arc_value result.traced.received.items) }
    {
        self.thread.join(rt)
    }
}

//! Traces as they are written, to sinks that fail here and there.

ghost use Rattle.std.specs.Prelude.{◌≡◌, ◌+◌, ◌<◌, ◌^◌, [], true, IfOk};
ghost use Rattle.rtrb.specs.Ring.{received};

use super::audits::TRACE_2;
use call_types::act::{Act, Record};
use call_types::bounded::{Content, Payload};
use call_types::call::Call;
use call_types::limits::Limits;
use call_types::outcome::{Outcome, Reply};
use std::alloc::Global;
use std::process::Abort;
use std::sync::{Arc, Wait};
use std::test::Fail;
use std::time::Clock;
use trace_ring::trace_ring::{TraceEnd, TraceRing};
use trace_writer::memory::{Manner, MemorySink};
use trace_writer::sink::Sink;
use trace_writer::traced::{TraceFault, Traced};
use trace_writer::write_trace::write_trace;

/// A record of the first process.
fn record_of(alloc: Global, act: Act, reply: Reply) -> Result<Arc<Record>, Fail> {
    Ok(Arc::new(
        alloc,
        Record {
            actor: 0,
            act,
            outcome: Outcome::Reply(reply),
        },
    )?)
}

/// The reading end of a ring that has these records, and whose writing end is finished.
fn ring_of(
    alloc: Global,
    first: Arc<Record>,
    second: Arc<Record>,
    third: Arc<Record>,
) -> Result<TraceEnd, Fail>
    ensures { IfOk result (λ end. received end ≡ []) }
{
    let mut ring = TraceRing::new(alloc, 3)?;
    ring.push(first);
    ring.push(second);
    ring.push(third);
    let end = ring.take_end();
    let _finished = ring.finish();
    match end {
        Some(end) => Ok(end),
        None => Err("the end was not taken before")?,
    }
}

/// The limits of the run of `TRACE_2`.
fn limits() -> Result<Limits, Fail> {
    Ok(Limits::new(100, 1024)?)
}

/// The reading end of a ring that has the records of `TRACE_2`.
fn three_records(alloc: Global) -> Result<TraceEnd, Fail>
    ensures { IfOk result (λ end. received end ≡ []) }
{
    let join = record_of(alloc, Act::Join, Reply::Number(0))?;
    let pipe = record_of(alloc, Act::Call(Call::Pipe), Reply::Pair(0, 1))?;
    let exit = record_of(alloc, Act::Exit, Reply::Done)?;
    ring_of(alloc, join, pipe, exit)
}

/// A record of a write of 65,536 bytes, which has a frame of 65,562 bytes.
fn long_record(alloc: Global) -> Result<Arc<Record>, Fail> {
    let call = Call::Write {
        fd: 3,
        bytes: Payload::same(7, 65_536),
    };
    record_of(alloc, Act::Call(call), Reply::Number(65_536))
}

/// What becomes of the three records in a sink over memory.
fn traced_by<R: Wait + Clock>(
    rt: &R,
    alloc: Global,
    manner: Manner,
) -> Result<(MemorySink, Traced), Fail> {
    let mut end = three_records(alloc)?;
    let sink = MemorySink::new(alloc, manner);
    Ok(write_trace(rt, alloc, &mut end, limits()?, sink))
}

/// What becomes of the three records in a file.
fn traced_in<R: Wait + Clock, S: Sink + Drop>(
    rt: &R,
    alloc: Global,
    sink: S,
) -> Result<Traced, Fail>
    requires sound { S.is_sound sink ≡ true }
    requires few { S.failures sink + 1 < 2 ^ 64 }
{
    let mut end = three_records(alloc)?;
    let (_sink, traced) = write_trace(rt, alloc, &mut end, limits()?, sink);
    Ok(traced)
}

/// How many of the three frames are whole in a front of the trace.
fn whole_in_front(bytes: u64) -> u64 {
    match bytes {
        0..=41 => 0,
        42..=59 => 1,
        60..=69 => 2,
        _ => 3,
    }
}

/// Whether a sink has these bytes after so many writes and failures, and so many whole records, with this fault, are told of them. All
/// three records were received.
fn is_traced(
    rt: &impl Abort,
    ended: &(MemorySink, Traced),
    bytes: &[u8],
    writes: u64,
    failures: u64,
    whole: u64,
    fault: Option<TraceFault>,
) -> Result<(), Fail> {
    let (sink, traced) = ended;
    assert_eq!(rt; sink.bytes(), bytes);
    assert_eq!(rt; sink.writes(), writes);
    assert_eq!(rt; sink.failures(), failures);
    assert_eq!(rt; traced.whole, whole);
    assert_eq!(rt; traced.bytes, bytes.len() as u64);
    assert_eq!(rt; traced.fault, fault);
    assert_eq!(rt; traced.received.len(), 3);
    Ok(())
}

#[test]
fn trace_is_written_at_once_and_synced(rt: HostRuntime) -> Result<(), Fail> {
    let ended = traced_by(&rt, rt.alloc(), Manner::sound())?;
    is_traced(&rt, &ended, TRACE_2.as_slice(), 1, 0, 3, None)
}

/// What becomes of three long records in a sink over memory that is sound.
fn long_traced<R: Wait + Clock>(rt: &R, alloc: Global) -> Result<(MemorySink, Traced), Fail> {
    let first = long_record(alloc)?;
    let second = long_record(alloc)?;
    let third = long_record(alloc)?;
    let mut end = ring_of(alloc, first, second, third)?;
    let sink = MemorySink::new(alloc, Manner::sound());
    Ok(write_trace(rt, alloc, &mut end, limits()?, sink))
}

/// Whether three long records are whole after three writes.
fn is_long(rt: &impl Abort, ended: &(MemorySink, Traced)) -> Result<(), Fail> {
    let (sink, traced) = ended;
    assert_eq!(rt; sink.writes(), 3);
    assert_eq!(rt; traced.whole, 3);
    assert_eq!(rt; traced.bytes, 24 + 3 * 65_562);
    assert_eq!(rt; traced.fault, None);
    Ok(())
}

#[test]
fn long_records_are_written_while_others_come(rt: HostRuntime) -> Result<(), Fail> {
    let ended = long_traced(&rt, rt.alloc())?;
    is_long(&rt, &ended)
}

/// A record of a write of 65,536 bytes that is answered with as many. Its frame would be longer than one may be.
fn record_without_a_frame(alloc: Global) -> Result<Arc<Record>, Fail> {
    let call = Call::Write {
        fd: 3,
        bytes: Payload::same(7, 65_536),
    };
    record_of(
        alloc,
        Act::Call(call),
        Reply::Data(Content::same(7, 65_536)),
    )
}

/// What becomes of three records in a sink over memory that is sound, if the second has no frame.
fn unframed_traced<R: Wait + Clock>(rt: &R, alloc: Global) -> Result<(MemorySink, Traced), Fail> {
    let join = record_of(alloc, Act::Join, Reply::Number(0))?;
    let exit = record_of(alloc, Act::Exit, Reply::Done)?;
    let mut end = ring_of(alloc, join, record_without_a_frame(alloc)?, exit)?;
    let sink = MemorySink::new(alloc, Manner::sound());
    Ok(write_trace(rt, alloc, &mut end, limits()?, sink))
}

#[test]
fn record_without_a_frame_ends_a_trace(rt: HostRuntime) -> Result<(), Fail> {
    let ended = unframed_traced(&rt, rt.alloc())?;
    is_traced(&rt, &ended, &[], 0, 0, 0, Some(TraceFault::Unspellable))
}

#[test]
fn sink_takes_thirty_bytes_and_fails(rt: HostRuntime) -> Result<(), Fail> {
    let ended = traced_by(&rt, rt.alloc(), Manner::failing_at(2, 30))?;
    is_traced(
        &rt,
        &ended,
        &TRACE_2[..30],
        2,
        1,
        0,
        Some(TraceFault::Write),
    )
}

/// The trace in a sink that takes byte by byte, and fails after so many, which are not all.
fn fails_after<R: Wait + Clock + Abort>(rt: &R, alloc: Global, taken: u64) -> Result<(), Fail>
    requires { taken < 70 }
{
    let ended = traced_by(rt, alloc, Manner::failing_at(taken + 1, 1))?;
    let front = &TRACE_2[..taken as usize];
    let fault = Some(TraceFault::Write);
    is_traced(
        rt,
        &ended,
        front,
        taken + 1,
        1,
        whole_in_front(taken),
        fault,
    )
}

#[test]
fn sink_fails_at_each_byte(rt: HostRuntime) -> Result<(), Fail> {
    for taken in 0u64..70 {
        fails_after(&rt, rt.alloc(), taken)?;
    }
    let ended = traced_by(&rt, rt.alloc(), Manner::failing_at(71, 1))?;
    is_traced(&rt, &ended, TRACE_2.as_slice(), 70, 0, 3, None)
}

#[test]
fn sink_refuses_everything(rt: HostRuntime) -> Result<(), Fail> {
    let ended = traced_by(&rt, rt.alloc(), Manner::refusing())?;
    is_traced(&rt, &ended, &[], 1, 1, 0, Some(TraceFault::Write))
}

#[test]
fn sink_fails_to_sync(rt: HostRuntime) -> Result<(), Fail> {
    let ended = traced_by(&rt, rt.alloc(), Manner::unsyncable())?;
    is_traced(
        &rt,
        &ended,
        TRACE_2.as_slice(),
        1,
        1,
        3,
        Some(TraceFault::Sync),
    )
}

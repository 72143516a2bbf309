//! A trace that is being written.

ghost use Rattle.std.specs.Prelude.{◌≡◌, ◌+◌, ◌-◌, ◌<◌, ◌^◌, ◌⊎◌, [], Some, None, true, false, map, length, IfOk};
ghost use Rattle.std.specs.Arc.{arc_value};
ghost use Rattle.call_types.specs.declared.limits.TheConstants.{RECORDS_MAX};
ghost use Rattle.call_types.specs.declared.limits.Limits.{Limits};
ghost use Rattle.frame_codec.specs.Trace.{header_2, is_told, told_of, text, whole_in};
ghost use Rattle.frame_codec.specs.declared.trace.ToldLimits.{ToldLimits};
ghost use Rattle.trace_writer.specs.declared.traced.TraceFault.TheVariants as faults;
ghost use Rattle.trace_writer.specs.Proved.Tracing.{Keeps, Stays, Flushes, IsTraceOf, MakesFrame, Syncs};

use crate::sink::{Sink, write_all};
use crate::traced::{TraceFault, Traced, whole_records};
use call_types::act::Record;
use call_types::limits::Limits;
use frame_codec::encode::{RECORD_FRAME_MAX, encode_record};
use frame_codec::fault::EncodeFault;
use frame_codec::trace::{HEADER_2_LENGTH, ToldLimits, headers_are_read, put_header};
use std::alloc::{AllocError, Global};
use std::marker::Model;
use std::snapshot::Snapshot;
use std::sync::Arc;

/// What is not written yet is written once it is so many bytes.
const PIECE: usize = 65_536;

/// A trace that is being written. Contracts see it as a `TracerState`.
pub(crate) struct Tracer<S: Sink> {
    /// What the trace tells of the limits of its run.
    told: Snapshot<ToldLimits>,
    /// The sink as it was at first.
    begun: Snapshot<S>,
    sink: S,
    /// What is not written yet.
    unsent: Vec<u8>,
    /// How many bytes were written.
    written: u64,
    kept: Vec<Arc<Record>>,
    fault: Option<TraceFault>,
    /// A record could not be kept, so no later one is.
    is_torn: bool,
}

impl<S: Sink> Model for Tracer<S> {
    ghost use Rattle.std.specs.Prelude.{map};
    ghost use Rattle.std.specs.Arc.{arc_value};
    ghost use Rattle.trace_writer.specs.TracerState.{TracerState};
    ghost use Rattle.trace_writer.specs.Proved.TracerInside.{Writes};

    ghost Value = { TracerState };

    ghost view = { λ t. record { told = t.told.value; base = S.contents t.begun.value; before = S.failures t.begun.value; unsent = t.unsent.items; received = map arc_value t.kept.items; fault = t.fault; is_torn = t.is_torn } };

    ghost invariant = { λ t. Writes t.told.value (S.contents t.begun.value) (S.contents t.sink) (S.failures t.begun.value) (S.failures t.sink) t.unsent.items t.written (map arc_value t.kept.items) t.fault t.is_torn (S.is_sound t.sink) };
}

/// A buffer that holds the header and need not grow: no piece is longer than `PIECE` and one frame.
fn headed_buffer(alloc: Global, told: &ToldLimits) -> Result<Vec<u8>, AllocError>
    requires { is_told told.now ≡ true }
    ensures { IfOk result (λ buffer. buffer.items ≡ header_2 told.now) }
{
    let mut buffer = Vec::with_capacity(alloc, PIECE + RECORD_FRAME_MAX)?;
    put_header(&mut buffer, told)?;
    Ok(buffer)
}

/// The header, still to be written, of a trace without records; or that memory ran out.
fn first_unsent(alloc: Global, told: &ToldLimits) -> (Vec<u8>, Option<TraceFault>)
    requires { is_told told.now ≡ true }
    ensures { (result.1 ≡ None) × (result.0.items ≡ header_2 told.now) ⊎ (result.1 ≡ Some faults.NoMemory) }
{
    match headed_buffer(alloc, told) {
        Ok(buffer) => (buffer, None),
        Err(_) => (Vec::new(alloc), Some(TraceFault::NoMemory)),
    }
}

/// Appends a record's frame, unless something went wrong before; what went wrong.
fn make_frame(unsent: &mut Vec<u8>, told: &Record, fault: Option<TraceFault>) -> Option<TraceFault>
    ensures { MakesFrame unsent.old.items unsent.new.items fault result told.now }
{
    if fault.is_some() {
        return fault;
    }
    match encode_record(unsent, told) {
        Ok(()) => None,
        Err(EncodeFault::Unspellable) => Some(TraceFault::Unspellable),
        Err(EncodeFault::NoMemory) => Some(TraceFault::NoMemory),
    }
}

/// Syncs the sink, unless something went wrong before; what went wrong.
fn sync_unless<S: Sink>(sink: &mut S, fault: Option<TraceFault>) -> Option<TraceFault>
    requires sound { fault ≡ None → S.is_sound sink.old ≡ true }
    requires few { fault ≡ None → S.failures sink.old + 1 < 2 ^ 64 }
    ensures { Syncs (S.contents sink.old) (S.contents sink.new) (S.failures sink.old) (S.failures sink.new) (S.is_synced sink.new) fault result }
{
    if fault.is_some() {
        return fault;
    }
    match sink.sync() {
        Ok(()) => None,
        Err(_) => Some(TraceFault::Sync),
    }
}

/// How many records are whole in so many bytes of their trace, whatever it tells. The bytes are all where nothing went wrong.
fn whole_of(kept: &[Arc<Record>], written: u64, fault: Option<TraceFault>) -> u64
    ensures { (told : ToldLimits) → (fault ≡ None → written ≡ length (text told (map arc_value kept.now))) → result ≡ whole_in (map arc_value kept.now) (written - length (header_2 told)) }
{
    headers_are_read();
    if fault.is_none() {
        return kept.len() as u64;
    }
    whole_records(kept, written.saturating_sub(HEADER_2_LENGTH as u64))
}

impl<S: Sink> Tracer<S> {
    /// A trace without records of a run with these limits, of which the header is not written yet.
    pub(crate) fn new(alloc: Global, limits: Limits, sink: S) -> Self
        requires sound { S.is_sound sink ≡ true }
        requires few { S.failures sink + 1 < 2 ^ 64 }
        ensures told { result.told ≡ told_of limits }
        ensures base { result.base ≡ S.contents sink }
        ensures before { result.before ≡ S.failures sink }
        ensures received { result.received ≡ [] }
        ensures torn { result.is_torn ≡ false }
    {
        headers_are_read();
        let told = ToldLimits::of(limits);
        let begun = Snapshot::of(&sink);
        let (unsent, fault) = first_unsent(alloc, &told);
        Tracer {
            told: Snapshot::of(&told),
            begun,
            sink,
            unsent,
            written: 0,
            kept: Vec::new(alloc),
            fault,
            is_torn: false,
        }
    }

    /// Writes what is not written yet, if it is much.
    pub(crate) fn flush_much(&mut self)
        ensures { Stays self.old self.new }
    {
        if self.unsent.len() >= PIECE {
            self.flush();
        }
    }

    /// Writes what is not written yet, unless something went wrong before.
    pub(crate) fn flush(&mut self)
        ensures { Flushes self.old self.new }
    {
        if self.fault.is_some() {
            return;
        }
        let (count, told) = write_all(&mut self.sink, self.unsent.as_slice());
        self.written += count as u64;
        self.unsent.clear();
        if told.is_err() {
            self.fault = Some(TraceFault::Write);
        }
    }

    /// Keeps a record and appends its frame, where there is memory. After a fault no frame is made, and where a record can't be kept, no
    /// later one is.
    pub(crate) fn keep(&mut self, item: Arc<Record>)
        requires { length self.old.received < RECORDS_MAX }
        ensures { Keeps self.old self.new (arc_value item) }
    {
        if self.is_torn {
            return;
        }
        if self.kept.reserve(1).is_err() {
            self.is_torn = true;
            self.fault = Some(TraceFault::NoMemory);
            return;
        }
        let told = &*item;
        self.fault = make_frame(&mut self.unsent, told, self.fault);
        self.kept.push_reserved(item);
    }

    /// Writes the rest and syncs the sink; the sink, and what became of the trace.
    pub(crate) fn finish(self) -> (S, Traced)
        ensures { IsTraceOf self (S.contents result.0) (S.failures result.0) (S.is_synced result.0) result.1.whole result.1.bytes result.1.fault (map arc_value result.1.received.items) }
    {
        let mut tracer = self;
        tracer.flush();
        let Tracer {
            told: _,
            begun: _,
            mut sink,
            unsent: _,
            written,
            kept,
            fault,
            is_torn: _,
        } = tracer;
        let whole = whole_of(kept.as_slice(), written, fault);
        let fault = sync_unless(&mut sink, fault);
        (
            sink,
            Traced {
                whole,
                bytes: written,
                fault,
                received: kept,
            },
        )
    }
}

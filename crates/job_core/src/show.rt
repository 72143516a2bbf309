//! A trace, shown as its bytes come: the lines of its whole records, and what is left over.

ghost use Rattle.std.specs.Prelude.{◌≡◌, ◌+◌, ◌<◌, ◌^◌, None, length, IfOk};
ghost use Rattle.job_core.specs.Reads.{ReadsFew};
ghost use Rattle.job_core.specs.Show.{ShowEnds};
ghost use Rattle.job_core.specs.ShownState.{fresh_shown};
ghost use Rattle.job_core.specs.Proved.Showing.{ShowsPiece, TakesBody, TakesPiece, end_with, fault_at, left_over};

use crate::job_end::JobEnd;
use crate::output::write_lines;
use crate::shown::Lines;
use audit_core::audit::{READ_LENGTH, READS_MAX};
use audit_core::laws::broken_stays;
use command_line::form::Form;
use frame_codec::decoder::{Decoder, Progress};
use frame_codec::frame_kind::Records;
use frame_codec::laws::pieces_go_on;
use frame_codec::trace::{HeaderFront, Heading, headers_go_on};
use logged_streams::reader::LoggedReader;
use logged_streams::reading::{ReadEnd, Takes, read_all};
use logged_streams::writer::LoggedWriter;
use std::alloc::{AllocError, Global};
use std::io::{Read, Write};
use std::marker::Model;

/// A trace that is being shown. It holds less than its header or one frame, and keeps no record.
#[derive(Drop)]
struct ShownTrace {
    front: HeaderFront,
    /// How many bytes the header has, once it is whole.
    headed: Option<usize>,
    decoder: Decoder<Records>,
    lines: Lines,
}

impl Model for ShownTrace {
    ghost use Rattle.job_core.specs.ShownState.{ShownState};

    ghost Value = { ShownState };

    ghost view = { λ t. record { front = t.front; headed = t.headed; decoder = t.decoder; lines = t.lines } };
}

/// The byte of the trace at which a fault is, from the byte after the header that the decoder tells, and the header's length.
fn fault_at(told: Progress, headed: usize) -> Option<u64>
    ensures { result ≡ fault_at told headed }
{
    match told {
        Progress::More => None,
        Progress::Malformed { at } | Progress::TooLong { at } => {
            Some(at.saturating_add(headed as u64))
        }
    }
}

/// How a job ends that leaves so many bytes over.
fn end_with(left: u64) -> JobEnd
    ensures { result ≡ end_with left }
{
    match left {
        0 => JobEnd::Done,
        bytes => JobEnd::Rest { bytes },
    }
}

impl ShownTrace {
    /// Before the first byte.
    fn new(alloc: Global, form: Form) -> Self
        ensures { result ≡ fresh_shown form }
    {
        ShownTrace {
            front: HeaderFront::new(alloc),
            headed: None,
            decoder: Decoder::new(alloc),
            lines: Lines::new(alloc, form),
        }
    }

    /// Takes bytes that come after a header of this length, and appends the lines of the records that they complete: where the first
    /// fault is, if there is one.
    fn take_body(
        &mut self,
        out: &mut Vec<u8>,
        piece: &[u8],
        headed: usize,
    ) -> Result<Option<u64>, AllocError>
        requires few { self.old.lines.place + length self.old.decoder.held + length piece.now < 2 ^ 64 }
        ensures headed { self.new.headed ≡ self.old.headed }
        ensures takes { IfOk result (λ found. TakesBody headed piece.now self.old self.new out.old.items out.new.items found) }
    {
        pieces_go_on::<Records>();
        let fed = self.decoder.feed(piece)?;
        self.lines.put_all(out, fed.values.as_slice())?;
        Ok(fault_at(fed.progress, headed))
    }

    /// Takes the next bytes of a trace whose header is not whole, as below.
    fn take_head(&mut self, out: &mut Vec<u8>, piece: &[u8]) -> Result<Option<u64>, AllocError>
        requires head { self.old.headed ≡ None }
        requires few { self.old.lines.place + length self.old.decoder.held + length piece.now < 2 ^ 64 }
        ensures { IfOk result (λ found. TakesPiece piece.now self.old self.new out.old.items out.new.items found) }
    {
        headers_go_on();
        // it holds no whole header, so what comes after one is no longer than the piece
        let _met = self.front.as_slice();
        match self.front.take(piece)? {
            Heading::Unheaded => Ok(Some(0)),
            Heading::Short => Ok(None),
            Heading::Headed { length, rest, .. } => {
                self.headed = Some(length);
                self.take_body(out, rest, length)
            }
        }
    }

    /// Takes the next bytes of the trace, and appends the lines of the records that they complete: where the first fault is, if there
    /// is one.
    fn take(&mut self, out: &mut Vec<u8>, piece: &[u8]) -> Result<Option<u64>, AllocError>
        requires few { self.old.lines.place + length self.old.decoder.held + length piece.now < 2 ^ 64 }
        ensures { IfOk result (λ found. TakesPiece piece.now self.old self.new out.old.items out.new.items found) }
    {
        headers_go_on();
        match self.headed {
            None => self.take_head(out, piece),
            Some(headed) => self.take_body(out, piece, headed),
        }
    }

    /// How many bytes are left over, if no byte comes after those that were taken.
    fn left_over(&self) -> u64
        ensures { result ≡ left_over self.now }
    {
        match self.headed {
            None => self.front.as_slice().len() as u64,
            Some(_) => self.decoder.held_len() as u64,
        }
    }
}

/// Writes the lines of the records that a piece of a trace completes: how the job ended, if it did.
fn show_piece<W: Write>(
    trace: &mut ShownTrace,
    out: &mut Vec<u8>,
    piece: &[u8],
    writer: &mut LoggedWriter<W>,
) -> Option<JobEnd>
    requires few { trace.old.lines.place + length trace.old.decoder.held + length piece.now < 2 ^ 64 }
    ensures { ShowsPiece piece.now trace.old trace.new writer.old writer.new result }
{
    out.clear();
    let found = match trace.take(out, piece) {
        Ok(found) => found,
        Err(_) => return Some(JobEnd::NoMemory),
    };
    if let Err(ended) = write_lines(writer, out.as_slice()) {
        return Some(ended);
    }
    match found {
        Some(at) => Some(JobEnd::Malformed { at }),
        None => None,
    }
}

/// A trace that is shown while it is read, and the lines of a piece.
#[derive(Drop)]
struct Showing {
    trace: ShownTrace,
    out: Vec<u8>,
}

impl<W: Write> Takes<LoggedWriter<W>> for Showing {
    ghost use Rattle.job_core.specs.ShownState.{HasShown, HasStopped};

    type Told = JobEnd;

    ghost has_taken = { λ first was showing is bytes. HasShown first.trace was showing.trace is bytes };

    ghost has_told = { λ first was _ is bytes ended. HasStopped first.trace was is bytes ended };

    fn take(&mut self, writer: &mut LoggedWriter<W>, piece: &[u8]) -> Option<JobEnd> {
        broken_stays();
        headers_go_on();
        match show_piece(&mut self.trace, &mut self.out, piece, writer) {
            Some(ended) => Some(ended),
            None => None,
        }
    }
}

/// Writes the lines of the whole records of the trace that a reader gives, unjudged, while its bytes come. It is read as often as an audit
/// may. Of the trace it holds one piece, one frame and the children that are not attached, however long the trace is.
pub fn show<R: Read, W: Write>(
    alloc: Global,
    reader: &mut LoggedReader<R>,
    writer: &mut LoggedWriter<W>,
    form: Form,
) -> JobEnd
    ensures ends { ShowEnds form reader.old.remaining writer.old writer.new result }
    ensures reads { ReadsFew READS_MAX reader.old.log reader.new.log result }
{
    broken_stays();
    headers_go_on();
    let _few = reader.log().interruptions();
    let mut buffer = match vec![in alloc; 0u8; READ_LENGTH] {
        Ok(buffer) => buffer,
        Err(_) => return JobEnd::NoMemory,
    };
    let mut showing = Showing {
        trace: ShownTrace::new(alloc, form),
        out: Vec::new(alloc),
    };
    match read_all(
        reader,
        &mut showing,
        writer,
        buffer.as_mut_slice(),
        READS_MAX,
    ) {
        ReadEnd::AtEnd => end_with(showing.trace.left_over()),
        ReadEnd::CannotRead => JobEnd::CannotRead,
        ReadEnd::Told(ended) => ended,
    }
}

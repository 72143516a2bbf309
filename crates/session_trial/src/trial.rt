//! One session over memory.

ghost use Rattle.std.specs.Prelude.{◌≡◌};

use crate::job::Job;
use crate::shown::{put_log, put_number, put_word, put_written};
use crate::stranger::{Forgets, Stranger};
use crate::trial_fault::TrialFault;
use byte_ledger::ledgers::Blanks;
use byte_ledger::tallies::Sums;
use call_types::act::ScriptAct;
use call_types::limits::Limits;
use logged_streams::reader::LoggedReader;
use record_book::book::Book;
use run_history::front::Begun;
use script_text::lines::{write_record, write_totals};
use session_core::end::End;
use session_core::gate::OpenGate;
use session_core::memory::{MemoryReader, MemoryWriter};
use session_core::serve::{Served, serve};
use session_core::starter::SystemThreads;
use std::alloc::{AllocError, Global};
use std::sync::{Arc, Wait};
use std::thread::Threads;
use system_lock::kernel::AdmissionTo;
use system_lock::one_book::{OneBook, Unlimited};
use system_lock::run::Run;
use system_lock::run_seat::SpentRunSeat;

/// Appends the line of an end.
fn put_end(out: &mut Vec<u8>, end: End) -> Result<(), AllocError> {
    match end {
        End::Closed => put_word(out, b"end Closed\n"),
        End::ReadFault => put_word(out, b"end ReadFault\n"),
        End::WriteFault { sent } => put_number(out, b"end WriteFault ", sent),
        End::Malformed => put_word(out, b"end Malformed\n"),
        End::Ahead => put_word(out, b"end Ahead\n"),
        End::RunFull => put_word(out, b"end RunFull\n"),
        End::NoMemory => put_word(out, b"end NoMemory\n"),
        End::Foreign => put_word(out, b"end Foreign\n"),
        End::NoThread => put_word(out, b"end NoThread\n"),
    }
}

/// Appends the lines of a seat's receipts.
fn put_seat<L: Run>(
    out: &mut Vec<u8>,
    seat: &Result<SpentRunSeat<L>, AdmissionTo<L>>,
) -> Result<(), AllocError> {
    match seat {
        Ok(seat) => {
            for receipt in seat.receipts() {
                write_record(out, receipt.place(), receipt.record())?;
            }
            Ok(())
        }
        Err(_) => put_word(out, b"no seat\n"),
    }
}

/// Appends the line of what became of the reads.
fn put_reads(
    out: &mut Vec<u8>,
    reader: &Option<LoggedReader<MemoryReader>>,
) -> Result<(), AllocError> {
    match reader {
        Some(reader) => put_log(out, b"reads ", reader.log()),
        None => put_word(out, b"no reader\n"),
    }
}

/// Appends the lines of a session that is over.
fn put_served<L: Run>(
    out: &mut Vec<u8>,
    served: &Served<MemoryReader, MemoryWriter, L>,
) -> Result<(), AllocError> {
    put_written(out, served.writer.get_ref().bytes())?;
    put_end(out, served.end)?;
    put_number(out, b"answers ", served.answers.len() as u64)?;
    put_reads(out, &served.reader)?;
    put_log(out, b"writes ", served.writer.log())?;
    put_number(out, b"flushes ", served.writer.get_ref().flushes())?;
    put_seat(out, &served.seat)
}

/// The lines of a session that is over, and of what its book counts.
fn lines_of<L: Run>(
    alloc: Global,
    served: &Served<MemoryReader, MemoryWriter, L>,
    counts: Sums,
) -> Result<Vec<u8>, TrialFault> {
    let mut lines = Vec::new(alloc);
    put_served(&mut lines, served)?;
    write_totals(
        &mut lines,
        counts.records,
        counts.bytes_in,
        counts.bytes_out,
    )?;
    Ok(lines)
}

/// A kernel of a new book, counted by these ledgers, that forgets so much and runs these acts when a call first waits.
fn kernel_of<L: Run>(
    alloc: Global,
    limits: Limits,
    forgets: Forgets,
    acts: Vec<ScriptAct>,
    blanks: Blanks,
) -> Result<Stranger<L>, AllocError>
    requires { blanks ≡ L.names }
{
    // A match, since `?` would move the book three times more.
    match Book::<Unlimited<L>>::new(alloc, limits, blanks) {
        Ok(book) => Ok(Stranger::new(OneBook::new(alloc, book, acts), forgets)),
        Err(error) => Err(error),
    }
}

/// Such a kernel, which can be shared.
fn shared_kernel<L: Run + Send + Sync + 'static>(
    alloc: Global,
    limits: Limits,
    forgets: Forgets,
    acts: Vec<ScriptAct>,
    blanks: Blanks,
) -> Result<Arc<Stranger<L>>, AllocError>
    requires { blanks ≡ L.names }
{
    match kernel_of::<L>(alloc, limits, forgets, acts, blanks) {
        Ok(kernel) => Arc::new(alloc, kernel).map_err(AllocError::from),
        Err(error) => Err(error),
    }
}

/// The lines of what comes of a session, counted by these ledgers.
pub(crate) fn tried<
    Rt: Threads + Wait + Copy + Drop + Send + Sync + 'static,
    L: Run + Send + Sync + 'static,
>(
    rt: Rt,
    alloc: Global,
    job: Job,
    input: Vec<u8>,
    blanks: Blanks,
    begun: Begun,
) -> Result<Vec<u8>, TrialFault>
    requires ledgers { blanks ≡ L.names }
    requires history { begun.seen.book ≡ L.book }
{
    let kernel = shared_kernel::<L>(alloc, job.limits, job.forgets, job.acts, blanks)?;
    let shared = Arc::try_clone(&kernel)?;
    let reader = MemoryReader::new(input, job.reads);
    let writer = MemoryWriter::new(alloc, job.writes);
    let admission = kernel.admit();
    let (_history, front) = begun.named::<Unlimited<L>>();
    let mut threads = SystemThreads::new();
    let (served, _known) = serve(
        rt,
        alloc,
        &mut threads,
        reader,
        writer,
        shared,
        front,
        admission,
        0,
        OpenGate,
    );
    lines_of(alloc, &served, kernel.counts(&rt))
}

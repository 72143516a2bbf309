//! The audit of a trace, and the line of its verdict.

ghost use Rattle.std.specs.Prelude.{◌≡◌, ◌++◌, IfOk, OnOk};
ghost use Rattle.job_core.specs.Audit.{AuditEnds, expected_word, legal_end, verdict_end, verdict_line};
ghost use Rattle.job_core.specs.Reads.{ReadsFew};

use crate::job_end::JobEnd;
use crate::output::write_lines;
use audit_core::audit::{AuditFault, READS_MAX, audit};
use audit_core::laws::faults_stay;
use audit_core::verdict::{Ending, Verdict};
use call_types::outcome::Outcome;
use command_line::demand::Demand;
use logged_streams::reader::LoggedReader;
use logged_streams::writer::LoggedWriter;
use script_text::lines::write_outcome;
use std::alloc::{AllocError, Global};
use std::io::{Read, Write};

/// Appends the outcome that the model gives, or that it gives none.
fn put_expected(line: &mut Vec<u8>, expected: &Option<Outcome>) -> Result<(), AllocError>
    ensures { OnOk result (line.new.items ≡ line.old.items ++ expected_word expected.now) }
{
    match expected {
        Some(outcome) => write_outcome(line, outcome),
        None => line.extend_from_slice(b"none"),
    }
}

/// The line of the first record that is not what the model gives.
fn illegal_line(
    alloc: Global,
    place: u64,
    expected: &Option<Outcome>,
) -> Result<Vec<u8>, AllocError>
    ensures { IfOk result (λ line. line.items ≡ verdict_line (Verdict.Illegal place expected.now)) }
{
    let mut line = format!(in alloc; "illegal {place} expected ")?.into_bytes();
    put_expected(&mut line, expected)?;
    line.push(b'\n')?;
    Ok(line)
}

/// The line of a verdict.
fn line_of(alloc: Global, verdict: &Verdict) -> Result<Vec<u8>, AllocError>
    ensures { IfOk result (λ line. line.items ≡ verdict_line verdict.now) }
{
    match verdict {
        Verdict::Legal { records, rest } => {
            Ok(format!(in alloc; "legal {records} rest {rest}\n")?.into_bytes())
        }
        Verdict::Illegal { place, expected } => illegal_line(alloc, *place, expected),
        Verdict::Malformed { at } => Ok(format!(in alloc; "malformed {at}\n")?.into_bytes()),
    }
}

/// How an audit of a legal trace ends, with so many whole records and so many bytes after them, where the records end so.
fn legal_end(demand: Demand, records: u64, rest: u64, ending: Ending) -> JobEnd
    ensures { result ≡ legal_end demand records rest ending }
{
    match demand {
        Demand::Legal if records == 0 => JobEnd::NothingJudged,
        Demand::Legal => JobEnd::Done,
        Demand::Complete => match ending {
            Ending::Open => JobEnd::Incomplete,
            Ending::Closed if rest == 0 => JobEnd::Done,
            Ending::Closed => JobEnd::Incomplete,
        },
    }
}

/// How an audit ends whose verdict is written.
fn end_of(demand: Demand, verdict: &Verdict, ending: Ending) -> JobEnd
    ensures { result ≡ verdict_end demand verdict.now ending }
{
    match verdict {
        Verdict::Legal { records, rest } => legal_end(demand, *records, *rest, ending),
        Verdict::Illegal { .. } => JobEnd::IllegalTrace,
        Verdict::Malformed { .. } => JobEnd::MalformedTrace,
    }
}

/// Audits the trace that a reader gives, writes the line of the verdict, and ends by what is demanded. What comes after the first fault
/// need not be read.
pub fn audit_file<R: Read, W: Write>(
    alloc: Global,
    reader: &mut LoggedReader<R>,
    writer: &mut LoggedWriter<W>,
    demand: Demand,
) -> JobEnd
    ensures ends { AuditEnds demand reader.old.remaining writer.old writer.new result }
    ensures reads { ReadsFew READS_MAX reader.old.log reader.new.log result }
{
    faults_stay();
    let found = match audit(alloc, reader) {
        Ok(found) => found,
        Err(AuditFault::Read) => return JobEnd::CannotRead,
        Err(AuditFault::NoMemory) => return JobEnd::NoMemory,
    };
    let line = match line_of(alloc, &found.verdict) {
        Ok(line) => line,
        Err(_) => return JobEnd::NoMemory,
    };
    match write_lines(writer, line.as_slice()) {
        Ok(()) => end_of(demand, &found.verdict, found.ending),
        Err(ended) => ended,
    }
}

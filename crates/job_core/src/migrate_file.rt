//! A trace that is written anew in a later version, and the line that tells of it.

ghost use Rattle.std.specs.Prelude.{◌≡◌, ℕ, List, IfOk};
ghost use Rattle.job_core.specs.Migrate.{MigrateEnds, MigrationsKeepVerdicts, migrated_line, stopped_line};
ghost use Rattle.job_core.specs.Output.{WritesLine};
ghost use Rattle.job_core.specs.Reads.{ReadsFew};

use crate::job_end::JobEnd;
use crate::output::write_lines;
use audit_core::laws::broken_stays;
use frame_codec::laws::{no_frame_begins_another, stops_are_no_frames};
use frame_codec::trace::headers_are_read;
use logged_streams::reader::LoggedReader;
use logged_streams::writer::LoggedWriter;
use std::alloc::{AllocError, Global};
use std::io::{Read, Write};
use trace_writer::migrate::{MigrateFault, Migrated, READS_MAX, migrate};

/// Where all of a trace was written anew, the verdicts on it are those on what was written. It does nothing.
pub fn migrations_keep_verdicts()
    ensures { MigrationsKeepVerdicts }
{
    headers_are_read();
    no_frame_begins_another();
    stops_are_no_frames();
}

/// The line of a migration.
fn line_of(alloc: Global, migrated: Migrated) -> Result<Vec<u8>, AllocError>
    ensures { IfOk result (λ line. line.items ≡ migrated_line migrated.records migrated.rest) }
{
    let Migrated { records, rest } = migrated;
    Ok(format!(in alloc; "migrated {records} rest {rest}\n")?.into_bytes())
}

/// The line of a migration that met a fault at this byte.
fn stopped_line(alloc: Global, at: u64) -> Result<Vec<u8>, AllocError>
    ensures { IfOk result (λ line. line.items ≡ stopped_line at) }
{
    Ok(format!(in alloc; "malformed {at}\n")?.into_bytes())
}

/// Writes a line that was made, if memory did not run out for it: how a job ends that ends so once the line is written.
fn tell<O: Write>(
    out: &mut LoggedWriter<O>,
    made: Result<Vec<u8>, AllocError>,
    end: JobEnd,
) -> JobEnd
    ensures { (line : List ℕ) → IfOk made (λ l. l.items ≡ line) → WritesLine line end out.old out.new result }
{
    let line = match made {
        Ok(line) => line,
        Err(_) => return JobEnd::NoMemory,
    };
    match write_lines(out, line.as_slice()) {
        Ok(()) => end,
        Err(ended) => ended,
    }
}

/// Writes the trace of version 1 that a reader gives as one of version 2 to a writer, and the line that tells of it to another. After
/// a fault in the trace the frames before it are written, and the line tells where it is.
pub fn migrate_file<R: Read, W: Write, O: Write>(
    alloc: Global,
    reader: &mut LoggedReader<R>,
    writer: &mut LoggedWriter<W>,
    out: &mut LoggedWriter<O>,
) -> JobEnd
    ensures ends { MigrateEnds reader.old.remaining (record { was = writer.old; is = writer.new; old = out.old; new = out.new }) result }
    ensures reads { ReadsFew READS_MAX reader.old.log reader.new.log result }
{
    broken_stays();
    match migrate(alloc, reader, writer) {
        Ok(migrated) => tell(out, line_of(alloc, migrated), JobEnd::Done),
        Err(MigrateFault::Malformed { at }) => {
            tell(out, stopped_line(alloc, at), JobEnd::MalformedTrace)
        }
        Err(MigrateFault::Read) => JobEnd::CannotRead,
        Err(MigrateFault::Write { .. }) => JobEnd::CannotWrite,
        Err(MigrateFault::NoMemory) => JobEnd::NoMemory,
    }
}

//! A trace of version 1, read to its end or to the first fault, and written as one of version 2.

ghost use Rattle.std.specs.Prelude.{◌≡◌, ◌+◌, ◌<◌, ◌≤◌, ◌^◌, length};
ghost use Rattle.trace_writer.specs.Migrations.{Migrates};
ghost use Rattle.trace_writer.specs.Proved.Migrating.{IsUnderWay, WritesOut, WritesPiece, WritesRest};

use crate::migration::Migration;
use logged_streams::reader::LoggedReader;
use logged_streams::reading::{ReadEnd, Takes, read_all};
use logged_streams::stream_log::INTERRUPTIONS_MAX;
use logged_streams::writer::LoggedWriter;
use std::alloc::{AllocError, Global};
use std::io::{Read, Write};

/// How many reads a migration has.
pub const READS_MAX: u32 = 16_777_216;

/// How many bytes a read asks for.
pub const READ_LENGTH: usize = 32_768;

/// How often a migration reads, and how much. Definitions name the constants, so a wrong number is seen here. It does nothing.
pub fn reads_of_a_migration()
    ensures most { READS_MAX ≡ 16777216 }
    ensures long { READ_LENGTH ≡ 32768 }
{}

/// What was migrated.
#[derive(Clone, Copy, Debug, PartialEq, Eq)]
pub struct Migrated {
    /// How many records the trace has.
    pub records: u64,
    /// How many bytes come after them: those of a frame, or of the header, that is not finished.
    pub rest: u64,
}

/// Why a trace is not migrated, or not to its end.
#[derive(Clone, Copy, Debug, PartialEq, Eq)]
pub enum MigrateFault {
    /// It does not begin with the header of version 1, and `at` is 0; or a frame at fault begins at this byte of it, from 0. The frames
    /// before that are written.
    Malformed { at: u64 },
    /// The reader failed, was interrupted sixteen times in a row, or was not at its end after 16,777,216 reads.
    Read,
    /// The writer failed, or was interrupted sixteen times in a row, after so many bytes.
    Write { sent: u64 },
    /// Memory ran out.
    NoMemory,
}

impl From<AllocError> for MigrateFault {
    ghost use Rattle.std.specs.Prelude.{◌≡◌};
    ghost use Rattle.trace_writer.specs.declared.migrate.MigrateFault.TheVariants.{NoMemory};

    ghost from_gives = { λ _ fault. fault ≡ NoMemory };

    fn from(_error: AllocError) -> MigrateFault {
        MigrateFault::NoMemory
    }
}

/// Writes bytes after so many others.
fn write_out<W: Write>(
    writer: &mut LoggedWriter<W>,
    bytes: &[u8],
    before: u64,
) -> Result<(), MigrateFault>
    requires { before + length bytes.now < 2 ^ 64 }
    ensures { WritesOut writer.old writer.new bytes.now before result }
{
    match writer.write_all(bytes) {
        (_, Ok(())) => Ok(()),
        (count, Err(_)) => Err(MigrateFault::Write {
            sent: before + count as u64,
        }),
    }
}

/// Takes a piece of the trace, and writes what is whole with it.
fn write_piece<W: Write>(
    writer: &mut LoggedWriter<W>,
    migration: &mut Migration,
    out: &mut Vec<u8>,
    piece: &[u8],
) -> Result<(), MigrateFault>
    requires { IsUnderWay migration.old (length piece.now) }
    ensures { WritesPiece piece.now writer.old writer.new migration.old migration.new result }
{
    let sent = migration.sent();
    let fault = migration.take(out, piece)?;
    write_out(writer, out.as_slice(), sent)?;
    match fault {
        None => Ok(()),
        Some(at) => Err(MigrateFault::Malformed { at }),
    }
}

/// Writes what is left over at the end of the trace.
fn write_rest<W: Write>(
    writer: &mut LoggedWriter<W>,
    migration: &Migration,
) -> Result<Migrated, MigrateFault>
    requires { IsUnderWay migration.now 0 }
    ensures { WritesRest writer.old writer.new migration.now result }
{
    let rest = migration.left_over();
    write_out(writer, rest, migration.sent())?;
    Ok(Migrated {
        records: migration.records(),
        rest: rest.len() as u64,
    })
}

/// A migration that is written while its trace is read, and what is to be written of a piece.
#[derive(Drop)]
struct Migrating {
    migration: Migration,
    out: Vec<u8>,
}

impl<W: Write> Takes<LoggedWriter<W>> for Migrating {
    ghost use Rattle.trace_writer.specs.MigrationState.{HasStopped, HasWritten};

    type Told = MigrateFault;

    ghost has_taken = { λ _ was migrating is bytes. HasWritten was migrating.migration is bytes };

    ghost has_told = { λ _ was _ is bytes fault. HasStopped was is bytes fault };

    fn take(&mut self, writer: &mut LoggedWriter<W>, piece: &[u8]) -> Option<MigrateFault> {
        match write_piece(writer, &mut self.migration, &mut self.out, piece) {
            Ok(()) => None,
            Err(fault) => Some(fault),
        }
    }
}

/// Writes the trace of version 1 that a reader gives as one of version 2: the new header, which tells the limits that all runs of version 1
/// had, and not how many records they could have; then the frames as they were read; and at the end what is left of a frame that is not
/// finished. A trace that ends within its header is written as it is. Whether its records are legal is not looked at. Of the trace it holds
/// one piece and one frame, however long the trace is.
pub fn migrate<R: Read, W: Write>(
    alloc: Global,
    reader: &mut LoggedReader<R>,
    writer: &mut LoggedWriter<W>,
) -> Result<Migrated, MigrateFault>
    ensures few { reader.new.log.calls ≤ reader.old.log.calls + READS_MAX }
    ensures few_interrupted { reader.new.log.interruptions ≤ INTERRUPTIONS_MAX }
    ensures migrates { Migrates reader.old reader.new writer.old writer.new result }
{
    let _few = reader.log().interruptions();
    let mut buffer = vec![in alloc; 0u8; READ_LENGTH]?;
    let mut migrating = Migrating {
        migration: Migration::new(alloc),
        out: Vec::new(alloc),
    };
    match read_all(
        reader,
        &mut migrating,
        writer,
        buffer.as_mut_slice(),
        READS_MAX,
    ) {
        ReadEnd::AtEnd => {
            let migrated = write_rest(writer, &migrating.migration)?;
            Ok(migrated)
        }
        ReadEnd::CannotRead => Err(MigrateFault::Read),
        ReadEnd::Told(fault) => Err(fault),
    }
}

//! Traces of version 1 that are written as traces of version 2.

use super::audits::{TRACE, TRACE_2};
use logged_streams::reader::LoggedReader;
use logged_streams::writer::LoggedWriter;
use std::alloc::Global;
use std::io;
use std::io::{Error, ErrorKind, Read, Write};
use std::test::Fail;
use trace_writer::migrate::{MigrateFault, Migrated, migrate};

/// The header of version 2 that tells what version 1 tells: not how many records, pipes of 1,024 bytes and files of 2^20.
const NEW_HEADER: [u8; 24] = [
    0x46, 0x44, 0x54, 0x52, 0x41, 0x43, 0x45, 0x32, // FDTRACE2
    0x00, 0x00, 0x00, 0x00, 0x00, 0x00, 0x04, 0x00, 0x00, 0x00, 0x00, 0x00, 0x00, 0x10, 0x00, 0x00,
];

/// What is told of the migration of what a reader gives, and what was written.
fn migrated<R: Read + Drop>(
    alloc: Global,
    reader: R,
) -> (Result<Migrated, MigrateFault>, LoggedWriter<Vec<u8>>) {
    let mut reader = LoggedReader::new(reader);
    let mut writer = LoggedWriter::new(Vec::new(alloc));
    let told = migrate(alloc, &mut reader, &mut writer);
    (told, writer)
}

/// The new header, and these bytes after it.
fn renewed(alloc: Global, body: &[u8]) -> Result<Vec<u8>, Fail> {
    let mut bytes = Vec::from_slice(alloc, NEW_HEADER.as_slice())?;
    bytes.extend_from_slice(body)?;
    Ok(bytes)
}

#[test]
fn whole_trace_is_migrated(rt: HostRuntime) -> Result<(), Fail> {
    let alloc = rt.alloc();
    let (told, writer) = migrated(alloc, TRACE.as_slice());
    assert_eq!(rt;
        told,
        Ok(Migrated {
            records: 3,
            rest: 0
        })
    );
    let wanted = renewed(alloc, &TRACE[8..])?;
    assert_eq!(rt; writer.get_ref().as_slice(), wanted.as_slice());
    Ok(())
}

#[test]
fn what_is_not_finished_is_migrated(rt: HostRuntime) -> Result<(), Fail> {
    let alloc = rt.alloc();
    let (told, writer) = migrated(alloc, &TRACE[..50]);
    assert_eq!(rt;
        told,
        Ok(Migrated {
            records: 2,
            rest: 6
        })
    );
    let wanted = renewed(alloc, &TRACE[8..50])?;
    assert_eq!(rt; writer.get_ref().as_slice(), wanted.as_slice());
    let (told, writer) = migrated(alloc, &TRACE[..7]);
    assert_eq!(rt;
        told,
        Ok(Migrated {
            records: 0,
            rest: 7
        })
    );
    assert_eq!(rt; writer.get_ref().as_slice(), b"FDTRACE".as_slice());
    Ok(())
}

#[test]
fn frames_before_a_fault_are_migrated(rt: HostRuntime) -> Result<(), Fail> {
    let alloc = rt.alloc();
    let mut bytes = TRACE;
    bytes[53] = 0;
    let (told, writer) = migrated(alloc, bytes.as_slice());
    assert_eq!(rt; told, Err(MigrateFault::Malformed { at: 44 }));
    let wanted = renewed(alloc, &TRACE[8..44])?;
    assert_eq!(rt; writer.get_ref().as_slice(), wanted.as_slice());
    let (told, writer) = migrated(alloc, TRACE_2.as_slice());
    assert_eq!(rt; told, Err(MigrateFault::Malformed { at: 0 }));
    assert!(rt; writer.get_ref().is_empty());
    Ok(())
}

/// A reader that gives the trace once, and then fails.
#[derive(Drop)]
struct FailingReader {
    is_read: bool,
}

impl Read for FailingReader {
    ghost use Rattle.std.specs.Prelude.{None};

    ghost remaining = { λ r. None };

    fn read(&mut self, buffer: &mut [u8]) -> io::Result<usize> {
        if self.is_read {
            return Err(Error::from(ErrorKind::TimedOut));
        }
        self.is_read = true;
        TRACE.as_slice().read(buffer)
    }
}

/// A writer that takes so many bytes more, and then fails.
#[derive(Drop)]
struct FullWriter {
    left: usize,
}

impl Write for FullWriter {
    ghost use Rattle.std.specs.Prelude.{None};

    ghost contents = { λ w. None };

    fn write(&mut self, bytes: &[u8]) -> io::Result<usize> {
        let count = bytes.len().min(self.left);
        self.left -= count;
        if count == 0 {
            return Err(Error::from(ErrorKind::StorageFull));
        }
        Ok(count)
    }

    fn flush(&mut self) -> io::Result<()> {
        Ok(())
    }
}

#[test]
fn reader_that_fails_is_told(rt: HostRuntime) -> Result<(), Fail> {
    let alloc = rt.alloc();
    let (told, writer) = migrated(alloc, FailingReader { is_read: false });
    assert_eq!(rt; told, Err(MigrateFault::Read));
    let wanted = renewed(alloc, &TRACE[8..])?;
    assert_eq!(rt; writer.get_ref().as_slice(), wanted.as_slice());
    Ok(())
}

#[test]
fn writer_that_fails_is_told(rt: HostRuntime) {
    for left in 0..70usize {
        let mut reader = LoggedReader::new(TRACE.as_slice());
        let mut writer = LoggedWriter::new(FullWriter { left });
        let told = migrate(rt.alloc(), &mut reader, &mut writer);
        assert_eq!(rt; told, Err(MigrateFault::Write { sent: left as u64 }));
        assert!(rt; writer.log().has_failed());
    }
}

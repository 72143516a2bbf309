//! Audits of traces over memory.

ghost use Rattle.std.specs.Prelude.{◌≡◌, ◌≤◌, length};

use audit_core::audit::{AuditFault, audit};
use audit_core::verdict::Verdict;
use call_types::outcome::{Outcome, Reply};
use logged_streams::reader::LoggedReader;
use std::alloc::{AllocError, Global};
use std::io;
use std::io::{Error, ErrorKind, Read};
use std::test::Fail;

/// The trace of a run in which a process joins, makes a pipe and exits: the header, and frames of 18, 18 and 10 bytes.
pub(super) const TRACE: [u8; 54] = [
    0x46, 0x44, 0x54, 0x52, 0x41, 0x43, 0x45, 0x31, // FDTRACE1
    0x00, 0x00, 0x00, 0x0e, 0x00, 0x00, 0x00, 0x00, 0x01, 0x02, 0x00, 0x00, 0x00, 0x00, 0x00, 0x00,
    0x00, 0x00, // join = 0
    0x00, 0x00, 0x00, 0x0e, 0x00, 0x00, 0x00, 0x00, 0x1a, 0x04, 0x00, 0x00, 0x00, 0x00, 0x00, 0x00,
    0x00, 0x01, // pipe = 0 1
    0x00, 0x00, 0x00, 0x06, 0x00, 0x00, 0x00, 0x00, 0x04, 0x01, // exit = ok
];

/// The same of version 2: 100 records, pipes of 1,024 bytes and files of 2^40, and a header of 24 bytes.
pub(super) const TRACE_2: [u8; 70] = [
    0x46, 0x44, 0x54, 0x52, 0x41, 0x43, 0x45, 0x32, // FDTRACE2
    0x00, 0x00, 0x00, 0x64, 0x00, 0x00, 0x04, 0x00, 0x00, 0x00, 0x01, 0x00, 0x00, 0x00, 0x00, 0x00,
    0x00, 0x00, 0x00, 0x0e, 0x00, 0x00, 0x00, 0x00, 0x01, 0x02, 0x00, 0x00, 0x00, 0x00, 0x00, 0x00,
    0x00, 0x00, // join = 0
    0x00, 0x00, 0x00, 0x0e, 0x00, 0x00, 0x00, 0x00, 0x1a, 0x04, 0x00, 0x00, 0x00, 0x00, 0x00, 0x00,
    0x00, 0x01, // pipe = 0 1
    0x00, 0x00, 0x00, 0x06, 0x00, 0x00, 0x00, 0x00, 0x04, 0x01, // exit = ok
];

/// What an audit says, in numbers.
#[derive(Clone, Copy, Debug, PartialEq, Eq)]
enum Said {
    Legal(u64, u64),
    /// A number is expected at this place.
    Number(u64, u64),
    /// A pair is expected at this place.
    Pair(u64, u32, u32),
    /// No record is expected at this place.
    Nothing(u64),
    /// Another outcome is expected at this place.
    Other(u64),
    Malformed(u64),
    ReadFault,
    NoMemory,
}

/// What is said of a place where this outcome is expected.
fn expected_at(place: u64, expected: &Option<Outcome>) -> Said {
    match expected {
        None => Said::Nothing(place),
        Some(Outcome::Reply(Reply::Number(number))) => Said::Number(place, *number),
        Some(Outcome::Reply(Reply::Pair(reading, writing))) => {
            Said::Pair(place, *reading, *writing)
        }
        Some(_) => Said::Other(place),
    }
}

/// What is said of what a reader gives.
fn said_of<R: Read + Drop>(alloc: Global, reader: R) -> Said {
    let mut reader = LoggedReader::new(reader);
    match audit(alloc, &mut reader) {
        Ok(found) => match found.verdict {
            Verdict::Legal { records, rest } => Said::Legal(records, rest),
            Verdict::Illegal { place, expected } => expected_at(place, &expected),
            Verdict::Malformed { at } => Said::Malformed(at),
        },
        Err(AuditFault::Read) => Said::ReadFault,
        Err(AuditFault::NoMemory) => Said::NoMemory,
    }
}

/// What is said of the trace where this byte is another.
fn said_with(alloc: Global, at: usize, byte: u8) -> Said {
    let mut bytes = TRACE;
    if at < 54 {
        bytes[at] = byte;
    }
    said_of(alloc, bytes.as_slice())
}

/// What is said of the trace of version 2 where this byte is another.
fn said_of_2_with(alloc: Global, at: usize, byte: u8) -> Said {
    let mut bytes = TRACE_2;
    if at < 70 {
        bytes[at] = byte;
    }
    said_of(alloc, bytes.as_slice())
}

/// The trace.
fn trace(alloc: Global) -> Result<Vec<u8>, AllocError> {
    Vec::from_slice(alloc, TRACE.as_slice())
}

/// What is said of the trace with these bytes after it.
fn said_after(alloc: Global, more: &[u8]) -> Result<Said, Fail> {
    let mut bytes = trace(alloc)?;
    bytes.extend_from_slice(more)?;
    Ok(said_of(alloc, bytes.as_slice()))
}

/// How many whole records a front of the trace has, and how many bytes are left.
fn whole_in(len: usize) -> Said {
    match len {
        0..=7 => Said::Legal(0, len as u64),
        8..=25 => Said::Legal(0, (len - 8) as u64),
        26..=43 => Said::Legal(1, (len - 26) as u64),
        44..=53 => Said::Legal(2, (len - 44) as u64),
        _ => Said::Legal(3, 0),
    }
}

#[test]
fn every_front_of_a_trace_is_legal(rt: HostRuntime) -> Result<(), Fail> {
    let alloc = rt.alloc();
    for len in 0..55usize {
        let (front, _) = TRACE.as_slice().split_at(len.min(54));
        assert_eq!(rt; said_of(alloc, front), whole_in(len));
    }
    Ok(())
}

#[test]
fn first_record_that_differs_is_told(rt: HostRuntime) -> Result<(), Fail> {
    let alloc = rt.alloc();
    // The join has the number 1; the writing end is 2; the exit is that of process 1; the pipe is made by process 1.
    assert_eq!(rt; said_with(alloc, 25, 1), Said::Number(0, 0));
    assert_eq!(rt; said_with(alloc, 43, 2), Said::Pair(1, 0, 1));
    assert_eq!(rt; said_with(alloc, 51, 1), Said::Nothing(2));
    assert_eq!(rt; said_with(alloc, 33, 1), Said::Nothing(1));
    // The exit is parked.
    assert_eq!(rt; said_with(alloc, 52, 3), Said::Nothing(2));
    Ok(())
}

#[test]
fn what_comes_after_a_broken_record_is_not_looked_at(rt: HostRuntime) -> Result<(), Fail> {
    let alloc = rt.alloc();
    let mut bytes = TRACE;
    bytes[25] = 1;
    bytes[53] = 0;
    assert_eq!(rt; said_of(alloc, bytes.as_slice()), Said::Number(0, 0));
    bytes[25] = 0;
    assert_eq!(rt; said_of(alloc, bytes.as_slice()), Said::Malformed(44));
    bytes[17] = 9;
    assert_eq!(rt; said_of(alloc, bytes.as_slice()), Said::Malformed(8));
    Ok(())
}

#[test]
fn wrong_header_is_malformed_at_the_first_byte(rt: HostRuntime) -> Result<(), Fail> {
    let alloc = rt.alloc();
    for at in 0..8usize {
        assert_eq!(rt; said_with(alloc, at, 0), Said::Malformed(0));
    }
    assert_eq!(rt; said_with(alloc, 7, 0x33), Said::Malformed(0));
    assert_eq!(rt; said_of(alloc, b"FDTRACX".as_slice()), Said::Malformed(0));
    assert_eq!(rt; said_of(alloc, b"G".as_slice()), Said::Malformed(0));
    Ok(())
}

#[test]
fn header_of_version_2_tells_the_limits(rt: HostRuntime) -> Result<(), Fail> {
    let alloc = rt.alloc();
    assert_eq!(rt; said_of(alloc, TRACE_2.as_slice()), Said::Legal(3, 0));
    assert_eq!(rt; said_of(alloc, &TRACE_2[..23]), Said::Legal(0, 23));
    // With four records the run can be ended after the pipe, with three it cannot; 0 tells nothing.
    assert_eq!(rt; said_of_2_with(alloc, 11, 4), Said::Legal(3, 0));
    assert_eq!(rt; said_of_2_with(alloc, 11, 3), Said::Nothing(1));
    assert_eq!(rt; said_of_2_with(alloc, 11, 0), Said::Legal(3, 0));
    // 268,435,556 records, pipes of 256 bytes, files of 2^40 + 1.
    assert_eq!(rt; said_of_2_with(alloc, 8, 16), Said::Malformed(0));
    assert_eq!(rt; said_of_2_with(alloc, 14, 1), Said::Malformed(0));
    assert_eq!(rt; said_of_2_with(alloc, 23, 1), Said::Malformed(0));
    Ok(())
}

#[test]
fn frame_at_fault_is_told_by_its_place(rt: HostRuntime) -> Result<(), Fail> {
    let alloc = rt.alloc();
    assert_eq!(rt; said_after(alloc, &[0, 0, 0, 0])?, Said::Malformed(54));
    assert_eq!(rt; said_after(alloc, &[0, 1, 2, 0])?, Said::Legal(3, 4));
    assert_eq!(rt; said_after(alloc, &[0, 1, 2, 1])?, Said::Malformed(54));
    assert_eq!(rt;
        said_after(alloc, &[0, 0, 0, 6, 0, 0, 0, 0, 5, 1])?,
        Said::Malformed(54)
    );
    Ok(())
}

/// The frame in which the house closes the run.
const CLOSING: [u8; 10] = [0, 0, 0, 6, 255, 255, 255, 255, 5, 1];

/// That frame twice.
fn closed_twice(alloc: Global) -> Result<Vec<u8>, AllocError> {
    let mut twice = Vec::from_slice(alloc, CLOSING.as_slice())?;
    twice.extend_from_slice(CLOSING.as_slice())?;
    Ok(twice)
}

#[test]
fn run_is_closed_once(rt: HostRuntime) -> Result<(), Fail> {
    let alloc = rt.alloc();
    assert_eq!(rt; said_after(alloc, CLOSING.as_slice())?, Said::Legal(4, 0));
    let twice = closed_twice(alloc)?;
    assert_eq!(rt; said_after(alloc, twice.as_slice())?, Said::Nothing(4));
    Ok(())
}

/// A reader that gives the trace byte by byte, and is interrupted so often before each. It fails after so many bytes.
#[derive(Drop)]
struct SlowReader {
    given: usize,
    fails_at: usize,
    interruptions: u32,
    left: u32,
}

impl SlowReader {
    fn new(fails_at: usize, interruptions: u32) -> Self {
        SlowReader {
            given: 0,
            fails_at,
            interruptions,
            left: interruptions,
        }
    }
}

/// Puts a byte in front of a buffer, if there is room, and tells how many were put.
fn put_first(byte: u8, buffer: &mut [u8]) -> usize
    ensures few { result ≤ length buffer.old }
    ensures long { length buffer.new ≡ length buffer.old }
{
    if buffer.is_empty() {
        return 0;
    }
    buffer[0] = byte;
    1
}

impl Read for SlowReader {
    ghost use Rattle.std.specs.Prelude.{None};

    ghost remaining = { λ r. None };

    fn read(&mut self, buffer: &mut [u8]) -> io::Result<usize> {
        if self.given >= self.fails_at {
            return Err(Error::from(ErrorKind::TimedOut));
        }
        if self.left > 0 {
            self.left -= 1;
            return Err(Error::from(ErrorKind::Interrupted));
        }
        if self.given >= 54 {
            return Ok(0);
        }
        let byte = TRACE[self.given];
        self.given += 1;
        self.left = self.interruptions;
        Ok(put_first(byte, buffer))
    }
}

#[test]
fn trace_is_read_in_any_pieces(rt: HostRuntime) -> Result<(), Fail> {
    let alloc = rt.alloc();
    assert_eq!(rt; said_of(alloc, SlowReader::new(99, 0)), Said::Legal(3, 0));
    assert_eq!(rt; said_of(alloc, SlowReader::new(99, 15)), Said::Legal(3, 0));
    assert_eq!(rt; said_of(alloc, SlowReader::new(99, 16)), Said::ReadFault);
    assert_eq!(rt; said_of(alloc, SlowReader::new(53, 0)), Said::ReadFault);
    Ok(())
}

#[test]
fn reads_are_counted(rt: HostRuntime) {
    let mut reader = LoggedReader::new(SlowReader::new(99, 15));
    assert!(rt; audit(rt.alloc(), &mut reader).is_ok());
    assert_eq!(rt; reader.log().calls(), 55 * 16);
    assert_eq!(rt; reader.log().interruptions(), 0);
    assert!(rt; !reader.log().has_failed());
    assert_eq!(rt; reader.into_parts().0.given, 54);
}

#[test]
fn read_that_fails_is_counted(rt: HostRuntime) {
    let mut reader = LoggedReader::new(SlowReader::new(0, 0));
    assert!(rt; audit(rt.alloc(), &mut reader).is_err());
    assert_eq!(rt; reader.log().calls(), 1);
    assert!(rt; reader.log().has_failed());
}

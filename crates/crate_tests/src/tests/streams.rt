//! The logs of streams that never fail, and of a gate that refuses nothing.

use logged_streams::gate::Gate;
use logged_streams::reader::LoggedReader;
use logged_streams::stream_log::{Gave, StreamLog};
use logged_streams::writer::LoggedWriter;
use std::test::Fail;

/// What a log tells: calls, calls that moved bytes, interruptions and refusals in a row, and whether a call failed.
fn told(log: &StreamLog) -> (u64, u64, u32, u32, bool) {
    (
        log.calls(),
        log.moved(),
        log.interruptions(),
        log.refusals(),
        log.has_failed(),
    )
}

/// One read, of at most two bytes.
fn read_two(reader: &mut LoggedReader<&[u8]>) -> Option<Gave> {
    if reader.log().interruptions() >= 16 {
        return None;
    }
    let mut buffer = [0u8; 2];
    Some(reader.read(&mut buffer))
}

#[test]
fn reader_that_never_fails_has_no_fault(rt: HostRuntime) {
    let mut reader = LoggedReader::new(b"abcde".as_slice());
    assert_eq!(rt; told(reader.log()), (0, 0, 0, 0, false));
    assert_eq!(rt; read_two(&mut reader), Some(Gave::Bytes(2)));
    assert_eq!(rt; read_two(&mut reader), Some(Gave::Bytes(2)));
    assert_eq!(rt; read_two(&mut reader), Some(Gave::Bytes(1)));
    assert_eq!(rt; told(reader.log()), (3, 3, 0, 0, false));
    assert_eq!(rt; read_two(&mut reader), Some(Gave::Nothing));
    assert_eq!(rt; read_two(&mut reader), Some(Gave::Nothing));
    assert_eq!(rt; told(reader.log()), (5, 3, 0, 0, false));
}

#[test]
fn writer_that_never_fails_has_no_fault(rt: HostRuntime) -> Result<(), Fail> {
    let mut writer = LoggedWriter::new(Vec::new(rt.alloc()));
    let (count, end) = writer.write_all(b"abcde");
    assert_eq!(rt; count, 5);
    assert!(rt; end.is_ok());
    assert_eq!(rt; told(writer.log()), (1, 1, 0, 0, false));
    let (count, end) = writer.write_all(b"");
    assert_eq!(rt; count, 0);
    assert!(rt; end.is_ok());
    assert!(rt; writer.write_some(b"fg").is_ok());
    assert_eq!(rt; told(writer.log()), (2, 2, 0, 0, false));
    assert_eq!(rt; writer.get_ref().as_slice(), b"abcdefg".as_slice());
    Ok(())
}

/// A gate that lets the answers of even places through.
#[derive(Drop)]
struct EvenGate;

impl Gate for EvenGate {
    ghost use Rattle.std.specs.Prelude.{false};

    ghost is_open = { false };

    ghost said = { λ _ _ _. Unit {0} };

    fn may_write(&self, _session: u64, place: u64) -> bool {
        place % 2 == 0
    }

    fn is_always_open(&self) -> bool {
        false
    }
}

/// Asks the gate at a place: what it said, and how many times in a row it has refused.
fn asked(writer: &mut LoggedWriter<Vec<u8>>, place: u64) -> (bool, u32) {
    if writer.log().refusals() >= 1_000 {
        return (false, 1_000);
    }
    let is_let = writer.ask(&EvenGate, 7, place);
    (is_let, writer.log().refusals())
}

#[test]
fn what_a_gate_said_is_noted(rt: HostRuntime) {
    let mut writer = LoggedWriter::new(Vec::new(rt.alloc()));
    assert_eq!(rt; asked(&mut writer, 2), (true, 0));
    assert_eq!(rt; asked(&mut writer, 0), (true, 0));
    assert_eq!(rt; asked(&mut writer, 1), (false, 1));
    assert_eq!(rt; asked(&mut writer, 3), (false, 2));
    assert_eq!(rt; asked(&mut writer, 4), (true, 0));
    assert_eq!(rt; told(writer.log()), (0, 0, 0, 0, false));
}

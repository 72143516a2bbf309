//! What a pump has come to.

use crate::bell::Bell;
use crate::inlet::PushLog;
use call_types::request::Request;
use logged_streams::reader::LoggedReader;
use rtrb::Producer;
use std::io::Read;
use std::marker::Model;

/// Why a pump has ended.
#[derive(Clone, Copy, Debug, PartialEq, Eq)]
pub enum PumpEnd {
    /// The reader's end was met.
    Closed,
    /// The reader failed, was interrupted sixteen times in a row, or was read 1,048,576 times.
    ReadFault,
    /// Bytes that are no frame of a request. All requests before them are in the ring.
    Malformed,
    /// Memory ran out, for the buffer or for the requests of a piece. Where it ran out for the buffer, nothing was read.
    NoMemory,
    /// The ring gave a request back, and once more when room had been asked for. That request is dropped.
    Ahead,
}

/// A pump that is over. Contracts see it as a `PumpedState`.
#[derive(Drop)]
pub struct Pumped<R: Read, B: Bell> {
    pub end: PumpEnd,
    /// The reader, and what became of its reads.
    pub reader: LoggedReader<R>,
    pub producer: Producer<Request>,
    /// What the ring gave back.
    pub pushes: PushLog,
    pub bell: B,
}

impl<R: Read, B: Bell> Model for Pumped<R, B> {
    ghost use Rattle.request_pump.specs.Pump.{PumpedState};

    ghost Value = { PumpedState };

    ghost view = { λ s. record { pump = record { reader = s.reader; producer = s.producer; pushes = s.pushes; end_is = s.end }; rings = B.rings s.bell } };
}

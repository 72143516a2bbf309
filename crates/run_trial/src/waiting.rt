//! Connections over memory that wait to be accepted.

ghost use Rattle.std.specs.Prelude.{◌≡◌, All, Some, IfOk};
ghost use Rattle.run_core.specs.Run.{IsBlank};

use run_core::source::{AcceptFailed, Source};
use session_core::memory::{Manner, MemoryReader, MemoryWriter};
use std::alloc::{AllocError, Global};

/// How many connections there are.
pub(crate) const SESSIONS: usize = 2;

/// The frame of a join.
const JOIN: [u8; 5] = [0, 0, 0, 1, 1];

/// The frame of an fstat of descriptor 0.
const FSTAT: [u8; 9] = [0, 0, 0, 5, 30, 0, 0, 0, 0];

/// A reader and a writer over memory.
pub(crate) type Connection = (MemoryReader, MemoryWriter);

/// A stream over memory that neither fails nor is interrupted.
const WELL: Manner = Manner {
    most: 65_536,
    fails_at: None,
    interruptions: 0,
    flush_fails_at: None,
};

/// The frames of a join, and of a question about descriptor 0.
fn two_requests(alloc: Global) -> Result<Vec<u8>, AllocError> {
    let mut bytes = Vec::new(alloc);
    bytes.extend_from_slice(&JOIN)?;
    bytes.extend_from_slice(&FSTAT)?;
    Ok(bytes)
}

/// A connection that sends these two requests at once.
fn asking(alloc: Global) -> Result<Connection, AllocError>
    ensures { IfOk result (λ connection. IsBlank (Some connection.1.bytes)) }
{
    let reader = MemoryReader::new(two_requests(alloc)?, WELL);
    Ok((reader, MemoryWriter::new(alloc, WELL)))
}

/// Connections that are there from the start, of which the last is accepted first. Nothing was written to any of them.
#[derive(Drop)]
pub(crate) struct Waiting {
    connections: Vec<Connection>,
    accepted: u64,
    failures: u64,
    ghost blank: { All (λ connection. IsBlank (Some connection.1.bytes)) connections.items },
}

impl Waiting {
    /// Two connections.
    pub(crate) fn new(alloc: Global) -> Result<Self, AllocError>
        ensures accepted { IfOk result (λ waiting. waiting.accepted ≡ 0) }
        ensures failures { IfOk result (λ waiting. waiting.failures ≡ 0) }
    {
        let mut connections = Vec::with_capacity(alloc, SESSIONS)?;
        connections.push(asking(alloc)?)?;
        connections.push(asking(alloc)?)?;
        Ok(Waiting {
            connections,
            accepted: 0,
            failures: 0,
        })
    }
}

impl Source for Waiting {
    type Reader = MemoryReader;

    type Writer = MemoryWriter;

    ghost use Rattle.std.specs.Prelude.{Some, map, reverse};
    ghost use Rattle.run_core.specs.Run.{streams};

    ghost failures = { λ s. s.failures };

    ghost accepted = { λ s. s.accepted };

    ghost coming = { λ s. Some (map (λ connection. streams (Some connection.0.rest) (Some connection.1.bytes)) (reverse s.connections.items)) };

    fn accept(&mut self) -> Result<Connection, AcceptFailed> {
        match self.connections.pop() {
            Some(connection) => {
                self.accepted += 1;
                Ok(connection)
            }
            None => {
                self.failures += 1;
                Err(AcceptFailed)
            }
        }
    }

    fn failures(&self) -> u64 {
        self.failures
    }
}

//! A trace, judged as its bytes come, in any pieces.

ghost use Rattle.std.specs.Prelude.{◌≡◌, IfOk};
ghost use Rattle.audit_core.specs.Proved.Taking.{fresh_trace, TakesPiece, Ends};

use crate::body::{Body, take_after};
use crate::verdict::{Ending, Finding, Verdict};
use frame_codec::trace::{HeaderFront, Heading, headers_go_on, headers_tell_limits};
use std::alloc::{AllocError, Global};
use std::marker::Model;

/// A trace that is being audited. It holds less than one frame of it, or less than a header, and keeps no record.
#[derive(Drop)]
pub struct TraceAudit {
    /// The bytes of the header, until it is whole.
    front: HeaderFront,
    /// What comes after the header, once it is whole.
    body: Option<Body>,
}

impl Model for TraceAudit {
    ghost use Rattle.audit_core.specs.TraceState.{TraceState};

    ghost Value = { TraceState };

    ghost view = { λ t. record { front = t.front; body = t.body } };
}

impl TraceAudit {
    /// An audit before the first byte of a trace, of either version. It takes no memory.
    pub fn new(alloc: Global) -> Self
        ensures { result ≡ fresh_trace }
    {
        TraceAudit {
            front: HeaderFront::new(alloc),
            body: None,
        }
    }

    /// What is found, if no byte comes after those that were taken.
    pub fn end(&self) -> Finding
        ensures { Ends self.now result }
    {
        match &self.body {
            None => Finding {
                verdict: Verdict::Legal {
                    records: 0,
                    rest: self.front.as_slice().len() as u64,
                },
                ending: Ending::Open,
            },
            Some(body) => Finding {
                verdict: Verdict::Legal {
                    records: body.records(),
                    rest: body.rest(),
                },
                ending: body.ending(),
            },
        }
    }

    /// Takes the next bytes of the trace, of any length, and judges the records that they complete. Returns the verdict
    /// once no further byte can change it. After an error (memory or numbers ran out) do not go on.
    pub fn take(&mut self, alloc: Global, piece: &[u8]) -> Result<Option<Verdict>, AllocError>
        ensures { IfOk result (λ found. TakesPiece piece.now self.old self.new found) }
    {
        headers_go_on();
        headers_tell_limits();
        if self.body.is_some() {
            let found = take_after(&mut self.body, piece)?;
            return Ok(found);
        }
        match self.front.take(piece)? {
            Heading::Unheaded => Ok(Some(Verdict::Malformed { at: 0 })),
            Heading::Short => Ok(None),
            Heading::Headed { told, length, rest } => {
                let mut body = Body::new(alloc, told, length as u64);
                let found = body.take(rest)?;
                self.body = Some(body);
                Ok(found)
            }
        }
    }
}

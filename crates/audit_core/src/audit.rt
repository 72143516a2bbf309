//! An audit: a trace is read to its end, or to the first fault.

ghost use Rattle.std.specs.Prelude.{◌+◌, ◌≤◌};
ghost use Rattle.audit_core.specs.Audited.{Audits};

use crate::trace::TraceAudit;
use crate::verdict::{Ending, Finding};
use logged_streams::reader::LoggedReader;
use logged_streams::reading::{ReadEnd, Takes, read_all};
use logged_streams::stream_log::INTERRUPTIONS_MAX;
use std::alloc::{AllocError, Global};
use std::io::Read;

/// How many reads an audit has.
pub const READS_MAX: u32 = 16_777_216;

/// How many bytes a read asks for. Sizes from 16,384 to 65,536 were equally fast.
pub const READ_LENGTH: usize = 32_768;

/// Why an audit has no verdict.
#[derive(Clone, Copy, Debug, PartialEq, Eq)]
pub enum AuditFault {
    /// The reader failed, was interrupted sixteen times in a row, or was not at its end after 16,777,216 reads.
    Read,
    /// Memory ran out, or the machine had no number left for what is new.
    NoMemory,
}

impl From<AllocError> for AuditFault {
    ghost use Rattle.std.specs.Prelude.{◌≡◌};
    ghost use Rattle.audit_core.specs.declared.audit.AuditFault.TheVariants.{NoMemory};

    ghost from_gives = { λ _ fault. fault ≡ NoMemory };

    fn from(_error: AllocError) -> AuditFault {
        AuditFault::NoMemory
    }
}

/// A trace that is judged while it is read.
#[derive(Drop)]
struct Auditing {
    alloc: Global,
    trace: TraceAudit,
}

impl Takes<()> for Auditing {
    ghost use Rattle.audit_core.specs.TraceState.{IsTaking};
    ghost use Rattle.audit_core.specs.Auditing.{IsTold};

    type Told = Result<Finding, AuditFault>;

    ghost has_taken = { λ _ _ auditing _ bytes. IsTaking bytes auditing.trace };

    ghost has_told = { λ _ _ _ _ bytes answer. IsTold bytes answer };

    fn take(&mut self, _out: &mut (), piece: &[u8]) -> Option<Result<Finding, AuditFault>> {
        match self.trace.take(self.alloc, piece) {
            Ok(None) => None,
            Ok(Some(verdict)) => Some(Ok(Finding {
                verdict,
                ending: Ending::Open,
            })),
            Err(_) => Some(Err(AuditFault::NoMemory)),
        }
    }
}

/// Audits the trace that a reader gives, of either version. What comes after a record that breaks what is legal, or after a frame at
/// fault, need not be read. Nothing is kept of the records but the state that they led to, and one frame at a time.
pub fn audit<R: Read>(alloc: Global, reader: &mut LoggedReader<R>) -> Result<Finding, AuditFault>
    ensures few { reader.new.log.calls ≤ reader.old.log.calls + READS_MAX }
    ensures few_interrupted { reader.new.log.interruptions ≤ INTERRUPTIONS_MAX }
    ensures audits { Audits reader.old reader.new result }
{
    let _few = reader.log().interruptions();
    let mut buffer = vec![in alloc; 0u8; READ_LENGTH]?;
    let mut auditing = Auditing {
        alloc,
        trace: TraceAudit::new(alloc),
    };
    match read_all(
        reader,
        &mut auditing,
        &mut (),
        buffer.as_mut_slice(),
        READS_MAX,
    ) {
        ReadEnd::AtEnd => Ok(auditing.trace.end()),
        ReadEnd::CannotRead => Err(AuditFault::Read),
        ReadEnd::Told(answer) => answer,
    }
}

//! What became of a trace.

ghost use Rattle.std.specs.Prelude.{◌≡◌, map};
ghost use Rattle.std.specs.Arc.{arc_value};
ghost use Rattle.frame_codec.specs.Trace.{whole_in};

use call_types::act::Record;
use frame_codec::encode::record_frame_length;
use std::sync::Arc;

/// Why a trace is not whole, or may not last.
#[derive(Clone, Copy, Debug, PartialEq, Eq)]
pub enum TraceFault {
    /// The sink failed in a write.
    Write,
    /// All was written, and the sink failed to sync.
    Sync,
    /// No frame spells a record that came out of the ring. Neither it nor a later one was written.
    Unspellable,
    /// Memory ran out.
    NoMemory,
}

/// What became of a trace.
#[derive(Drop)]
pub struct Traced {
    /// How many records are whole in what was written.
    pub whole: u64,
    /// How many bytes were written.
    pub bytes: u64,
    /// What went wrong, if something did.
    pub fault: Option<TraceFault>,
    /// The records that came out of the ring, up to the first that could not be kept.
    pub received: Vec<Arc<Record>>,
}

/// How many of these records are whole in so many bytes of their frames.
pub(crate) fn whole_records(records: &[Arc<Record>], bytes: u64) -> u64
    ensures { result ≡ whole_in (map arc_value records.now) bytes }
{
    let mut whole: u64 = 0;
    let mut left = bytes;
    let mut rest = records;
    while let Some((first, others)) = rest.split_first() {
        let length = record_frame_length(&**first) as u64;
        if left < length {
            return whole;
        }
        left -= length;
        whole += 1;
        rest = others;
    }
    whole
}

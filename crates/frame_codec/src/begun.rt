//! The first frame of bytes.

ghost use Rattle.std.specs.Prelude.{◌≡◌, ◌≤◌, ◌<◌, ◌^◌, length, IfOk};
ghost use Rattle.frame_codec.specs.Frames.{told_length};
ghost use Rattle.frame_codec.specs.Proved.Filling.{Begun};

use crate::fault::PayloadFault;
use crate::frame_kind::FrameKind;
use std::alloc::{AllocError, Global};

/// The bytes of a length.
pub(crate) const HEAD: usize = 4;

/// Why bytes don't begin with a frame.
#[derive(Clone, Copy, Debug, PartialEq, Eq)]
pub(crate) enum Stop {
    /// They end before it does.
    Short,
    /// Its payload spells no value.
    Malformed,
    /// Its payload would be longer than is allowed.
    TooLong,
}

/// How bytes begin.
#[derive(Drop)]
pub(crate) enum Begins<V> {
    /// With the frame of a value, of so many bytes.
    Whole { value: V, len: usize },
    Stopped(Stop),
}

/// The length that the first four bytes tell.
pub(crate) fn length_told(bytes: &[u8]) -> usize
    requires { 4 ≤ length bytes.now }
    ensures exact { result ≡ told_length bytes.now }
    ensures few { result < 2 ^ 32 }
{
    u32::from_be_bytes([bytes[0], bytes[1], bytes[2], bytes[3]]) as usize
}

/// How bytes begin; an error says that memory ran out.
pub(crate) fn begun<K: FrameKind>(
    alloc: Global,
    bytes: &[u8],
) -> Result<Begins<K::Value>, AllocError>
    ensures { IfOk result (λ begins. Begun K.spells K.most bytes.now begins) }
{
    if bytes.len() < HEAD {
        return Ok(Begins::Stopped(Stop::Short));
    }
    let told = length_told(bytes);
    if told > K::most() {
        return Ok(Begins::Stopped(Stop::TooLong));
    }
    if bytes.len() - HEAD < told {
        return Ok(Begins::Stopped(Stop::Short));
    }
    match K::value(alloc, &bytes[HEAD..HEAD + told]) {
        Ok(value) => Ok(Begins::Whole {
            value,
            len: HEAD + told,
        }),
        Err(PayloadFault::Malformed) => Ok(Begins::Stopped(Stop::Malformed)),
        Err(PayloadFault::NoMemory) => Err(AllocError),
    }
}

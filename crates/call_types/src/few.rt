ghost use Rattle.std.specs.Prelude.{◌≡◌, ◌≤◌, ◌<◌, ◌++◌, ◌∷◌, [], List, ℕ, length, take};
ghost use Rattle.call_types.specs.declared.few.TheConstants.{FEW};

use std::marker::Model;

/// How many bytes are few.
pub(crate) const FEW: usize = 14;

/// At most 14 bytes, which stand in the value itself and take no memory. Contracts see their list.
#[derive(Debug, Drop)]
pub(crate) struct FewBytes {
    len: u8,
    bytes: [u8; FEW],
}

impl Model for FewBytes {
    ghost Value = { List ℕ };

    ghost view = { λ few. take few.len few.bytes };

    ghost invariant = { λ few. few.len ≤ FEW };
}

impl FewBytes {
    /// No byte.
    pub(crate) fn new() -> Self
        ensures { result ≡ [] }
    {
        FewBytes {
            len: 0,
            bytes: [0; FEW],
        }
    }

    /// A copy of bytes, which are few.
    pub(crate) fn copied(bytes: &[u8]) -> Self
        requires { length bytes.now ≤ FEW }
        ensures { result ≡ bytes.now }
    {
        let mut copy = [0; FEW];
        let len = bytes.len();
        copy[..len].copy_from_slice(bytes);
        FewBytes {
            len: len as u8,
            bytes: copy,
        }
    }

    /// The bytes of a front and of what is after it, which are few.
    pub(crate) fn joined(front: &[u8], back: &[u8]) -> Self
        requires { length (front.now ++ back.now) ≤ FEW }
        ensures { result ≡ front.now ++ back.now }
    {
        let mut bytes = [0; FEW];
        let middle = front.len();
        let len = middle + back.len();
        bytes[..middle].copy_from_slice(front);
        bytes[middle..len].copy_from_slice(back);
        FewBytes {
            len: len as u8,
            bytes,
        }
    }

    /// The same bytes once more.
    pub(crate) fn copy(&self) -> Self
        ensures { result ≡ self.now }
    {
        FewBytes {
            len: self.len,
            bytes: self.bytes,
        }
    }

    /// How many bytes there are, at most 14.
    pub(crate) fn len(&self) -> usize
        ensures exact { result ≡ length self.now }
        ensures few { result ≤ FEW }
    {
        self.len as usize
    }

    /// The bytes, in their order.
    pub(crate) fn as_slice(&self) -> &[u8]
        ensures { result.now ≡ self.now }
    {
        &self.bytes[..self.len as usize]
    }

    /// One byte more, after the others.
    pub(crate) fn push(&mut self, byte: u8)
        requires { length self.old < FEW }
        ensures { self.new ≡ self.old ++ byte ∷ [] }
    {
        self.bytes[self.len as usize] = byte;
        self.len += 1;
    }
}

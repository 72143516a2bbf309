ghost use Rattle.std.specs.Prelude.{◌≡◌, ◌≤◌, ◌==◌, ◌++◌, [], List, ℕ, length, replicate, IfOk, IfSome};
ghost use Rattle.call_types.specs.declared.limits.TheConstants.{GIVEN_NAME_MAX};
ghost use Rattle.call_types.specs.Stored.{stored_name, stored_bytes, span_bytes};

use crate::few::{FEW, FewBytes};
use crate::gathered::{Gathered, Gathering};
use crate::limits::{GIVEN_BYTES_MAX, GIVEN_NAME_MAX, TRANSFER_MAX};
use crate::span::Span;
use std::alloc::{AllocError, Global};
use std::marker::Model;
use std::sync::Arc;

/// How a name is kept.
#[derive(Debug, Drop)]
enum StoredName {
    /// In the value itself.
    Few(FewBytes),
    /// In memory of its own, which copies share.
    Many(Arc<Vec<u8>>),
}

/// The name of a file as a call gives it, at most 255 bytes of any value. Contracts see the list of the bytes. A copy takes no memory.
#[derive(Debug, Drop)]
pub struct Name {
    stored: StoredName,
}

impl Model for Name {
    ghost Value = { List ℕ };

    ghost view = { λ name. stored_name name.stored };

    ghost invariant = { λ name. length (stored_name name.stored) ≤ GIVEN_NAME_MAX };
}

/// How data is kept.
#[derive(Debug, Drop)]
enum StoredData {
    /// In the value itself.
    Few(FewBytes),
    /// As one byte, and how many times it stands.
    Same { byte: u8, count: usize },
    /// In memory of its own, which copies share.
    Many(Arc<Vec<u8>>),
}

/// Data of at most `MOST` bytes. Contracts see the list of the bytes. A copy takes no memory.
#[derive(Debug, Drop)]
pub struct Data<const MOST: usize> {
    stored: StoredData,
}

impl<const MOST: usize> Model for Data<MOST> {
    ghost Value = { List ℕ };

    ghost view = { λ b. stored_bytes b.stored };

    ghost invariant = { λ b. length (stored_bytes b.stored) ≤ MOST };
}

/// What a call gives to write, at most 65,700 bytes.
pub type Payload = Data<GIVEN_BYTES_MAX>;

/// What a call answers with, at most 65,536 bytes.
pub type Content = Data<TRANSFER_MAX>;

/// The greatest lengths of a name, of what a call gives to write and of what it answers with, in bytes.
pub fn greatest_lengths() -> (usize, usize, usize)
    ensures name { result.0 ≡ 255 }
    ensures payload { result.1 ≡ 65700 }
    ensures content { result.2 ≡ 65536 }
{
    (Name::most(), Payload::most(), Content::most())
}

/// Stores the bytes of a name. Where they are few, the vector is freed. An error says that memory ran out.
fn kept_name(alloc: Global, bytes: Vec<u8>) -> Result<StoredName, AllocError>
    ensures { IfOk result (λ stored. stored_name stored ≡ bytes.items) }
{
    if bytes.len() <= FEW {
        return Ok(StoredName::Few(FewBytes::copied(bytes.as_slice())));
    }
    Ok(StoredName::Many(Arc::new(alloc, bytes)?))
}

impl Name {
    /// How many bytes there may be.
    pub fn most() -> usize
        ensures { result ≡ GIVEN_NAME_MAX }
    {
        GIVEN_NAME_MAX
    }

    /// The name of these bytes; an error says that memory ran out.
    pub fn new(alloc: Global, bytes: Gathered) -> Result<Self, AllocError>
        requires { length bytes.0 ≤ GIVEN_NAME_MAX }
        ensures { IfOk result (λ name. name ≡ bytes.0) }
    {
        let stored = match bytes.kept {
            Gathering::Few(few) => StoredName::Few(few),
            Gathering::Many(many) => kept_name(alloc, many)?,
        };
        Ok(Name { stored })
    }

    /// A copy of the bytes; an error says that memory ran out.
    pub fn copied(alloc: Global, bytes: &[u8]) -> Result<Self, AllocError>
        requires { length bytes.now ≤ GIVEN_NAME_MAX }
        ensures { IfOk result (λ name. name ≡ bytes.now) }
    {
        let stored = if bytes.len() <= FEW {
            StoredName::Few(FewBytes::copied(bytes))
        } else {
            StoredName::Many(Arc::new(alloc, Vec::from_slice(alloc, bytes)?)?)
        };
        Ok(Name { stored })
    }

    /// The bytes, in their order.
    pub fn as_slice(&self) -> &[u8]
        ensures value { result.now ≡ self.now }
        ensures within { length self.now ≤ GIVEN_NAME_MAX }
    {
        match &self.stored {
            StoredName::Few(few) => few.as_slice(),
            StoredName::Many(many) => many.as_slice(),
        }
    }
}

impl Clone for Name {
    ghost is_clone = { λ old new. new ≡ old };

    fn clone(&self) -> Result<Self, AllocError> {
        let stored = match &self.stored {
            StoredName::Few(few) => StoredName::Few(few.copy()),
            StoredName::Many(many) => StoredName::Many(many.clone()?),
        };
        Ok(Name { stored })
    }
}

/// The byte that all of these are, if there are any and all are the same.
fn one_byte(bytes: &[u8]) -> Option<u8>
    ensures { IfSome result (λ byte. bytes.now ≡ replicate (length bytes.now) byte) }
{
    let Some((first, rest)) = bytes.split_first() else {
        return None;
    };
    let (front, _last) = bytes.split_at(rest.len());
    if front == rest { Some(*first) } else { None }
}

/// Many bytes: as one byte and a count where they are all the same, else a copy of them; an error says that memory ran out.
fn many(alloc: Global, bytes: &[u8]) -> Result<StoredData, AllocError>
    ensures { IfOk result (λ stored. stored_bytes stored ≡ bytes.now) }
{
    if let Some(byte) = one_byte(bytes) {
        return Ok(StoredData::Same {
            byte,
            count: bytes.len(),
        });
    }
    Ok(StoredData::Many(Arc::new(alloc, Vec::from_slice(alloc, bytes)?)?))
}

impl<const MOST: usize> Data<MOST> {
    /// How many bytes there may be.
    pub fn most() -> usize
        ensures { result ≡ MOST }
    {
        MOST
    }

    /// No byte.
    pub fn empty() -> Self
        ensures { result ≡ [] }
    {
        Data {
            stored: StoredData::Few(FewBytes::new()),
        }
    }

    /// One byte, so many times.
    pub fn same(byte: u8, count: usize) -> Self
        requires { count ≤ MOST }
        ensures { result ≡ replicate count byte }
    {
        Data {
            stored: StoredData::Same { byte, count },
        }
    }

    /// The data of these bytes; an error says that memory ran out.
    pub fn new(alloc: Global, bytes: Gathered) -> Result<Self, AllocError>
        requires { length bytes.0 ≤ MOST }
        ensures { IfOk result (λ made. made ≡ bytes.0) }
    {
        let stored = match bytes.kept {
            Gathering::Few(few) => StoredData::Few(few),
            Gathering::Many(many) => StoredData::Many(Arc::new(alloc, many)?),
        };
        Ok(Data { stored })
    }

    /// A copy of the bytes; an error says that memory ran out.
    pub fn copied(alloc: Global, bytes: &[u8]) -> Result<Self, AllocError>
        requires { length bytes.now ≤ MOST }
        ensures { IfOk result (λ copy. copy ≡ bytes.now) }
    {
        let stored = if bytes.len() <= FEW {
            StoredData::Few(FewBytes::copied(bytes))
        } else {
            many(alloc, bytes)?
        };
        Ok(Data { stored })
    }

    /// A copy of the bytes of a front and of what is after it; an error says that memory ran out.
    pub fn joined(alloc: Global, front: &[u8], back: &[u8]) -> Result<Self, AllocError>
        requires { length (front.now ++ back.now) ≤ MOST }
        ensures { IfOk result (λ copy. copy ≡ front.now ++ back.now) }
    {
        let len = front.len() + back.len();
        let stored = if len <= FEW {
            StoredData::Few(FewBytes::joined(front, back))
        } else if back.is_empty() {
            many(alloc, front)?
        } else {
            let mut joined = Vec::with_capacity(alloc, len)?;
            joined.extend_from_slice(front)?;
            joined.extend_from_slice(back)?;
            StoredData::Many(Arc::new(alloc, joined)?)
        };
        Ok(Data { stored })
    }

    /// How many bytes there are, at most `MOST`.
    pub fn len(&self) -> usize
        ensures exact { result ≡ length self.now }
        ensures within { result ≤ MOST }
    {
        self.span().len()
    }

    /// Whether there is no byte.
    pub fn is_empty(&self) -> bool
        ensures { result ≡ (length self.now == 0) }
    {
        self.len() == 0
    }

    /// The bytes, where they are.
    pub fn span(&self) -> Span<'_>
        ensures value { span_bytes result ≡ self.now }
        ensures within { length self.now ≤ MOST }
    {
        match &self.stored {
            StoredData::Few(few) => Span::Slice(few.as_slice()),
            StoredData::Same { byte, count } => Span::Same {
                byte: *byte,
                count: *count,
            },
            StoredData::Many(many) => Span::Slice(many.as_slice()),
        }
    }
}

impl<const MOST: usize> Clone for Data<MOST> {
    ghost is_clone = { λ old new. new ≡ old };

    #[inline(always)]
    fn clone(&self) -> Result<Self, AllocError> {
        let stored = match &self.stored {
            StoredData::Few(few) => StoredData::Few(few.copy()),
            StoredData::Same { byte, count } => StoredData::Same {
                byte: *byte,
                count: *count,
            },
            StoredData::Many(many) => StoredData::Many(many.clone()?),
        };
        Ok(Data { stored })
    }
}

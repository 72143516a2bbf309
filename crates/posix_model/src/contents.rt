ghost use Rattle.std.specs.Prelude.{◌≡◌, ◌+◌, ◌≤◌, ◌<◌, ◌^◌, [], ◌++◌, List, ℕ, length, replicate, vec_len, vec_capacity, IfOk, OnOk, OnErr};
ghost use Rattle.call_types.specs.Stored.{span_bytes};
ghost use Rattle.posix_model.specs.Bytes.{padded_to, overwritten, splice, bytes_at, resized};

use call_types::span::Span;
use std::alloc::{AllocError, Global};
use std::marker::Model;

/// At most `count` bytes from `start` on; none at the end or past it.
pub fn bytes_at(bytes: &[u8], start: usize, count: usize) -> &[u8]
    ensures { result.now ≡ bytes_at bytes.now start count }
{
    let from = start.min(bytes.len());
    let behind = &bytes[from..];
    &behind[..count.min(behind.len())]
}

/// Zeros up to `len`, where there are fewer bytes.
pub fn pad(bytes: &mut Vec<u8>, len: usize)
    requires { len ≤ vec_capacity bytes.old }
    ensures items { bytes.new.items ≡ padded_to bytes.old.items len }
    ensures capacity { vec_capacity bytes.old ≤ vec_capacity bytes.new }
{
    if bytes.len() < len {
        bytes.resize(len, 0).unwrap();
    }
}

/// Makes each byte of a part the same.
fn fill(part: &mut [u8], byte: u8)
    ensures { part.new ≡ replicate (length part.old) byte }
{
    part.fill(byte);
}

/// Writes one byte so many times from `start` on, over what is there and after it.
fn overwrite_same(bytes: &mut Vec<u8>, start: usize, byte: u8, count: usize)
    requires within { start ≤ vec_len bytes.old }
    requires room { start + count ≤ vec_capacity bytes.old }
    ensures items { bytes.new.items ≡ overwritten bytes.old.items start (replicate count byte) }
    ensures capacity { vec_capacity bytes.old ≤ vec_capacity bytes.new }
{
    if count <= bytes.len() - start {
        fill(&mut bytes[start..start + count], byte);
    } else {
        bytes.truncate(start);
        bytes.resize(start + count, byte).unwrap();
    }
}

/// Writes a slice of new bytes from `start` on, over what is there and after it.
fn overwrite_slice(bytes: &mut Vec<u8>, start: usize, new: &[u8])
    requires within { start ≤ vec_len bytes.old }
    requires room { start + length new.now ≤ vec_capacity bytes.old }
    ensures items { bytes.new.items ≡ overwritten bytes.old.items start new.now }
    ensures capacity { vec_capacity bytes.old ≤ vec_capacity bytes.new }
{
    let here = new.len().min(bytes.len() - start);
    let (over, behind) = new.split_at(here);
    let part = &mut bytes[start..start + here];
    part.copy_from_slice(over);
    if !behind.is_empty() {
        bytes.extend_from_slice(behind).unwrap();
    }
}

/// Writes new bytes from `start` on, over what is there and after it.
pub fn overwrite(bytes: &mut Vec<u8>, start: usize, new: Span<'_>)
    requires within { start ≤ vec_len bytes.old }
    requires room { start + length (span_bytes new) ≤ vec_capacity bytes.old }
    ensures items { bytes.new.items ≡ overwritten bytes.old.items start (span_bytes new.entry) }
    ensures capacity { vec_capacity bytes.old ≤ vec_capacity bytes.new }
{
    match new {
        Span::Slice(new) => overwrite_slice(bytes, start, new),
        Span::Same { byte, count } => overwrite_same(bytes, start, byte, count),
    }
}

/// Bytes in one piece, as a pipe or a run of a regular file holds them. Contracts see their list.
#[derive(Drop)]
pub struct Contents {
    bytes: Vec<u8>,
}

impl Model for Contents {
    ghost Value = { List ℕ };

    ghost view = { λ contents. contents.bytes.items };
}

impl Contents {
    /// No bytes.
    pub fn new(alloc: Global) -> Self
        ensures { result ≡ [] }
    {
        Contents {
            bytes: Vec::new(alloc),
        }
    }

    /// A copy of some bytes. An error says that memory ran out.
    pub(crate) fn copied(alloc: Global, bytes: Span<'_>) -> Result<Self, AllocError>
        requires { length (span_bytes bytes) < 2 ^ 63 }
        ensures { IfOk result (λ copy. copy ≡ span_bytes bytes.entry) }
    {
        let mut copy = Contents::new(alloc);
        copy.append(bytes)?;
        Ok(copy)
    }

    /// How many bytes there are.
    pub fn len(&self) -> usize
        ensures { result ≡ length self.now }
    {
        self.bytes.len()
    }

    /// The bytes, in their order.
    pub fn as_slice(&self) -> &[u8]
        ensures { result.now ≡ self.now }
    {
        self.bytes.as_slice()
    }

    /// Adds `new` at the end. An error says that memory ran out.
    pub(crate) fn append(&mut self, new: Span<'_>) -> Result<(), AllocError>
        requires { length self.old + length (span_bytes new) < 2 ^ 63 }
        ensures { OnOk result (self.new ≡ self.old ++ span_bytes new.entry) }
    {
        let end = self.len();
        self.write_at(end, new)
    }

    /// Writes `new` from `start` on; a gap before it is filled with zeros.
    pub fn write_at(&mut self, start: usize, new: Span<'_>) -> Result<(), AllocError>
        requires { start + length (span_bytes new) < 2 ^ 63 }
        ensures ok { OnOk result (self.new ≡ splice self.old start (span_bytes new.entry)) }
        ensures err { OnErr result (self.new ≡ self.old) }
    {
        let end = start + new.len();
        if self.bytes.len() < end {
            self.bytes.reserve(end - self.bytes.len())?;
        }
        pad(&mut self.bytes, start);
        overwrite(&mut self.bytes, start, new);
        Ok(())
    }

    /// Sets the length to `len` bytes: what is past it goes, and zeros come where there were fewer.
    pub fn set_len(&mut self, len: usize) -> Result<(), AllocError>
        ensures ok { OnOk result (self.new ≡ resized self.old len) }
        ensures err { OnErr result (self.new ≡ self.old) }
    {
        if self.bytes.len() < len {
            self.bytes.reserve(len - self.bytes.len())?;
        }
        self.bytes.truncate(len);
        pad(&mut self.bytes, len);
        Ok(())
    }
}

impl Clone for Contents {
    ghost is_clone = { λ old new. new ≡ old };

    fn clone(&self) -> Result<Self, AllocError> {
        Ok(Contents {
            bytes: self.bytes.clone()?,
        })
    }
}

ghost use Rattle.std.specs.Prelude.{◌≡◌, ◌+◌, ◌≤◌, ◌<◌, ◌^◌, [], ◌++◌, length, take, vec_len, vec_capacity, IfOk, IfSome, OnOk, IsOk};
ghost use Rattle.call_types.specs.Stored.{span_bytes};
ghost use Rattle.posix_model.specs.Bytes.{splice, bytes_at, padded_to, resized};
ghost use Rattle.file_extents.specs.Proved.Contents.{HasRoom, KeepsRoom};

use crate::chunk::CHUNK;
use crate::spread::{append, put, reserve, stored};
use crate::table::Table;
use call_types::bounded::Content;
use call_types::span::Span;
use std::alloc::{AllocError, Global};
use std::marker::Model;

/// The bytes of a regular file, in chunks. Where nothing was written there is no chunk, and zeros are read. Contracts see the bytes, and where
/// there is room.
#[derive(Drop)]
pub struct Extents {
    alloc: Global,
    len: usize,
    table: Table,
}

impl Model for Extents {
    ghost use Rattle.std.specs.Prelude.{◌<◌, ◌^◌};
    ghost use Rattle.file_extents.specs.ChunkTable.{chunk_at};
    ghost use Rattle.file_extents.specs.ExtentsState.{ExtentsState, contents};
    ghost use Rattle.file_extents.specs.Proved.Contents.{ZeroFrom};

    ghost Value = { ExtentsState };

    ghost view = { λ file. record { bytes = contents file.len (chunk_at file.table); table = file.table } };

    ghost invariant = { λ file. (file.len < 2 ^ 63) × ZeroFrom file.len (chunk_at file.table) };
}

impl Extents {
    /// No byte, and no memory.
    pub fn new(alloc: Global) -> Self
        ensures { result.bytes ≡ [] }
    {
        Extents {
            alloc,
            len: 0,
            table: Table::new(alloc),
        }
    }

    /// The length of the file, in bytes.
    #[inline(always)]
    pub fn len(&self) -> usize
        ensures { result ≡ length self.now.bytes }
    {
        self.len
    }

    /// How many of `count` bytes from `start` on there are.
    #[inline(always)]
    pub fn count_from(&self, start: usize, count: usize) -> usize
        ensures { result ≡ length (bytes_at self.now.bytes start count) }
    {
        count.min(self.len.saturating_sub(start))
    }

    /// At most `count` bytes from `start` on where they are, if all of them are stored in one chunk. A file has fewer than 2^63 bytes.
    #[inline(always)]
    pub fn stored(&self, start: usize, count: usize) -> Option<&[u8]>
        ensures bytes { IfSome result (λ bytes. bytes.now ≡ bytes_at self.now.bytes start count) }
        ensures within { length self.now.bytes < 2 ^ 63 }
    {
        if start >= self.len {
            return Some(&[]);
        }
        stored(&self.table, start, count.min(self.len - start))
    }

    /// At most `count` bytes from `start` on; none at the end or past it. An error says that memory ran out.
    pub fn read_at(&self, start: usize, count: usize) -> Result<Vec<u8>, AllocError>
        requires { count ≤ 65536 }
        ensures { IfOk result (λ read. read.items ≡ bytes_at self.now.bytes start count) }
    {
        let mut read = Vec::with_capacity(self.alloc, self.count_from(start, count))?;
        self.read_into(start, count, &mut read);
        Ok(read)
    }

    /// Appends at most `count` bytes from `start` on, for which there is room; none at the end or past it. It takes no memory.
    pub fn read_into(&self, start: usize, count: usize, out: &mut Vec<u8>)
        requires few { count ≤ 65536 }
        requires room { vec_len out.old + length (bytes_at self.now.bytes start count) ≤ vec_capacity out.old }
        ensures items { out.new.items ≡ out.old.items ++ bytes_at self.now.bytes start count }
        ensures capacity { vec_capacity out.old ≤ vec_capacity out.new }
    {
        if start < self.len {
            let some = count.min(self.len - start);
            append(&self.table, start, some, out);
        }
    }

    /// A copy of at most `count` bytes from `start` on; none at the end or past it (page of read). Bytes that stand in one chunk are copied from where
    /// they are. An error says that memory ran out.
    #[inline(always)]
    pub fn content_at(
        &self,
        alloc: Global,
        start: usize,
        count: usize,
    ) -> Result<Content, AllocError>
        requires { count ≤ 65536 }
        ensures content { IfOk result (λ content. content ≡ bytes_at self.now.bytes start count) }
        ensures within { length self.now.bytes < 2 ^ 63 }
    {
        match self.stored(start, count) {
            Some(bytes) => Content::copied(alloc, bytes),
            None => Content::copied(alloc, self.read_at(start, count)?.as_slice()),
        }
    }

    /// Makes room for `count` bytes from `start` on. An error says that memory ran out.
    #[inline(always)]
    pub fn reserve_for(&mut self, start: usize, count: usize) -> Result<(), AllocError>
        requires few { count ≤ 65536 }
        requires fits { start + count < 2 ^ 63 }
        ensures bytes { self.new.bytes ≡ self.old.bytes }
        ensures room { OnOk result (HasRoom self.new.table start count) }
        ensures kept { KeepsRoom self.old.table self.new.table }
        ensures succeeds { HasRoom self.old.table start count → IsOk result }
    {
        reserve(&mut self.table, self.alloc, start, count)
    }

    /// Writes `new` from `start` on; a gap before it reads as zeros. It takes no memory.
    #[inline(always)]
    pub fn write_at(&mut self, start: usize, new: Span<'_>)
        requires few { length (span_bytes new) ≤ 65536 }
        requires fits { start + length (span_bytes new) < 2 ^ 63 }
        requires room { HasRoom self.old.table start (length (span_bytes new)) }
        ensures bytes { self.new.bytes ≡ splice self.old.bytes start (span_bytes new.entry) }
        ensures kept { KeepsRoom self.old.table self.new.table }
    {
        let end = start + new.len();
        put(&mut self.table, start, new);
        self.len = self.len.max(end);
    }

    /// Gives the file its length, in bytes: its first bytes, and zeros where there were fewer (page of ftruncate). It takes no memory.
    pub fn set_len(&mut self, len: usize)
        requires { len < 2 ^ 63 }
        ensures { self.new.bytes ≡ resized self.old.bytes len }
    {
        self.cut(len);
        self.extend_to(len);
    }

    /// Keeps the first `len` bytes.
    fn cut(&mut self, len: usize)
        ensures { self.new.bytes ≡ take len self.old.bytes }
    {
        if len < self.len {
            self.table.cut(len / CHUNK, len % CHUNK);
            self.len = len;
        }
    }

    /// Adds zeros, up to so many bytes in all. It takes no memory.
    fn extend_to(&mut self, len: usize)
        requires { len < 2 ^ 63 }
        ensures bytes { self.new.bytes ≡ padded_to self.old.bytes len }
        ensures kept { KeepsRoom self.old.table self.new.table }
    {
        self.len = self.len.max(len);
    }
}

impl Clone for Extents {
    ghost use Rattle.std.specs.Prelude.{◌≡◌};

    ghost is_clone = { λ old new. new.bytes ≡ old.bytes };

    fn clone(&self) -> Result<Self, AllocError> {
        Ok(Extents {
            alloc: self.alloc,
            len: self.len,
            table: self.table.clone()?,
        })
    }
}

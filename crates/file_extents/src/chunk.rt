ghost use Rattle.std.specs.Prelude.{◌≡◌, ℕ, ◌+◌, ◌≤◌, ◌<◌, [], ◌++◌, length, take, slice_index_or, vec_len, vec_capacity, OnOk, IsOk, IfSome};
ghost use Rattle.call_types.specs.Stored.{span_bytes};
ghost use Rattle.posix_model.specs.Bytes.{splice};
ghost use Rattle.file_extents.specs.ChunkTable.{byte_in};
ghost use Rattle.file_extents.specs.Proved.Chunks.{window, HasPlaces, SameBytes, KeepsPlaces};

use crate::room::{append_zeros, grow};
use call_types::span::Span;
use posix_model::contents::{bytes_at, overwrite, pad};
use std::alloc::{AllocError, Global};
use std::marker::Model;

/// How many bytes a chunk has at most.
pub(crate) const CHUNK: usize = 65_536;

/// Zeros before the first byte that is written to a new chunk are kept only back to a multiple of this.
const BLOCK: usize = 4096;

/// Bytes that stand one after another, from a multiple of `CHUNK` on. Zeros before the place `low` are not stored. Contracts see all bytes, and the
/// places where room for them begins and ends.
#[derive(Drop)]
pub(crate) struct Chunk {
    low: usize,
    stored: Vec<u8>,
}

impl Model for Chunk {
    ghost use Rattle.std.specs.Prelude.{◌+◌, ◌≤◌, ◌++◌, replicate, vec_capacity};
    ghost use Rattle.file_extents.specs.ChunkTable.{ChunkState};

    ghost Value = { ChunkState };

    ghost view = { λ chunk. record { bytes = replicate chunk.low 0 ++ chunk.stored.items; low = chunk.low; high = chunk.low + vec_capacity chunk.stored } };

    ghost invariant = { λ chunk. chunk.low ≤ 65536 };
}

impl Chunk {
    /// No byte, and no memory.
    pub(crate) fn new(alloc: Global) -> Self
        ensures { result.bytes ≡ [] }
    {
        Chunk {
            low: 0,
            stored: Vec::new(alloc),
        }
    }

    /// Makes room from the place `start` up to `end`. An error says that memory ran out.
    #[inline(always)]
    pub(crate) fn reserve(
        &mut self,
        alloc: Global,
        start: usize,
        end: usize,
    ) -> Result<(), AllocError>
        requires some { start < end }
        requires within { end ≤ 65536 }
        ensures bytes { SameBytes self.old self.new }
        ensures room { OnOk result (HasPlaces self.new start end) }
        ensures kept { KeepsPlaces self.old self.new }
        ensures succeeds { HasPlaces self.old start end → IsOk result }
    {
        if self.low <= start && end - self.low <= self.stored.capacity() {
            return Ok(());
        }
        self.make_room(alloc, start, end)
    }

    /// Moves or grows what is stored, until there is room.
    #[cold]
    #[inline(never)]
    fn make_room(&mut self, alloc: Global, start: usize, end: usize) -> Result<(), AllocError>
        requires some { start < end }
        requires within { end ≤ 65536 }
        ensures bytes { SameBytes self.old self.new }
        ensures room { OnOk result (HasPlaces self.new start end) }
        ensures kept { KeepsPlaces self.old self.new }
    {
        if self.stored.capacity() == 0 {
            self.begin_at(start - start % BLOCK);
        }
        if start < self.low {
            self.begin_at_zero(alloc)?;
        }
        grow(&mut self.stored, end - self.low, CHUNK - self.low)
    }

    /// Lets a chunk without room begin at a place.
    fn begin_at(&mut self, low: usize)
        requires within { low ≤ 65536 }
        requires none { self.old.low ≡ self.old.high }
        ensures bytes { SameBytes self.old self.new }
        ensures low { self.new.low ≡ low }
    {
        self.low = low;
    }

    /// Stores all zeros at the front.
    fn begin_at_zero(&mut self, alloc: Global) -> Result<(), AllocError>
        ensures bytes { self.new.bytes ≡ self.old.bytes }
        ensures kept { KeepsPlaces self.old self.new }
        ensures low { OnOk result (self.new.low ≡ 0) }
    {
        let room = self.low + self.stored.capacity();
        let mut all = Vec::with_capacity(alloc, room)?;
        append_zeros(&mut all, self.low);
        all.extend_from_slice(self.stored.as_slice()).unwrap();
        self.stored = all;
        self.low = 0;
        Ok(())
    }

    /// Writes `new` from the place `start` on; a gap before it is filled with zeros.
    #[inline(always)]
    pub(crate) fn write(&mut self, start: usize, new: Span<'_>)
        requires { HasPlaces self.old start (start + length (span_bytes new)) }
        ensures bytes { self.new.bytes ≡ splice self.old.bytes start (span_bytes new.entry) }
        ensures kept { KeepsPlaces self.old self.new }
    {
        let place = start - self.low;
        pad(&mut self.stored, place);
        overwrite(&mut self.stored, place, new);
    }

    /// Keeps the first `len` bytes.
    pub(crate) fn cut(&mut self, len: usize)
        ensures { (i : ℕ) → byte_in self.new i ≡ slice_index_or (take len self.old.bytes) i 0 }
    {
        self.stored.truncate(len.saturating_sub(self.low));
    }

    /// `count` bytes from the place `start` on, where all of them are stored.
    #[inline(always)]
    pub(crate) fn stored(&self, start: usize, count: usize) -> Option<&[u8]>
        ensures { IfSome result (λ bytes. bytes.now ≡ window self.now.bytes start count) }
    {
        if start < self.low {
            return None;
        }
        let bytes = bytes_at(self.stored.as_slice(), start - self.low, count);
        if bytes.len() < count {
            return None;
        }
        Some(bytes)
    }

    /// Appends `count` bytes from the place `start` on, of which those past the last one are zeros.
    pub(crate) fn append_to(&self, start: usize, count: usize, out: &mut Vec<u8>)
        requires { vec_len out.old + count ≤ vec_capacity out.old }
        ensures items { out.new.items ≡ out.old.items ++ window self.now.bytes start count }
        ensures len { vec_len out.new ≡ vec_len out.old + count }
        ensures capacity { vec_capacity out.old ≤ vec_capacity out.new }
    {
        let zeros = self.low.saturating_sub(start).min(count);
        append_zeros(out, zeros);
        let place = start.saturating_sub(self.low);
        let stored = bytes_at(self.stored.as_slice(), place, count - zeros);
        out.extend_from_slice(stored).unwrap();
        append_zeros(out, count - zeros - stored.len());
    }
}

impl Clone for Chunk {
    ghost use Rattle.std.specs.Prelude.{◌≡◌};

    ghost is_clone = { λ old new. new.bytes ≡ old.bytes };

    fn clone(&self) -> Result<Self, AllocError> {
        Ok(Chunk {
            low: self.low,
            stored: Vec::from_slice(*self.stored.allocator(), self.stored.as_slice())?,
        })
    }
}

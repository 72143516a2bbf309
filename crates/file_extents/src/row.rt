ghost use Rattle.std.specs.Prelude.{◌≡◌, ℕ, ◌+◌, ◌≤◌, ◌<◌, [], ◌++◌, length, vec_len, vec_capacity, OnOk, IsOk, IfSome, List};
ghost use Rattle.call_types.specs.Stored.{span_bytes};
ghost use Rattle.file_extents.specs.ChunkTable.{ChunkState, chunk_in};
ghost use Rattle.file_extents.specs.Proved.Chunks.{window, HasPlaces, Keeps, Edits, Cuts};

use crate::chunk::Chunk;
use crate::room::{append_zeros, grow};
use call_types::span::Span;
use std::alloc::{AllocError, Global};
use std::marker::Model;

/// How many chunks a row has at most.
pub(crate) const COLUMNS: usize = 256;

/// Chunks by their column. Contracts see the list of them.
#[derive(Drop)]
pub(crate) struct Row {
    chunks: Vec<Chunk>,
}

impl Model for Row {
    ghost Value = { List ChunkState };

    ghost view = { λ row. row.chunks.items };
}

/// Adds empty chunks, up to so many.
fn add_chunks(chunks: &mut Vec<Chunk>, alloc: Global, len: usize) -> Result<(), AllocError>
    ensures kept { Keeps (chunk_in chunks.old.items) (chunk_in chunks.new.items) }
    ensures grown { OnOk result (len ≤ vec_len chunks.new) }
{
    if chunks.capacity() < len {
        grow(chunks, len, COLUMNS)?;
    }
    while chunks.len() < len {
        chunks.push(Chunk::new(alloc))?;
    }
    Ok(())
}

impl Row {
    /// No chunk, and no memory.
    pub(crate) fn new(alloc: Global) -> Self
        ensures { result ≡ [] }
    {
        Row {
            chunks: Vec::new(alloc),
        }
    }

    /// Makes room in the chunk of a column from the place `start` up to `end`. An error says that memory ran out.
    pub(crate) fn reserve(
        &mut self,
        alloc: Global,
        column: usize,
        start: usize,
        end: usize,
    ) -> Result<(), AllocError>
        requires there { column < 256 }
        requires some { start < end }
        requires within { end ≤ 65536 }
        ensures kept { Keeps (chunk_in self.old) (chunk_in self.new) }
        ensures room { OnOk result (HasPlaces (chunk_in self.new column) start end) }
        ensures succeeds { HasPlaces (chunk_in self.old column) start end → IsOk result }
    {
        if self.chunks.len() <= column {
            add_chunks(&mut self.chunks, alloc, column + 1)?;
        }
        self.chunks[column].reserve(alloc, start, end)
    }

    /// Writes `new` into the chunk of a column from the place `start` on.
    pub(crate) fn write(&mut self, column: usize, start: usize, new: Span<'_>)
        requires some { 0 < length (span_bytes new) }
        requires room { HasPlaces (chunk_in self.old column) start (start + length (span_bytes new)) }
        ensures { Edits start (span_bytes new.entry) column (chunk_in self.old) (chunk_in self.new) }
    {
        self.chunks[column].write(start, new);
    }

    /// Keeps what stands before the place `len` of the chunk of a column.
    pub(crate) fn cut(&mut self, column: usize, len: usize)
        requires { column < 256 }
        ensures { Cuts column len (chunk_in self.old) (chunk_in self.new) }
    {
        self.chunks.truncate(column + 1);
        if column < self.chunks.len() {
            self.chunks[column].cut(len);
        }
    }

    /// `count` bytes of the chunk of a column from the place `start` on, where all of them are stored.
    pub(crate) fn stored(&self, column: usize, start: usize, count: usize) -> Option<&[u8]>
        ensures { IfSome result (λ bytes. bytes.now ≡ window (chunk_in self.now column).bytes start count) }
    {
        match self.chunks.get(column) {
            Some(chunk) => chunk.stored(start, count),
            None => None,
        }
    }

    /// Appends `count` bytes of the chunk of a column from the place `start` on, of which those past the last one are zeros.
    pub(crate) fn append_to(&self, column: usize, start: usize, count: usize, out: &mut Vec<u8>)
        requires { vec_len out.old + count ≤ vec_capacity out.old }
        ensures items { out.new.items ≡ out.old.items ++ window (chunk_in self.now column).bytes start count }
        ensures len { vec_len out.new ≡ vec_len out.old + count }
        ensures capacity { vec_capacity out.old ≤ vec_capacity out.new }
    {
        match self.chunks.get(column) {
            Some(chunk) => chunk.append_to(start, count, out),
            None => append_zeros(out, count),
        }
    }
}

impl Clone for Row {
    ghost use Rattle.std.specs.Prelude.{◌≡◌, ℕ};
    ghost use Rattle.file_extents.specs.ChunkTable.{chunk_in};

    ghost is_clone = { λ old new. ((k : ℕ) → (chunk_in new k).bytes ≡ (chunk_in old k).bytes) };

    fn clone(&self) -> Result<Self, AllocError> {
        Ok(Row {
            chunks: self.chunks.clone()?,
        })
    }
}

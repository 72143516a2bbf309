ghost use Rattle.std.specs.Prelude.{◌≡◌, ℕ, ◌+◌, ◌≤◌, ◌<◌, [], ◌++◌, length, vec_len, vec_capacity, OnOk, IsOk, IfSome};
ghost use Rattle.call_types.specs.Stored.{span_bytes};
ghost use Rattle.file_extents.specs.ChunkTable.{TableState, chunk_at, shelf_in, placed};
ghost use Rattle.file_extents.specs.Proved.Chunks.{window, HasPlaces, Keeps, Edits, Cuts};

use crate::chunk::Chunk;
use crate::room::append_zeros;
use crate::shelf::{PLACES, Shelf};
use call_types::span::Span;
use std::alloc::{AllocError, Global};
use std::marker::Model;

/// Chunks by number: the first one, and shelves with all others. Shelf s has the numbers from s * `PLACES` on.
#[derive(Drop)]
pub(crate) struct Table {
    first: Chunk,
    shelves: Vec<Shelf>,
}

impl Model for Table {
    ghost Value = { TableState };

    ghost view = { λ table. record { first = table.first; shelves = table.shelves.items } };
}

/// Adds empty shelves, up to so many.
fn add_shelves(shelves: &mut Vec<Shelf>, alloc: Global, len: usize) -> Result<(), AllocError>
    ensures kept { (k : ℕ) → shelf_in shelves.new.items k ≡ shelf_in shelves.old.items k }
    ensures grown { OnOk result (len ≤ vec_len shelves.new) }
{
    if shelves.len() < len {
        shelves.reserve(len - shelves.len())?;
    }
    while shelves.len() < len {
        shelves.push(Shelf::new(alloc))?;
    }
    Ok(())
}

/// Makes room in a chunk on the shelves from the place `start` up to `end`.
#[inline]
fn reserve_in(
    shelves: &mut Vec<Shelf>,
    alloc: Global,
    number: usize,
    start: usize,
    end: usize,
) -> Result<(), AllocError>
    requires some { start < end }
    requires within { end ≤ 65536 }
    ensures kept { Keeps (placed shelves.old.items) (placed shelves.new.items) }
    ensures room { OnOk result (HasPlaces (placed shelves.new.items number) start end) }
    ensures succeeds { HasPlaces (placed shelves.old.items number) start end → IsOk result }
{
    let shelf = number / PLACES;
    if shelves.len() <= shelf {
        add_shelves(shelves, alloc, shelf + 1)?;
    }
    shelves[shelf].reserve(alloc, number % PLACES, start, end)
}

/// Writes `new` into a chunk on the shelves from the place `start` on.
#[inline]
fn write_in(shelves: &mut Vec<Shelf>, number: usize, start: usize, new: Span<'_>)
    requires some { 0 < length (span_bytes new) }
    requires room { HasPlaces (placed shelves.old.items number) start (start + length (span_bytes new)) }
    ensures { Edits start (span_bytes new.entry) number (placed shelves.old.items) (placed shelves.new.items) }
{
    shelves[number / PLACES].write(number % PLACES, start, new);
}

/// Keeps what stands before the place `len` of a chunk on the shelves.
fn cut_in(shelves: &mut Vec<Shelf>, number: usize, len: usize)
    ensures { Cuts number len (placed shelves.old.items) (placed shelves.new.items) }
{
    let shelf = number / PLACES;
    shelves.truncate(shelf + 1);
    if shelf < shelves.len() {
        shelves[shelf].cut(number % PLACES, len);
    }
}

/// Appends `count` bytes of a chunk on the shelves from the place `start` on.
#[inline(never)]
fn append_in(shelves: &[Shelf], number: usize, start: usize, count: usize, out: &mut Vec<u8>)
    requires { vec_len out.old + count ≤ vec_capacity out.old }
    ensures items { out.new.items ≡ out.old.items ++ window (placed shelves.now number).bytes start count }
    ensures len { vec_len out.new ≡ vec_len out.old + count }
    ensures capacity { vec_capacity out.old ≤ vec_capacity out.new }
{
    match shelves.get(number / PLACES) {
        Some(shelf) => shelf.append_to(number % PLACES, start, count, out),
        None => append_zeros(out, count),
    }
}

/// `count` bytes of a chunk on the shelves from the place `start` on, where all of them are stored.
#[inline(never)]
fn stored_in(shelves: &[Shelf], number: usize, start: usize, count: usize) -> Option<&[u8]>
    ensures { IfSome result (λ bytes. bytes.now ≡ window (placed shelves.now number).bytes start count) }
{
    match shelves.get(number / PLACES) {
        Some(shelf) => shelf.stored(number % PLACES, start, count),
        None => None,
    }
}

impl Table {
    /// No chunk, and no memory.
    pub(crate) fn new(alloc: Global) -> Self
        ensures { (k : ℕ) → (chunk_at result k).bytes ≡ [] }
    {
        Table {
            first: Chunk::new(alloc),
            shelves: Vec::new(alloc),
        }
    }

    /// Makes room in a chunk from the place `start` up to `end`. An error says that memory ran out.
    #[inline(always)]
    pub(crate) fn reserve(
        &mut self,
        alloc: Global,
        number: usize,
        start: usize,
        end: usize,
    ) -> Result<(), AllocError>
        requires some { start < end }
        requires within { end ≤ 65536 }
        ensures kept { Keeps (chunk_at self.old) (chunk_at self.new) }
        ensures room { OnOk result (HasPlaces (chunk_at self.new number) start end) }
        ensures succeeds { HasPlaces (chunk_at self.old number) start end → IsOk result }
    {
        if number == 0 {
            self.first.reserve(alloc, start, end)
        } else {
            reserve_in(&mut self.shelves, alloc, number, start, end)
        }
    }

    /// Writes `new` into a chunk from the place `start` on.
    #[inline(always)]
    pub(crate) fn write(&mut self, number: usize, start: usize, new: Span<'_>)
        requires some { 0 < length (span_bytes new) }
        requires room { HasPlaces (chunk_at self.old number) start (start + length (span_bytes new)) }
        ensures { Edits start (span_bytes new.entry) number (chunk_at self.old) (chunk_at self.new) }
    {
        if number == 0 {
            self.first.write(start, new);
        } else {
            write_in(&mut self.shelves, number, start, new);
        }
    }

    /// Keeps what stands before the place `len` of a chunk.
    pub(crate) fn cut(&mut self, number: usize, len: usize)
        ensures { Cuts number len (chunk_at self.old) (chunk_at self.new) }
    {
        if number == 0 {
            self.first.cut(len);
            self.shelves.clear();
        } else {
            cut_in(&mut self.shelves, number, len);
        }
    }

    /// `count` bytes of a chunk from the place `start` on, where all of them are stored.
    #[inline(always)]
    pub(crate) fn stored(&self, number: usize, start: usize, count: usize) -> Option<&[u8]>
        ensures { IfSome result (λ bytes. bytes.now ≡ window (chunk_at self.now number).bytes start count) }
    {
        if number == 0 {
            self.first.stored(start, count)
        } else {
            stored_in(self.shelves.as_slice(), number, start, count)
        }
    }

    /// Appends `count` bytes of a chunk from the place `start` on, of which those past the last one are zeros.
    #[inline(always)]
    pub(crate) fn append_to(&self, number: usize, start: usize, count: usize, out: &mut Vec<u8>)
        requires { vec_len out.old + count ≤ vec_capacity out.old }
        ensures items { out.new.items ≡ out.old.items ++ window (chunk_at self.now number).bytes start count }
        ensures len { vec_len out.new ≡ vec_len out.old + count }
        ensures capacity { vec_capacity out.old ≤ vec_capacity out.new }
    {
        if number == 0 {
            self.first.append_to(start, count, out);
        } else {
            append_in(self.shelves.as_slice(), number, start, count, out);
        }
    }
}

impl Clone for Table {
    ghost use Rattle.std.specs.Prelude.{◌≡◌, ℕ};
    ghost use Rattle.file_extents.specs.ChunkTable.{chunk_at};

    ghost is_clone = { λ old new. ((k : ℕ) → (chunk_at new k).bytes ≡ (chunk_at old k).bytes) };

    fn clone(&self) -> Result<Self, AllocError> {
        Ok(Table {
            first: self.first.clone()?,
            shelves: self.shelves.clone()?,
        })
    }
}

ghost use Rattle.std.specs.Prelude.{◌≡◌, ℕ, ◌+◌, ◌≤◌, ◌<◌, [], ◌++◌, length, vec_len, vec_capacity, OnOk, IsOk, IfSome, List};
ghost use Rattle.call_types.specs.Stored.{span_bytes};
ghost use Rattle.file_extents.specs.ChunkTable.{ChunkState, row_in, shelved};
ghost use Rattle.file_extents.specs.Proved.Chunks.{window, HasPlaces, Keeps, Edits, Cuts};

use crate::room::{append_zeros, grow};
use crate::row::{COLUMNS, Row};
use call_types::span::Span;
use std::alloc::{AllocError, Global};
use std::marker::Model;

/// How many rows a shelf has at most.
const ROWS: usize = 256;

/// How many chunks a shelf has at most.
pub(crate) const PLACES: usize = ROWS * COLUMNS;

/// Chunks by their place, in rows: row r has the places from r * `COLUMNS` on. Contracts see the list of rows.
#[derive(Drop)]
pub(crate) struct Shelf {
    rows: Vec<Row>,
}

impl Model for Shelf {
    ghost Value = { List (List ChunkState) };

    ghost view = { λ shelf. shelf.rows.items };
}

/// Adds empty rows, up to so many.
fn add_rows(rows: &mut Vec<Row>, alloc: Global, len: usize) -> Result<(), AllocError>
    ensures kept { (k : ℕ) → row_in rows.new.items k ≡ row_in rows.old.items k }
    ensures grown { OnOk result (len ≤ vec_len rows.new) }
{
    if rows.capacity() < len {
        grow(rows, len, ROWS)?;
    }
    while rows.len() < len {
        rows.push(Row::new(alloc))?;
    }
    Ok(())
}

impl Shelf {
    /// No row, and no memory.
    pub(crate) fn new(alloc: Global) -> Self
        ensures { result ≡ [] }
    {
        Shelf {
            rows: Vec::new(alloc),
        }
    }

    /// Makes room in the chunk of a place from `start` up to `end`. An error says that memory ran out.
    pub(crate) fn reserve(
        &mut self,
        alloc: Global,
        place: usize,
        start: usize,
        end: usize,
    ) -> Result<(), AllocError>
        requires some { start < end }
        requires within { end ≤ 65536 }
        ensures kept { Keeps (shelved self.old) (shelved self.new) }
        ensures room { OnOk result (HasPlaces (shelved self.new place) start end) }
        ensures succeeds { HasPlaces (shelved self.old place) start end → IsOk result }
    {
        let row = place / COLUMNS;
        if self.rows.len() <= row {
            add_rows(&mut self.rows, alloc, row + 1)?;
        }
        self.rows[row].reserve(alloc, place % COLUMNS, start, end)
    }

    /// Writes `new` into the chunk of a place from `start` on.
    pub(crate) fn write(&mut self, place: usize, start: usize, new: Span<'_>)
        requires some { 0 < length (span_bytes new) }
        requires room { HasPlaces (shelved self.old place) start (start + length (span_bytes new)) }
        ensures { Edits start (span_bytes new.entry) place (shelved self.old) (shelved self.new) }
    {
        self.rows[place / COLUMNS].write(place % COLUMNS, start, new);
    }

    /// Keeps what stands before the byte `len` of the chunk of a place.
    pub(crate) fn cut(&mut self, place: usize, len: usize)
        ensures { Cuts place len (shelved self.old) (shelved self.new) }
    {
        let row = place / COLUMNS;
        self.rows.truncate(row + 1);
        if row < self.rows.len() {
            self.rows[row].cut(place % COLUMNS, len);
        }
    }

    /// `count` bytes of the chunk of a place from `start` on, where all of them are stored.
    pub(crate) fn stored(&self, place: usize, start: usize, count: usize) -> Option<&[u8]>
        ensures { IfSome result (λ bytes. bytes.now ≡ window (shelved self.now place).bytes start count) }
    {
        match self.rows.get(place / COLUMNS) {
            Some(row) => row.stored(place % COLUMNS, start, count),
            None => None,
        }
    }

    /// Appends `count` bytes of the chunk of a place from `start` on, of which those past the last one are zeros.
    pub(crate) fn append_to(&self, place: usize, start: usize, count: usize, out: &mut Vec<u8>)
        requires { vec_len out.old + count ≤ vec_capacity out.old }
        ensures items { out.new.items ≡ out.old.items ++ window (shelved self.now place).bytes start count }
        ensures len { vec_len out.new ≡ vec_len out.old + count }
        ensures capacity { vec_capacity out.old ≤ vec_capacity out.new }
    {
        match self.rows.get(place / COLUMNS) {
            Some(row) => row.append_to(place % COLUMNS, start, count, out),
            None => append_zeros(out, count),
        }
    }
}

impl Clone for Shelf {
    ghost use Rattle.std.specs.Prelude.{◌≡◌, ℕ};
    ghost use Rattle.file_extents.specs.ChunkTable.{shelved};

    ghost is_clone = { λ old new. ((k : ℕ) → (shelved new k).bytes ≡ (shelved old k).bytes) };

    fn clone(&self) -> Result<Self, AllocError> {
        Ok(Shelf {
            rows: self.rows.clone()?,
        })
    }
}

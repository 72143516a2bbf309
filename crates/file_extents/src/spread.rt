//! Bytes that stand in one chunk or in two. As at most 65,536 are asked for at once, there is no third.
ghost use Rattle.std.specs.Prelude.{◌≡◌, ◌+◌, ◌≤◌, ◌<◌, ◌%◌, ◌^◌, ◌++◌, length, vec_len, vec_capacity, OnOk, IsOk, IfSome};
ghost use Rattle.call_types.specs.Stored.{span_bytes};
ghost use Rattle.file_extents.specs.ChunkTable.{chunk_at};
ghost use Rattle.file_extents.specs.Proved.Chunks.{Keeps};
ghost use Rattle.file_extents.specs.ExtentsState.{bytes_from};
ghost use Rattle.file_extents.specs.Proved.Contents.{IsOver, HasRoom};

use crate::chunk::CHUNK;
use crate::table::Table;
use call_types::span::Span;
use std::alloc::{AllocError, Global};

/// Makes room for bytes within one chunk.
#[inline(always)]
#[tactic(auto, using(crate::proofs::Rooms::room_made))]
fn reserve_within(
    table: &mut Table,
    alloc: Global,
    start: usize,
    count: usize,
) -> Result<(), AllocError>
    requires some { 0 < count }
    requires within { start % 65536 + count ≤ 65536 }
    ensures kept { Keeps (chunk_at table.old) (chunk_at table.new) }
    ensures room { OnOk result (HasRoom table.new start count) }
    ensures succeeds { HasRoom table.old start count → IsOk result }
{
    let place = start % CHUNK;
    table.reserve(alloc, start / CHUNK, place, place + count)
}

/// Makes room for bytes in two chunks.
#[cold]
#[inline(never)]
fn reserve_across(
    table: &mut Table,
    alloc: Global,
    start: usize,
    count: usize,
) -> Result<(), AllocError>
    requires few { count ≤ 65536 }
    requires across { 65536 < start % 65536 + count }
    requires fits { start + count < 2 ^ 63 }
    ensures kept { Keeps (chunk_at table.old) (chunk_at table.new) }
    ensures room { OnOk result (HasRoom table.new start count) }
    ensures succeeds { HasRoom table.old start count → IsOk result }
{
    let here = CHUNK - start % CHUNK;
    reserve_within(table, alloc, start, here)?;
    reserve_within(table, alloc, start + here, count - here)
}

/// Makes room for bytes in at most two chunks.
#[inline(always)]
pub(crate) fn reserve(
    table: &mut Table,
    alloc: Global,
    start: usize,
    count: usize,
) -> Result<(), AllocError>
    requires few { count ≤ 65536 }
    requires fits { start + count < 2 ^ 63 }
    ensures kept { Keeps (chunk_at table.old) (chunk_at table.new) }
    ensures room { OnOk result (HasRoom table.new start count) }
    ensures succeeds { HasRoom table.old start count → IsOk result }
{
    if count == 0 {
        return Ok(());
    }
    if start % CHUNK + count <= CHUNK {
        return reserve_within(table, alloc, start, count);
    }
    reserve_across(table, alloc, start, count)
}

/// Writes new bytes within one chunk.
#[inline(always)]
fn put_within(table: &mut Table, start: usize, new: Span<'_>)
    requires some { 0 < length (span_bytes new) }
    requires within { start % 65536 + length (span_bytes new) ≤ 65536 }
    requires room { HasRoom table.old start (length (span_bytes new)) }
    ensures { IsOver start (span_bytes new.entry) (chunk_at table.old) (chunk_at table.new) }
{
    table.write(start / CHUNK, start % CHUNK, new);
}

/// Writes new bytes in two chunks.
#[cold]
#[inline(never)]
fn put_across(table: &mut Table, start: usize, new: Span<'_>)
    requires few { length (span_bytes new) ≤ 65536 }
    requires across { 65536 < start % 65536 + length (span_bytes new) }
    requires fits { start + length (span_bytes new) < 2 ^ 63 }
    requires room { HasRoom table.old start (length (span_bytes new)) }
    ensures { IsOver start (span_bytes new.entry) (chunk_at table.old) (chunk_at table.new) }
{
    let here = CHUNK - start % CHUNK;
    put_within(table, start, new.cut(0, here));
    put_within(table, start + here, new.cut(here, CHUNK));
}

/// Writes new bytes in at most two chunks.
#[inline(always)]
pub(crate) fn put(table: &mut Table, start: usize, new: Span<'_>)
    requires few { length (span_bytes new) ≤ 65536 }
    requires fits { start + length (span_bytes new) < 2 ^ 63 }
    requires room { HasRoom table.old start (length (span_bytes new)) }
    ensures { IsOver start (span_bytes new.entry) (chunk_at table.old) (chunk_at table.new) }
{
    let count = new.len();
    if count == 0 {
        return;
    }
    if start % CHUNK + count <= CHUNK {
        put_within(table, start, new);
        return;
    }
    put_across(table, start, new);
}

/// Bytes where they are, if all of them are stored in one chunk.
#[inline(always)]
pub(crate) fn stored(table: &Table, start: usize, count: usize) -> Option<&[u8]>
    ensures { IfSome result (λ bytes. bytes.now ≡ bytes_from (chunk_at table.now) start count) }
{
    let place = start % CHUNK;
    if count > CHUNK - place {
        return None;
    }
    table.stored(start / CHUNK, place, count)
}

/// Appends bytes of one chunk.
#[inline(always)]
fn append_within(table: &Table, start: usize, count: usize, out: &mut Vec<u8>)
    requires within { start % 65536 + count ≤ 65536 }
    requires room { vec_len out.old + count ≤ vec_capacity out.old }
    ensures items { out.new.items ≡ out.old.items ++ bytes_from (chunk_at table.now) start count }
    ensures len { vec_len out.new ≡ vec_len out.old + count }
    ensures capacity { vec_capacity out.old ≤ vec_capacity out.new }
{
    table.append_to(start / CHUNK, start % CHUNK, count, out);
}

/// Appends bytes of at most two chunks.
pub(crate) fn append(table: &Table, start: usize, count: usize, out: &mut Vec<u8>)
    requires few { count ≤ 65536 }
    requires fits { start + count < 2 ^ 64 }
    requires room { vec_len out.old + count ≤ vec_capacity out.old }
    ensures items { out.new.items ≡ out.old.items ++ bytes_from (chunk_at table.now) start count }
    ensures capacity { vec_capacity out.old ≤ vec_capacity out.new }
{
    let here = CHUNK - start % CHUNK;
    if count <= here {
        append_within(table, start, count, out);
        return;
    }
    append_within(table, start, here, out);
    append_within(table, start + here, count - here, out);
}

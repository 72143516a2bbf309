//! The pipes, each under its number, with a ring of bytes and the counts of its open ends (XBD 3, Pipe and FIFO Special File; page of pipe).
//!
//! A pipe is added with its first end and goes with its last one. Between the two, bytes are put after those that stand there and taken from the front, so they are
//! read in the order of writing and each of them once (pages of write and read). An end is a live open file description, and may read, write or both. What the counts
//! tell: with no writer left a reader of an empty pipe is at the end of the file, and with no reader left a write breaks (pages of read and write).
//!
//! Room is made first: `reserve` for one more pipe, `reserve_bytes` for more bytes in one that is there. Besides these only `peek` takes memory, for the copy that
//! it gives, and nothing else in here can fail.
#![tactic(auto)]

pub mod ring;

ghost use Rattle.std.specs.Prelude.{◌≡◌, ℕ, ◌+◌, ◌-◌, ◌<◌, ◌≤◌, ◌^◌, ◌∷◌, [], ◌++◌, Some, true, is_some, length, take, drop, IfOk, OnOk, IsOk};
ghost use Rattle.call_types.specs.declared.limits.TheConstants.{TRANSFER_MAX};
ghost use Rattle.call_types.specs.Stored.{span_bytes};
ghost use Rattle.slots.specs.Slots.{slot, edited};
ghost use Rattle.slots.specs.UsedSlots.{value_at, values_in};
ghost use Rattle.slots.specs.Proved.Uses.{uses_at, last_value, used_once, use_added, use_dropped, with_value};
ghost use Rattle.pipe_table.specs.Blocks.{block_slots};
ghost use Rattle.pipe_table.specs.Proved.Pipes.{held_at, readers_at, writers_at, block_at, places_left, edited_ring, with_block, endless, with_end, without_end, HasEnd, HasEndAt, HasPlacesAt};

use crate::ring::PipeRing;
use call_types::bounded::Content;
use call_types::description::Mode;
use call_types::span::Span;
use slots::numbered::Numbered;
use slots::used::Used;
use std::alloc::{AllocError, Global};
use std::marker::Model;

/// A pipe: the bytes that it holds, and how many of its open ends can read and how many can write (page of pipe).
#[derive(Drop)]
pub struct StoredPipe {
    pub ring: PipeRing,
    pub readers: usize,
    pub writers: usize,
}

impl StoredPipe {
    /// A pipe of which no end is open.
    fn new(ring: PipeRing) -> Self
        ensures { result ≡ endless ring }
    {
        StoredPipe {
            ring,
            readers: 0,
            writers: 0,
        }
    }

    /// One end more is open.
    fn add_end(&mut self, mode: Mode)
        requires readers { self.old.readers < 2 ^ 63 }
        requires writers { self.old.writers < 2 ^ 63 }
        ensures { self.new ≡ with_end mode self.old }
    {
        match mode {
            Mode::Read => self.readers += 1,
            Mode::Write => self.writers += 1,
            Mode::ReadWrite => {
                self.readers += 1;
                self.writers += 1;
            }
        }
    }

    /// One end less is open.
    fn drop_end(&mut self, mode: Mode)
        requires { HasEnd mode self.old }
        ensures { self.new ≡ without_end mode self.old }
    {
        match mode {
            Mode::Read => self.readers -= 1,
            Mode::Write => self.writers -= 1,
            Mode::ReadWrite => {
                self.readers -= 1;
                self.writers -= 1;
            }
        }
    }
}

/// Puts bytes into a ring, after those that it holds; there are places for all of them.
fn put_all(ring: &mut PipeRing, bytes: Span<'_>)
    requires { length (span_bytes bytes) ≤ ring.old.block - length ring.old.bytes }
    ensures { ring.new ≡ record { bytes = ring.old.bytes ++ span_bytes bytes.entry; capacity = ring.old.capacity; block = ring.old.block } }
{
    match bytes {
        Span::Slice(bytes) => ring.put_all(bytes),
        Span::Same { byte, count } => ring.put_same(byte, count),
    }
}

/// The pipes of which an end is open. Contracts see a slot for each number that was ever given, with how many ends are open, and for how many more pipes there
/// is room.
#[derive(Drop)]
pub struct PipeTable {
    pipes: Numbered<Used<StoredPipe>>,
}

impl Model for PipeTable {
    ghost use Rattle.std.specs.Prelude.{List, Option, ℕ};
    ghost use Rattle.slots.specs.declared.used.Used.{Used as Uses};
    ghost use Rattle.pipe_table.specs.declared.StoredPipe.{StoredPipe as Pipe};

    ghost Value = { List (Option (Uses Pipe)) × ℕ };

    ghost view = { λ table. table.pipes };
}

impl PipeTable {
    /// No pipe yet, and no number given.
    pub fn new(alloc: Global) -> Self
        ensures { result.0 ≡ [] }
    {
        PipeTable {
            pipes: Numbered::new(alloc),
        }
    }

    /// The number of the next pipe.
    pub fn next(&self) -> usize
        ensures { result ≡ length self.now.0 }
    {
        self.pipes.next()
    }

    /// How many bytes a pipe holds; none where it is gone.
    pub fn held_in(&self, pipe: usize) -> usize
        ensures { result ≡ length (held_at (slot (values_in self.now.0) pipe)) }
    {
        match self.pipes.get(pipe) {
            Some(used) => used.value.ring.len(),
            None => 0,
        }
    }

    /// A copy of the first bytes that a pipe holds, at most so many; none where it is gone. An error says that memory ran out.
    pub fn peek(&self, alloc: Global, pipe: usize, count: usize) -> Result<Content, AllocError>
        requires { count ≤ TRANSFER_MAX }
        ensures { IfOk result (λ content. content ≡ take count (held_at (slot (values_in self.now.0) pipe))) }
    {
        match self.pipes.get(pipe) {
            Some(used) => {
                let (front, back) = used.value.ring.first(count);
                Content::joined(alloc, front, back)
            }
            None => Ok(Content::empty()),
        }
    }

    /// How many of the open ends of a pipe can read; none where it is gone.
    pub fn readers(&self, pipe: usize) -> usize
        ensures { result ≡ readers_at (slot (values_in self.now.0) pipe) }
    {
        match self.pipes.get(pipe) {
            Some(used) => used.value.readers,
            None => 0,
        }
    }

    /// How many of the open ends of a pipe can write; none where it is gone.
    pub fn writers(&self, pipe: usize) -> usize
        ensures { result ≡ writers_at (slot (values_in self.now.0) pipe) }
    {
        match self.pipes.get(pipe) {
            Some(used) => used.value.writers,
            None => 0,
        }
    }

    /// Makes room for one more pipe, but not for its bytes; an error says that memory or numbers ran out.
    pub fn reserve(&mut self) -> Result<(), AllocError>
        ensures slots { self.new.0 ≡ self.old.0 }
        ensures room { OnOk result (0 < self.new.1) }
        ensures kept { self.old.1 ≤ self.new.1 }
        ensures succeeds { 0 < self.old.1 → IsOk result }
    {
        self.pipes.reserve()
    }

    /// Makes places for so many more bytes in a pipe, or for as many more as it can hold. An error says that memory ran out.
    #[inline(always)]
    pub fn reserve_bytes(&mut self, pipe: usize, count: usize) -> Result<(), AllocError>
        requires { is_some (slot self.old.0 pipe) ≡ true }
        ensures slots { (block : ℕ) × (self.new.0 ≡ edited pipe (with_value (with_block block)) self.old.0) }
        ensures places { OnOk result (HasPlacesAt self.new.0 pipe count) }
        ensures kept { (n : ℕ) → block_at (block_slots (values_in self.old.0)) n ≤ block_at (block_slots (values_in self.new.0)) n }
        ensures room { self.new.1 ≡ self.old.1 }
    {
        self.pipes.value_mut(pipe).value.ring.reserve(count)
    }

    /// Puts bytes into a pipe, after those that it holds; there are places for all of them (page of write).
    pub fn put(&mut self, pipe: usize, bytes: Span<'_>)
        requires there { is_some (slot self.old.0 pipe) ≡ true }
        requires places { length (span_bytes bytes) ≤ places_left (value_at (slot self.old.0 pipe)) }
        ensures slots { self.new.0 ≡ edited pipe (with_value (edited_ring (λ held. held ++ span_bytes bytes.entry))) self.old.0 }
        ensures room { self.new.1 ≡ self.old.1 }
    {
        put_all(&mut self.pipes.value_mut(pipe).value.ring, bytes);
    }

    /// Takes the first bytes out of a pipe, so many, or all that it holds (page of read).
    pub fn take(&mut self, pipe: usize, count: usize)
        requires { is_some (slot self.old.0 pipe) ≡ true }
        ensures slots { self.new.0 ≡ edited pipe (with_value (edited_ring (drop count))) self.old.0 }
        ensures room { self.new.1 ≡ self.old.1 }
    {
        self.pipes.value_mut(pipe).value.ring.skip(count);
    }

    /// Gives the next number, for which there is room, to a pipe with this ring and one end (pages of pipe and open).
    pub fn add(&mut self, ring: PipeRing, mode: Mode)
        requires { 0 < self.old.1 }
        ensures slots { self.new.0 ≡ self.old.0 ++ Some (used_once (with_end mode (endless ring))) ∷ [] }
        ensures room { self.new.1 + 1 ≡ self.old.1 }
    {
        let mut pipe = StoredPipe::new(ring);
        pipe.add_end(mode);
        self.pipes.push(Used {
            value: pipe,
            uses: 1,
        });
    }

    /// Adds an end to a pipe (page of open).
    pub fn add_end(&mut self, pipe: usize, mode: Mode)
        requires there { is_some (slot self.old.0 pipe) ≡ true }
        requires few { uses_at (slot self.old.0 pipe) < 2 ^ 63 }
        requires few_readers { readers_at (value_at (slot self.old.0 pipe)) < 2 ^ 63 }
        requires few_writers { writers_at (value_at (slot self.old.0 pipe)) < 2 ^ 63 }
        ensures slots { self.new.0 ≡ use_added pipe (edited pipe (with_value (with_end mode)) self.old.0) }
        ensures room { self.new.1 ≡ self.old.1 }
    {
        let used = self.pipes.value_mut(pipe);
        used.value.add_end(mode);
        used.uses += 1;
    }

    /// Drops an end of a pipe. With its last end the pipe is removed and returned (page of close).
    pub fn drop_end(&mut self, pipe: usize, mode: Mode) -> Option<StoredPipe>
        requires { HasEndAt self.old.0 mode pipe }
        ensures slots { self.new.0 ≡ use_dropped pipe (edited pipe (with_value (without_end mode)) self.old.0) }
        ensures gone { result ≡ last_value (slot (edited pipe (with_value (without_end mode)) self.old.0) pipe) }
        ensures room { self.old.1 ≤ self.new.1 }
        ensures most { self.new.1 ≤ self.old.1 + 1 }
    {
        self.pipes.value_mut(pipe).value.drop_end(mode);
        self.pipes.drop_use(pipe)
    }
}

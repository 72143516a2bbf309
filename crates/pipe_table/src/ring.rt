//! The bytes of one pipe. They leave in the order in which they were put, each of them once, and none is overwritten.
//!
//! They stand in one block, as a ring. A new pipe has no block: `reserve` makes places for bytes, and then putting and taking them wants no memory. A block that is
//! too small is replaced by one of twice the size at least, but never of more places than the pipe can hold bytes. So all its blocks together move fewer bytes than
//! twice its capacity, however long it lives. The block is given back with the pipe.

ghost use Rattle.std.specs.Prelude.{◌≡◌, ◌-◌, ◌≤◌, [], ◌++◌, length, min, take, drop, replicate, IfOk, OnOk, IsOk};
ghost use Rattle.pipe_table.specs.Proved.Places.{HasPlaces};

use circular_buffer::HeapCircularBuffer;
use std::alloc::{AllocError, Global};
use std::marker::Model;

/// How many bytes are put at once where they are all the same.
const PIECE: usize = 512;

/// How many places the first block has at least, or as many as the pipe can hold bytes.
const FIRST_BLOCK: usize = 512;

/// The bytes that a pipe or FIFO holds; those written first are read first (page of pipe). Contracts see the list of them, in the order of reading, the
/// capacity in bytes, and how many of these the block has places for.
#[derive(Drop)]
pub struct PipeRing {
    ring: HeapCircularBuffer<u8>,
    capacity: usize,
}

impl Model for PipeRing {
    ghost use Rattle.std.specs.Prelude.{length, ◌≤◌};
    ghost use Rattle.pipe_table.specs.Ring.{Ring};

    ghost Value = { Ring };

    ghost view = { λ pipe. record { bytes = pipe.ring.items; capacity = pipe.capacity; block = pipe.ring.capacity } };

    ghost invariant = { λ pipe. (length pipe.ring.items ≤ pipe.ring.capacity) × (pipe.ring.capacity ≤ pipe.capacity) };
}

impl PipeRing {
    /// No byte yet, and no place for one; it can hold this many. An error says that memory ran out.
    pub fn new(alloc: Global, capacity: usize) -> Result<Self, AllocError>
        ensures bytes { IfOk result (λ pipe. pipe.bytes ≡ []) }
        ensures capacity { IfOk result (λ pipe. pipe.capacity ≡ capacity) }
        ensures block { IfOk result (λ pipe. pipe.block ≡ 0) }
    {
        Ok(PipeRing {
            ring: HeapCircularBuffer::with_capacity(alloc, 0)?,
            capacity,
        })
    }

    /// How many bytes it holds.
    pub fn len(&self) -> usize
        ensures len { result ≡ length self.now.bytes }
        ensures within { result ≤ self.now.capacity }
    {
        self.ring.len()
    }

    /// How many more bytes it can hold.
    pub fn room(&self) -> usize
        ensures room { result ≡ self.now.capacity - length self.now.bytes }
        ensures within { length self.now.bytes ≤ self.now.capacity }
    {
        self.capacity - self.ring.len()
    }

    /// Makes places for so many more bytes, or for as many more as it can hold. An error says that memory ran out.
    #[inline(always)]
    pub fn reserve(&mut self, count: usize) -> Result<(), AllocError>
        ensures bytes { self.new.bytes ≡ self.old.bytes }
        ensures capacity { self.new.capacity ≡ self.old.capacity }
        ensures places { OnOk result (HasPlaces self.new count) }
        ensures kept { self.old.block ≤ self.new.block }
        ensures succeeds { HasPlaces self.old count → IsOk result }
    {
        if count <= self.ring.capacity() - self.ring.len() {
            return Ok(());
        }
        self.grow(count)
    }

    /// Takes a block with places for so many more bytes, or for as many more as it can hold, unless it has them.
    #[cold]
    #[inline(never)]
    fn grow(&mut self, count: usize) -> Result<(), AllocError>
        ensures bytes { self.new.bytes ≡ self.old.bytes }
        ensures capacity { self.new.capacity ≡ self.old.capacity }
        ensures places { OnOk result (HasPlaces self.new count) }
        ensures kept { self.old.block ≤ self.new.block }
        ensures succeeds { HasPlaces self.old count → IsOk result }
    {
        let wanted = self.ring.len() + count.min(self.room());
        if wanted <= self.ring.capacity() {
            return Ok(());
        }
        let twice = self.ring.capacity().saturating_mul(2).max(FIRST_BLOCK);
        self.move_to(wanted.max(twice.min(self.capacity)))
    }

    /// Takes a block with so many places, and moves the bytes into it.
    fn move_to(&mut self, block: usize) -> Result<(), AllocError>
        requires larger { self.old.block ≤ block }
        requires within { block ≤ self.old.capacity }
        ensures bytes { self.new.bytes ≡ self.old.bytes }
        ensures capacity { self.new.capacity ≡ self.old.capacity }
        ensures moved { OnOk result (self.new.block ≡ block) }
        ensures kept { self.old.block ≤ self.new.block }
    {
        let mut larger = HeapCircularBuffer::with_capacity(*self.ring.allocator(), block)?;
        let (front, back) = self.ring.as_slices();
        larger.fill_from_slice(front);
        larger.fill_from_slice(back);
        self.ring = larger;
        Ok(())
    }

    /// Puts these bytes after those that it holds; there are places for all of them (page of write). It takes no memory.
    pub fn put_all(&mut self, bytes: &[u8])
        requires { length bytes.now ≤ self.old.block - length self.old.bytes }
        ensures bytes { self.new.bytes ≡ self.old.bytes ++ bytes.now }
        ensures capacity { self.new.capacity ≡ self.old.capacity }
        ensures block { self.new.block ≡ self.old.block }
    {
        self.put_some(bytes);
    }

    /// Puts as many of these bytes as it can hold, from the first on, and gives their number (page of write). There are places for them. It takes no memory.
    pub fn put_some(&mut self, bytes: &[u8]) -> usize
        requires { HasPlaces self.old (length bytes.now) }
        ensures count { result ≡ min (length bytes.now) (self.old.capacity - length self.old.bytes) }
        ensures bytes { self.new.bytes ≡ self.old.bytes ++ take result bytes.now }
        ensures capacity { self.new.capacity ≡ self.old.capacity }
        ensures block { self.new.block ≡ self.old.block }
        ensures within { self.old.block ≤ self.old.capacity }
    {
        self.ring.fill_from_slice(bytes)
    }

    /// Puts one byte, so many times, after those that it holds; there are places for all of them (page of write). It takes no memory.
    pub fn put_same(&mut self, byte: u8, count: usize)
        requires { count ≤ self.old.block - length self.old.bytes }
        ensures bytes { self.new.bytes ≡ self.old.bytes ++ replicate count byte }
        ensures capacity { self.new.capacity ≡ self.old.capacity }
        ensures block { self.new.block ≡ self.old.block }
    {
        let piece = [byte; PIECE];
        let mut left = count;
        while left > 0 {
            let here = left.min(PIECE);
            self.put_all(&piece[..here]);
            left -= here;
        }
    }

    /// The first bytes, at most this many, in two slices of which the second follows the first; they stay in the ring. It takes no memory.
    pub fn first(&self, count: usize) -> (&[u8], &[u8])
        ensures { result.0.now ++ result.1.now ≡ take count self.now.bytes }
    {
        let (front, back) = self.ring.as_slices();
        let from_front = count.min(front.len());
        let from_back = (count - from_front).min(back.len());
        (&front[..from_front], &back[..from_back])
    }

    /// Moves the first bytes to the front of the target, as many as it has room for, and gives their number (page of read). The rest of the target stays
    /// as it was. It takes no memory.
    pub fn take_into(&mut self, target: &mut [u8]) -> usize
        ensures count { result ≡ min (length target.old) (length self.old.bytes) }
        ensures taken { target.new ≡ take result self.old.bytes ++ drop result target.old }
        ensures bytes { self.new.bytes ≡ drop result self.old.bytes }
        ensures capacity { self.new.capacity ≡ self.old.capacity }
        ensures block { self.new.block ≡ self.old.block }
    {
        self.ring.read_into(target)
    }

    /// Removes the first bytes, at most this many (page of read). It takes no memory.
    pub fn skip(&mut self, count: usize)
        ensures bytes { self.new.bytes ≡ drop count self.old.bytes }
        ensures capacity { self.new.capacity ≡ self.old.capacity }
        ensures block { self.new.block ≡ self.old.block }
    {
        let left = self.ring.len().saturating_sub(count);
        self.ring.truncate_front(left);
    }
}

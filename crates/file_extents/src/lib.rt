//! The bytes of a regular file. Where nothing was written nothing is stored, and zeros are read.
//!
//! **Where a byte stands.** Chunk k has the bytes from k * 65,536 on. The first chunk stands in the value; of the others 256 make a row, 256 rows make a
//! shelf, which is 4 GiB of the file, and there are as many shelves as are needed. So a byte is found by three divisions and without a search, and as at most
//! 65,536 bytes are moved at once, a read or a write touches one chunk or two. A chunk without bytes but with capacity is room that was reserved: it changes
//! nothing that can be read.
//!
//! **What a file takes.** At most 10 times the blocks of 4,096 bytes that were written or reserved, and besides 48 bytes for each 4 GiB up to the last of
//! them. So a single byte in a file of 2^40 bytes takes at most 52 KiB. The reasoning, in blocks:
//!
//! - A chunk begins at the first block that room is made for, and moves to its lowest place when a lower one is wanted; its capacity doubles, up to its end.
//!   So it has at most 2 blocks of memory if one block was wanted, and at most 16, which is all of it, if two or more were: at most 8 times as much.
//! - A row has at most 256 chunks of 32 bytes, which makes 2 blocks. If one block was wanted in it, it takes 2 + 2 = 4 of memory. If n were, and n is at
//!   least 2, it takes at most 2 + 8 n, which is at most 9 n.
//! - A shelf has at most 256 rows of 24 bytes, which makes 1.5 blocks. If one block was wanted on it, it takes at most 1.5 + 4 = 5.5 of memory. If n were,
//!   and n is at least 2, it takes at most 1.5 + 9 n, which is less than 10 n.
//! - A shelf is 24 bytes in a vector that doubles, and has room for four at least: the 48 bytes that a single shelf takes above its own 48 are less than what
//!   the lines before leave of 10 n. The first chunk is on no shelf.
//!
//! `cut` gives back the chunks after the last byte; the chunk of that byte keeps its room. Lengthening a file takes no memory.
#![tactic(auto)]

mod chunk;
pub mod extents;
mod room;
mod row;
mod shelf;
mod spread;
mod table;

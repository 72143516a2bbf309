//! The files, each under its number: what a file is, how many names it has, and what else uses it (XBD 3, File and Link Count).
//!
//! A file is a regular one, whose bytes stand in `file_extents`, or a FIFO, which has no bytes of its own: it knows the number of the pipe that it is open on, and how
//! often each of its ends was opened. A file is used by its names and by what holds it, the open file descriptions; it goes with the last use (page of unlink). So
//! each file has two counts: its links, and all its uses.
//!
//! Room is made first: `reserve` for one more file, `reserve_bytes` for bytes from a position on. Then a write, an edit of the length and an edit of the counts take
//! no memory and cannot fail. A read takes memory only for the copy that it gives, and once more where the bytes lie in two chunks or in a hole.
#![tactic(auto)]

pub mod stored_file;
pub mod table;

//! The calls: what each act comes to, in any state that can be read as a world. A call that may wait comes to what one
//! try of it does, and a resume to the next. None changes anything.
#![tactic(auto)]

pub mod attach;
pub mod close;
pub mod decide;
pub mod dup;
pub mod dup2;
pub mod exit;
pub mod fork;
pub mod fstat;
pub mod ftruncate;
pub mod getfl;
pub mod given;
pub mod join;
pub mod link;
pub mod lseek;
pub mod mkfifo;
pub mod names;
pub mod open;
pub mod open_end;
pub mod opening;
pub mod pipe;
pub mod pread;
mod puts;
pub mod pwrite;
pub mod read;
pub mod read_end;
pub mod rename;
pub mod resume;
pub mod setfl;
pub mod targets;
pub mod tries;
pub mod unlink;
pub mod write;
pub mod write_end;

//! What serves the processes of a run: a kernel, whose calls any thread may make.
#![tactic(auto)]

mod acts;
mod bells;
pub mod kernel;
pub mod lock;
mod lost;
pub mod one_book;
mod others;
mod past;
pub mod run;
pub mod run_seat;
mod sleepers;
mod stirred;
pub mod system;
mod waking;
pub mod watch;

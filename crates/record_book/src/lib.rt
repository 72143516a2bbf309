//! The book of a run: each act appends one record, whose outcome is the one that the model gives.
//!
//! A *receipt* is a record with its place in the book. A *seat* is what the connection of a process holds: above all the receipts
//! of the process's own acts. The *house* is the run itself: it records the exits of processes that have no connection, and the
//! closing of the run, and has a seat with the receipts of these. The *progress* of a run is what its records lead to, without
//! them: whether an act is refused and what it comes to. The *journal* keeps the records too, and the book counts them by seats.
#![tactic(auto)]

pub mod book;
pub mod calling;
pub mod closing;
pub mod exits;
mod history;
mod journal;
pub mod moved;
pub mod opening;
pub mod progress;
mod recording;
mod refusals;
pub mod seat;

//! All that the calls of a race may answer, whichever process goes on next: a search of every order of moves.
#![tactic(auto)]

mod digest;
pub mod lanes;
pub mod lines;
pub mod position;
pub mod positions;
mod same;
pub mod search;
pub mod setup;
mod table;
pub mod tellings;
pub mod witness;

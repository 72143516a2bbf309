//! Whether a trace tells what the model gives.
#![tactic(auto)]

pub mod audit;
mod body;
pub mod judge;
mod judging;
pub mod laws;
mod state;
pub mod trace;
pub mod verdict;

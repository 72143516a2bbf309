//! The history of a run, as its threads know it: it only grows, and each thread knows its first records.
#![tactic(auto)]

pub mod front;
mod law;

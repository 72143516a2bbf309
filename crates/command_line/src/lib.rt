//! What the words of a command line ask for.
#![tactic(auto)]

pub mod demand;
pub mod form;
pub mod job;
pub mod spelling;
pub mod telling;

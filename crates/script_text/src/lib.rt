//! Scripts and record lines: reading the lines of a script, and writing the lines of a run.
#![tactic(auto)]

mod ahead;
pub mod answers;
mod calls;
mod common;
mod copies;
mod cutting;
pub mod fault;
mod fields;
mod flags;
mod hexadecimal;
pub mod lines;
mod name;
mod number;
mod outcomes;
mod payload;
mod put;
pub mod races;
pub mod reading;
pub mod round_trip;
pub mod row;
pub mod script;
mod whence;
mod words;

//! Numbered slots: what stands at a number, which is not given again. Nothing in here knows of files or processes.
#![tactic(auto)]

pub mod dense;
pub mod keyed;
pub mod numbered;
pub mod ticket;
pub mod used;

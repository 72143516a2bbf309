//! A whole run: its sessions, each in a thread of its own, and its closing.
#![tactic(auto)]

pub mod closing;
pub mod comparison;
mod laws;
pub mod report;
pub mod sessions;
pub mod source;
mod tracing;

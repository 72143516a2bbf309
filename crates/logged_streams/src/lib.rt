//! Readers and writers, each with a log of what became of the calls on it, and the loop that reads a stream.
#![tactic(auto)]

pub mod gate;
pub mod laws;
pub mod reader;
pub mod reading;
pub mod stream_log;
pub mod writer;

//! Requests, answers and records as frames of bytes, and a decoder that takes them in any pieces.
#![tactic(auto)]

pub mod answer;
mod answers;
mod begun;
pub mod calls;
pub mod decoder;
pub mod encode;
pub mod fault;
mod fields;
pub mod frame_kind;
pub mod laws;
mod outcomes;
mod put;
pub mod ranges;
mod records;
mod requests;
pub mod trace;
pub mod value_taker;
pub mod written_outcomes;

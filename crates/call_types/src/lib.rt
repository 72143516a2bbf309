//! The words that every layer speaks: calls, acts, outcomes and records, with the limits of their fields.
#![tactic(auto)]

pub mod act;
pub mod bounded;
pub mod call;
pub mod description;
pub mod errno;
mod few;
pub mod flags;
pub mod gathered;
pub mod limits;
pub mod outcome;
pub mod refusal;
pub mod request;
pub mod same;
pub mod span;
pub mod whence;

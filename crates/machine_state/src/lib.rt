//! The machine: the state of all files and processes in a form that is changed in place, seen as a world of the model.
//!
//! Files, pipes, descriptions, processes and names stand in tables, each of them a crate that knows nothing of the others. What stands here ties them: one
//! invariant, by which each count that a table keeps is that of the world; the room that a change takes; and one `apply`.
#![tactic(auto)]

mod apply;
mod counts;
mod descriptors;
mod entries;
mod files;
pub mod machine;
mod pipes;
mod processes;
mod reader;
mod reserve;
mod targets;

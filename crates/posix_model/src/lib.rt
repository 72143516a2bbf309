//! The model: the world's types, the definitions of all calls and steps, and the laws that the crates above use.
#![tactic(auto)]

pub mod change;
pub mod contents;
pub mod counts;
pub mod kept_name;
pub mod laws;
pub mod names;
pub mod opened;
pub mod pipe_laws;
pub mod plain_reader;
pub mod reader;
pub mod runs;
pub mod world;

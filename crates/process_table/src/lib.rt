//! The processes of a run: the descriptors of each, the call that it waits in, and whether it has a connection.
#![tactic(auto)]

pub mod kept_call;
mod mask;
pub mod process;
pub mod processes;
pub mod table;

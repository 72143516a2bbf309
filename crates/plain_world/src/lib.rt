//! The plain program: the model's step on plain lists, proved to give what the definitions give; and the laws of the model
//! that its readers ask for.
#![tactic(auto)]

mod counts;
pub mod descriptor_laws;
pub mod file_laws;
pub mod history;
pub mod laws;
mod make;
pub mod name_laws;
pub mod pipe_laws;
mod pipes;
pub mod process_laws;
pub mod step;
mod sweep;

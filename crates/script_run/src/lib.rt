//! The run of a script, of which nothing is kept but what its records lead to.
//!
//! Each act of a script is told as its record, as the records of a closing, or as why there is none. What is told is what a book and seats
//! would tell (`record_book`): they stand in contracts alone, as any that *fit* the run. So no record is shared or kept here; whoever is told
//! of one has it.
#![tactic(auto)]

mod append;
mod closing;
mod opening;
pub mod run;
mod running;
pub mod told;

//! How a job ends, and the jobs of one thread: a replay, the outcomes of a
//! race, an audit, a trace that is shown, and one that is written anew.
#![tactic(auto)]

pub mod audit_file;
pub mod job_end;
pub mod migrate_file;
pub mod outcomes;
pub mod output;
pub mod replay;
pub mod show;
pub mod shown;

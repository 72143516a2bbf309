//! A sum that is kept twice: in a tally, and in shares each of which knows what was added through it. All shares together have the
//! tally's sum, and no set of them that lacks one can be taken for all. No call takes memory.
#![tactic(auto)]

pub mod gather;
pub mod ledgers;
pub mod tallies;
pub mod tally;

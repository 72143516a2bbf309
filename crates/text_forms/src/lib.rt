//! Other forms of scripts and of what is printed: for people, and for other programs.
#![tactic(auto)]

pub mod json;
pub mod scripts;

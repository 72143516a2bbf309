//! Tests of whole runs that no program makes: with gates that hold answers back, and without sessions.
#![tactic(auto)]

#[cfg(test)]
mod tests;

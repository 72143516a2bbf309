//! Tests of sessions that no program makes: one call at a time, one after another.
#![tactic(auto)]

#[cfg(test)]
mod tests;

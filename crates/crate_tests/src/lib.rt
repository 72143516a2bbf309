//! Tests of what no program calls. What the program calls is tested by `tests/acceptance.py` at the top of the repository.
#![tactic(auto)]

#[cfg(test)]
mod tests;

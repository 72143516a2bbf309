//! What is demanded of a trace that is audited.

/// What is demanded of a trace that is audited.
#[derive(Clone, Copy, Debug, PartialEq, Eq)]
pub enum Demand {
    /// Each of its whole records is what the model gives.
    Legal,
    /// The same, its last record is the closing of the run, and nothing comes after it.
    Complete,
}

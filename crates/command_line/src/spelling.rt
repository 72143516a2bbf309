//! How a script is spelled.

/// How a script is spelled, and the lines of its run.
#[derive(Clone, Copy, Debug, PartialEq, Eq)]
pub enum Spelling {
    /// As the formats say, byte for byte.
    Plain,
    /// With comments and with strings, for people.
    Text,
}

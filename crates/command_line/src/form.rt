//! In which form records are shown.

/// In which form the records of a trace are shown.
#[derive(Clone, Copy, Debug, PartialEq, Eq)]
pub enum Form {
    /// A line for each record, with its place and its outcome.
    Records,
    /// The lines of a script that asks for the same acts.
    Acts,
    /// The lines of `Records`, with data of printable bytes as strings.
    RecordsInText,
    /// The lines of `Acts`, with data of printable bytes as strings.
    ActsInText,
    /// A JSON object for each record.
    Objects,
}

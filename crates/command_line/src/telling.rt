//! What is told of the outcomes of a race.

use crate::form::Form;

/// What is told of the outcomes of a race. They are numbered from 0, in the order in which they are found.
#[derive(Clone, Copy, Debug, PartialEq, Eq)]
pub enum Telling {
    /// All outcomes, a line each.
    Outcomes,
    /// One order that ends in the outcome of this number: its records, or its acts.
    Witness { number: u64, form: Form },
    /// Of each outcome its line, and the records or the acts of one order that ends in it.
    Witnesses { form: Form },
}

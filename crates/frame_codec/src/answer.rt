use call_types::outcome::Outcome;
use call_types::refusal::Refusal;

/// What a client is answered.
#[derive(Clone, Debug, Drop)]
pub enum Answer {
    /// What the record at this place says of the act. Places count from 0.
    Recorded { place: u64, outcome: Outcome },
    /// Nothing was recorded.
    Refused(Refusal),
}

use call_types::refusal::Refusal;
use record_book::seat::Receipt;

/// What a session tells its client of a request.
#[derive(Drop)]
pub enum Told {
    /// What was recorded, and where.
    Recorded(Receipt),
    /// Nothing was recorded.
    Refused(Refusal),
}

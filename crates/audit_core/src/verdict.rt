//! What an audit says of a trace.

ghost use Rattle.std.specs.Prelude.{◌≡◌};
ghost use Rattle.audit_core.specs.Verdict.{ended_by};

use call_types::act::Act;
use call_types::outcome::Outcome;

/// What an audit says of a trace.
#[derive(Drop)]
pub enum Verdict {
    /// Each of so many whole records is what the model gives. After them come `rest` bytes of a frame that is not finished; an input
    /// that ends within the header has no records, and all its bytes are the rest.
    Legal {
        records: u64,
        rest: u64,
    },
    /// The record at this place, from 0, is the first that is not what the model gives: its outcome is to be the one that is
    /// expected, or the rules record nothing there. What comes after it was not looked at.
    Illegal {
        place: u64,
        expected: Option<Outcome>,
    },
    /// All records are what the model gives up to a frame that spells none or is too long, which begins at this byte of the input, from
    /// 0. A wrong byte in the header is told as 0.
    Malformed {
        at: u64,
    },
}

/// How the records of a trace end.
#[derive(Clone, Copy, Debug, PartialEq, Eq)]
pub enum Ending {
    /// The last of them is the closing of their run.
    Closed,
    /// The last of them is another, or there is none.
    Open,
}

/// How records end of which the last is about this act.
pub(crate) fn ended_by(act: &Act) -> Ending
    ensures { result ≡ ended_by act.now }
{
    match act {
        Act::CloseRun => Ending::Closed,
        _ => Ending::Open,
    }
}

/// What an audit finds.
#[derive(Drop)]
pub struct Finding {
    pub verdict: Verdict,
    /// How the records of a legal trace end. One that is not legal is told to be open.
    pub ending: Ending,
}

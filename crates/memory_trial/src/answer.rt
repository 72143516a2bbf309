//! What is told of acts.
use call_types::act::ScriptAct;
use call_types::refusal::Refusal;
use record_book::seat::Receipt;
use script_run::told::{ScriptAnswer, Told};

/// What is told of an act.
#[derive(Drop)]
pub(crate) enum Answer {
    /// Its record in the run of a script.
    Told(Told),
    /// All records that the closing of such a run made.
    AllTold(Vec<Told>),
    /// The receipt of its record in a book.
    Recorded(Receipt),
    /// The receipts of all that the closing of a book recorded.
    Closed(Vec<Receipt>),
    /// Nothing was recorded: there is nothing to close, or no call that is ready.
    Still {
        actor: u32,
        act: ScriptAct,
    },
    /// The act was refused, and why. The actor is the process whose act it was, or would have been.
    Refused {
        actor: u32,
        act: ScriptAct,
        refusal: Refusal,
    },
}

impl From<ScriptAnswer> for Answer {
    fn from(told: ScriptAnswer) -> Answer {
        match told {
            ScriptAnswer::Recorded(told) => Answer::Told(told),
            ScriptAnswer::Closed(told) => Answer::AllTold(told),
            ScriptAnswer::Still { actor, act } => Answer::Still { actor, act },
            ScriptAnswer::Refused {
                actor,
                act,
                refusal,
            } => Answer::Refused {
                actor,
                act,
                refusal,
            },
        }
    }
}

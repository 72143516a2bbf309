//! The two ways in which acts are given.

ghost use Rattle.std.specs.Prelude.{◌≡◌};

use crate::answer::Answer;
use crate::caller::Caller;
use crate::stand::Stand;
use crate::trial_fault::TrialFault;
use byte_ledger::ledgers::{Blanks, Ledgers};
use byte_ledger::tallies::Sums;
use call_types::act::ScriptAct;
use call_types::limits::Limits;
use script_run::run::ScriptRun;
use std::alloc::{AllocError, Global};

/// How acts are given.
#[derive(Clone, Copy, Debug, PartialEq, Eq)]
pub(crate) enum Way {
    /// To `ScriptRun::run_act`, as a script is run.
    Script,
    /// To the call of `Book` for each kind of act, as a session gives them.
    Calls,
}

/// What acts are given to.
#[derive(Drop)]
pub(crate) enum Giver<L: Ledgers> {
    Script(ScriptRun),
    Calls(Caller<L>),
}

impl<L: Ledgers> Giver<L> {
    /// One without records. A book counts by these ledgers.
    pub(crate) fn new(
        alloc: Global,
        way: Way,
        limits: Limits,
        blanks: Blanks,
    ) -> Result<Self, AllocError>
        requires { blanks ≡ L.names }
    {
        match way {
            Way::Script => Ok(Giver::Script(ScriptRun::new(alloc, limits)?)),
            Way::Calls => Ok(Giver::Calls(Caller::new(alloc, limits, blanks)?)),
        }
    }

    /// How many records there are, and how many bytes they took and gave.
    pub(crate) fn counts(&self) -> Sums {
        match self {
            Giver::Script(run) => run.counts(),
            Giver::Calls(caller) => caller.counts(),
        }
    }

    /// How it stands.
    pub(crate) fn stand(&self) -> Stand {
        match self {
            Giver::Script(run) => Stand::Run(run.counts()),
            Giver::Calls(caller) => Stand::Book(caller.stand()),
        }
    }

    /// Gives an act.
    pub(crate) fn give(&mut self, alloc: Global, act: ScriptAct) -> Result<Answer, TrialFault> {
        match self {
            Giver::Script(run) => Ok(Answer::from(run.run_act(alloc, act))),
            Giver::Calls(caller) => caller.give(alloc, act),
        }
    }
}

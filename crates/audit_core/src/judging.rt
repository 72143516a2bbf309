//! A judge that is handed the records of a trace, one after another.

use crate::judge::{Judge, Judged};
use call_types::act::Record;
use call_types::outcome::Outcome;
use frame_codec::value_taker::ValueTaker;
use std::alloc::{AllocError, Global};

/// A judge of the records that it is handed. It wants no more after the first that breaks what is legal.
#[derive(Drop)]
pub(crate) struct Judging {
    pub(crate) alloc: Global,
    pub(crate) judge: Judge,
    /// What the model gives where a record breaks what is legal, if it gives anything there; nothing before that record.
    pub(crate) expected: Option<Outcome>,
}

impl ValueTaker<Record> for Judging {
    ghost use Rattle.audit_core.specs.JudgeState.{JudgesNext};

    ghost takes = { λ old new told more. JudgesNext old.judge new.judge told new.expected more };

    fn take(&mut self, told: Record) -> Result<bool, AllocError> {
        let judged = self.judge.judge(self.alloc, &told);
        drop(told);
        match judged {
            Ok(Judged::Same) => Ok(true),
            Ok(Judged::Differs { expected }) => {
                self.expected = expected;
                Ok(false)
            }
            Err(error) => Err(error),
        }
    }
}

//! What every step on the word of a history keeps, and what it tells whoever makes it.

use call_types::act::Record;
use logbook::{Gain, Plain, Play, Rule};

/// The word of a history is how many records it has.
pub struct CountsAll;

impl Rule<Record, u64> for CountsAll {
    ghost use Rattle.std.specs.Prelude.{[]};
    ghost use base.Fml.{ftrue};
    ghost use Rattle.run_history.specs.Law.{IsKept};

    ghost holds = { λ cells log. IsKept cells log };

    ghost first = { [] };

    ghost hinted = { λ n log. Unit {0} };

    ghost shows = { λ log. [] };

    ghost keeps = { λ names log. ftrue };

    ghost moves = { λ ask before after answer. Unit {0} };
}

/// What is had for a step: nothing.
pub struct NoGain;

impl Gain<Record, u64> for NoGain {
    ghost use base.Fml.{ftrue};

    ghost after = { λ names about answer. ftrue };
}

/// The step that adds a record after all that were seen.
pub struct AddsOne;

impl Play<Record, u64> for AddsOne {
    ghost use Rattle.run_history.specs.Law.{Adds};

    ghost then = { Adds };
}

impl Plain<Record, Record, u64> for AddsOne {
    ghost use Rattle.std.specs.Prelude.{None};

    ghost ask = { λ told. told };

    ghost state = { λ told. None };
}

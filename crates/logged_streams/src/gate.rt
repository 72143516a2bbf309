//! What is asked before an answer is written.

ghost use Rattle.std.specs.Prelude.{◌≡◌, ℕ, Bool, true};

use std::sync::Arc;

/// Decides when an answer of a session may be written.
pub trait Gate: Drop {
    ghost use Rattle.std.specs.Prelude.{ℕ, Bool};

    // whether it always says yes
    ghost is_open: { Bool };

    // The gate said so of an answer of this session at this place. Where the gate is not known, only `may_write` tells this.
    ghost said: { ℕ → ℕ → Bool → Type 0 };

    /// Whether an answer may be written now. Sessions are numbered from 0, in the order in which their connections were accepted. The
    /// place is that of the answer's record. For a refusal that left no record, it is how many records the session's process has seen.
    fn may_write(&self, session: u64, place: u64) -> bool
        ensures always { is_open ≡ true → result ≡ true }
        ensures said { said session place result };

    /// Whether it always says yes. If it does, answers are gathered and written together; otherwise they are written one by one.
    fn is_always_open(&self) -> bool
        ensures { result ≡ is_open };
}

/// A gate that always says yes.
#[derive(Clone, Copy, Debug)]
pub struct OpenGate;

impl Gate for OpenGate {
    ghost use Rattle.std.specs.Prelude.{◌≡◌, true};

    ghost is_open = { true };

    ghost said = { λ _ _ is_let. is_let ≡ true };

    fn may_write(&self, _session: u64, _place: u64) -> bool {
        true
    }

    fn is_always_open(&self) -> bool {
        true
    }
}

/// A gate that several sessions ask.
impl<G: Gate> Gate for Arc<G> {
    ghost is_open = { G.is_open };

    ghost said = { G.said };

    fn may_write(&self, session: u64, place: u64) -> bool {
        (**self).may_write(session, place)
    }

    fn is_always_open(&self) -> bool {
        (**self).is_always_open()
    }
}

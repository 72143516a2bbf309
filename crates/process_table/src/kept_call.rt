ghost use Rattle.std.specs.Prelude.{◌≡◌, IfOk};
ghost use Rattle.process_table.specs.Proved.Waits.{AsksFew};

use call_types::call::Call;
use std::alloc::{AllocError, Global};
use std::marker::Model;

/// A copy of a call that waits, in a block of its own, so that a process takes no more room for it than an address. It
/// asks for at most 65,536 bytes (TRANSFER_MAX). Contracts see the call.
#[derive(Drop)]
pub struct KeptCall {
    call: Box<Call>,
}

impl Model for KeptCall {
    ghost use Rattle.call_types.specs.declared.call.Call.{Call as Calls};
    ghost use Rattle.process_table.specs.Proved.Waits.{AsksFew};

    ghost Value = { Calls };

    ghost view = { λ kept. kept.call.value };

    ghost invariant = { λ kept. AsksFew kept.call.value };
}

impl KeptCall {
    /// A call, which moves into a block of its own; an error says that memory ran out.
    pub fn new(alloc: Global, call: Call) -> Result<Self, AllocError>
        requires { AsksFew call }
        ensures { IfOk result (λ kept. kept ≡ call) }
    {
        Ok(KeptCall {
            call: Box::new(alloc, call)?,
        })
    }

    /// A copy of a call; an error says that memory ran out.
    pub fn copied(alloc: Global, call: &Call) -> Result<Self, AllocError>
        requires { AsksFew call.now }
        ensures { IfOk result (λ kept. kept ≡ call.now) }
    {
        KeptCall::new(alloc, call.clone()?)
    }

    /// The call.
    pub fn get(&self) -> &Call
        ensures value { result.now ≡ self.now }
        ensures few { AsksFew self.now }
    {
        &self.call
    }
}

impl Clone for KeptCall {
    ghost is_clone = { λ old new. new ≡ old };

    fn clone(&self) -> Result<Self, AllocError> {
        Ok(KeptCall {
            call: self.call.clone()?,
        })
    }
}

use crate::call::Call;
use crate::outcome::Outcome;

/// The actor of the closing, which is no process.
pub const HOUSE: u32 = 4_294_967_295;

/// What one record is about.
#[derive(Clone, Debug, Drop)]
pub enum Act {
    /// A new process, already attached; the actor is its number.
    Join,
    /// The actor, a child that is not attached yet, is attached.
    Attach,
    /// The actor's call.
    Call(Call),
    /// The actor's parked call is taken up.
    Resume,
    /// The actor ends.
    Exit,
    /// The run is closed.
    CloseRun,
}

/// One entry of a run: who did what, and what came of it. Its place is its position, from 0.
#[derive(Clone, Debug, Drop)]
pub struct Record {
    /// The number of the process, or `HOUSE`.
    pub actor: u32,
    /// What the actor did.
    pub act: Act,
    /// What came of it.
    pub outcome: Outcome,
}

/// An act as a script gives it; a join has no actor yet, and the actor of a closing is the house.
#[derive(Clone, Debug, Drop)]
pub enum ScriptAct {
    /// A new process.
    Join,
    /// The process of this number, a child that is not attached yet, is attached.
    Attach { process: u32 },
    /// The call of a process, by its number.
    Call { process: u32, call: Call },
    /// The call that a process waits in is taken up.
    Resume { process: u32 },
    /// The process of this number ends.
    Exit { process: u32 },
    /// The run is closed.
    CloseRun,
}

use crate::call::Call;

/// What a client asks of a session: first an opening, that is a join or an attach, and then calls.
#[derive(Clone, Debug, Drop)]
pub enum Request {
    /// A new process.
    Join,
    /// The process of this number, a child that is not attached yet, is attached.
    Attach { process: u32 },
    /// A call of the session's process.
    Call(Call),
}

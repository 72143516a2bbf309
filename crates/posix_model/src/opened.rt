use call_types::description::Description;
use slots::ticket::Ticket;

/// An open descriptor of a process: its number, the number of the open file description, and that description.
#[derive(Drop)]
pub struct OpenDescriptor {
    pub fd: usize,
    pub number: Ticket,
    pub description: Description,
}

ghost use Rattle.std.specs.Prelude.{◌≡◌};

use crate::kept_call::KeptCall;
use crate::table::DescriptorTable;

/// A call that waits, the descriptor that it is on, the bytes that it moved so far, and for an open how often the
/// opposite end had been opened when it began.
#[derive(Clone, Drop)]
pub struct Parked {
    pub call: KeptCall,
    pub fd: usize,
    pub moved: u32,
    pub openings: u64,
}

/// A process: its descriptors with the numbers of their descriptions, its parked call, and whether it has a connection.
#[derive(Clone, Drop)]
pub struct Process {
    pub table: DescriptorTable,
    pub parked: Option<Parked>,
    pub attached: bool,
}

impl Process {
    ghost use Rattle.process_table.specs.Processes.{process_with};

    /// A process with this table, that waits in no call, with or without a connection.
    pub fn new(table: DescriptorTable, attached: bool) -> Self
        ensures { result ≡ process_with table attached }
    {
        Process {
            table,
            parked: None,
            attached,
        }
    }
}

ghost use Rattle.std.specs.Prelude.{◌≡◌};
ghost use Rattle.posix_model.specs.History.{empty_world};

use description_table::DescriptionTable;
use file_table::table::FileTable;
use name_table::NameTable;
use pipe_table::PipeTable;
use pipe_table::ring::PipeRing;
use process_table::processes::ProcessTable;
use std::alloc::Global;
use std::marker::Model;

/// The state of all files, pipes and processes. Contracts see it as a world of the model, and the room reserved. A spare ring stands
/// by for the next pipe once room for one is reserved.
#[derive(Drop)]
pub struct Machine {
    pub(crate) alloc: Global,
    pub(crate) capacity: usize,
    pub(crate) files: FileTable,
    pub(crate) pipes: PipeTable,
    pub(crate) spare: Option<PipeRing>,
    pub(crate) descriptions: DescriptionTable,
    pub(crate) processes: ProcessTable,
    pub(crate) names: NameTable,
    pub(crate) closed: bool,
}

impl Model for Machine {
    ghost use Rattle.machine_state.specs.Held.{Held, held_by, stored_in};
    ghost use Rattle.machine_state.specs.Proved.Consistent.{IsConsistent};

    ghost Value = { Held };

    ghost view = { held_by };

    ghost invariant = { λ m. IsConsistent (stored_in m) };
}

impl Machine {
    /// A machine in which there is nothing, and whose pipes hold `capacity` bytes each.
    pub fn new(alloc: Global, capacity: usize) -> Self
        ensures world { result.world ≡ empty_world }
        ensures capacity { result.room.capacity ≡ capacity }
    {
        Machine {
            alloc,
            capacity,
            files: FileTable::new(alloc),
            pipes: PipeTable::new(alloc),
            spare: None,
            descriptions: DescriptionTable::new(alloc),
            processes: ProcessTable::new(alloc),
            names: NameTable::new(alloc),
            closed: false,
        }
    }
}

ghost use Rattle.std.specs.Prelude.{◌≡◌};
ghost use Rattle.posix_model.specs.History.{empty_world};

use posix_model::names::Names;
use posix_model::world::World;
use slots::dense::Slots;
use std::alloc::Global;

/// The world in which a run begins: there is nothing.
pub fn empty_world(alloc: Global) -> World
    ensures { result ≡ empty_world }
{
    World {
        files: Slots::new(alloc),
        pipes: Slots::new(alloc),
        descriptions: Slots::new(alloc),
        processes: Slots::new(alloc),
        names: Names::new(alloc),
        closed: false,
    }
}

ghost use Rattle.std.specs.Prelude.{◌≡◌, IfOk};

use call_types::bounded::Name;
use std::alloc::{AllocError, Global};
use std::marker::Model;

/// A name in a block of its own, so that an edit takes no more room for a second name than an address. Contracts see the list of
/// its bytes.
#[derive(Drop)]
pub struct KeptName {
    name: Box<Name>,
}

impl Model for KeptName {
    ghost use Rattle.std.specs.Prelude.{List, ℕ};

    ghost Value = { List ℕ };

    ghost view = { λ kept. kept.name.value };
}

impl KeptName {
    /// A copy of a name; an error says that memory ran out.
    pub fn copied(alloc: Global, name: &Name) -> Result<Self, AllocError>
        ensures { IfOk result (λ kept. kept ≡ name.now) }
    {
        Ok(KeptName {
            name: Box::new(alloc, name.clone()?)?,
        })
    }

    /// The name, whose block is freed.
    pub fn into_name(self) -> Name
        ensures { result ≡ self }
    {
        Box::into_inner(self.name)
    }
}

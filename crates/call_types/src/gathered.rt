ghost use Rattle.std.specs.Prelude.{◌≡◌, ◌≤◌, ◌<◌, ◌++◌, ◌∷◌, [], length, IfOk};
ghost use Rattle.std.specs.Vec.{vec_capacity};

use crate::few::{FEW, FewBytes};
use std::alloc::{AllocError, Global};
use std::marker::Model;

/// How bytes are kept while they are gathered.
#[derive(Drop)]
pub(crate) enum Gathering {
    /// In the value itself.
    Few(FewBytes),
    /// In memory of their own.
    Many(Vec<u8>),
}

/// Bytes that are gathered one after another, to become a name or data. Contracts see their list, and how many there may be.
#[derive(Drop)]
pub struct Gathered {
    pub(crate) kept: Gathering,
}

impl Model for Gathered {
    ghost use Rattle.std.specs.Prelude.{List, ℕ};
    ghost use Rattle.call_types.specs.Stored.{gathered_bytes, gathered_room};

    ghost Value = { List ℕ × ℕ };

    ghost view = { λ gathered. (gathered_bytes gathered.kept, gathered_room gathered.kept) };
}

/// One byte more, for which there is room.
fn push_within(many: &mut Vec<u8>, byte: u8)
    requires { length many.old.items < vec_capacity many.old }
    ensures bytes { many.new.items ≡ many.old.items ++ byte ∷ [] }
    ensures room { vec_capacity many.old ≤ vec_capacity many.new }
{
    match many.push(byte) {
        Ok(()) => {}
        Err(_) => unreachable!(),
    }
}

impl Gathered {
    /// No byte yet, and room for this many. An error says that memory ran out.
    pub fn with_room(alloc: Global, count: usize) -> Result<Self, AllocError>
        ensures none { IfOk result (λ gathered. gathered.0 ≡ []) }
        ensures room { IfOk result (λ gathered. count ≤ gathered.1) }
    {
        let kept = if count <= FEW {
            Gathering::Few(FewBytes::new())
        } else {
            Gathering::Many(Vec::with_capacity(alloc, count)?)
        };
        Ok(Gathered { kept })
    }

    /// How many bytes there are.
    pub fn len(&self) -> usize
        ensures { result ≡ length self.now.0 }
    {
        match &self.kept {
            Gathering::Few(few) => few.len(),
            Gathering::Many(many) => many.len(),
        }
    }

    /// One byte more, after the others.
    pub fn push(&mut self, byte: u8)
        requires { length self.old.0 < self.old.1 }
        ensures bytes { self.new.0 ≡ self.old.0 ++ byte ∷ [] }
        ensures room { self.old.1 ≤ self.new.1 }
    {
        match &mut self.kept {
            Gathering::Many(many) => push_within(many, byte),
            Gathering::Few(few) => few.push(byte),
        }
    }
}

//! The names of files: a finite map from names to numbers, in the order of the names' bytes.
#![tactic(auto)]

ghost use Rattle.std.specs.Prelude.{◌≡◌, ◌+◌, ◌≤◌, ◌<◌, ◌==◌, ℕ, [], None, length, count_by, if◌then◌else◌, IfSome, OnOk, IsOk};
ghost use Rattle.std.specs.Ordering.{nat_cmp, is_eq, is_gt};
ghost use Rattle.std.specs.Cmp.Lexicographic.{slice_cmp};
ghost use Rattle.call_types.specs.Names.{file_of, with_name, without_name};
ghost use Rattle.name_table.specs.Proved.Places.{rank_of, IsPlaceOf};

use call_types::bounded::Name;
use std::alloc::{AllocError, Global};
use std::marker::Model;

/// Whether an entry has this name.
fn is_name_of(entry: &(Name, usize), name: &[u8]) -> bool
    ensures { result ≡ is_eq (slice_cmp nat_cmp name.now entry.now.0) }
{
    name == entry.0.as_slice()
}

/// Whether a name stands after another, in the order of their bytes. Names are short and differ early, so they are read byte by byte.
fn is_after(name: &[u8], other: &[u8]) -> bool
    ensures { result ≡ is_gt (slice_cmp nat_cmp name.now other.now) }
{
    let both = name.len().min(other.len());
    for at in 0..both {
        if name[at] != other[at] {
            return name[at] > other[at];
        }
    }
    name.len() > other.len()
}

/// Names, each with the number of a file, and room for more. Contracts see the entries in the order of their names' bytes,
/// and for how many more there is room.
#[derive(Drop)]
pub struct NameTable {
    entries: Vec<(Name, usize)>,
}

impl Model for NameTable {
    ghost use Rattle.std.specs.Prelude.{◌-◌, ℕ, vec_len, vec_capacity};
    ghost use Rattle.call_types.specs.Names.{Entries};
    ghost use Rattle.name_table.specs.Proved.Places.{IsNamed};

    ghost Value = { Entries × ℕ };

    ghost view = { λ names. (names.entries.items, vec_capacity names.entries - vec_len names.entries) };

    ghost invariant = { λ names. IsNamed names.entries.items };
}

impl NameTable {
    /// No name.
    pub fn new(alloc: Global) -> Self
        ensures { result.0 ≡ [] }
    {
        NameTable {
            entries: Vec::new(alloc),
        }
    }

    /// How many names there are.
    pub fn len(&self) -> usize
        ensures { result ≡ length self.now.0 }
    {
        self.entries.len()
    }

    /// The names with their files, in the order of their bytes.
    pub fn entries(&self) -> &[(Name, usize)]
        ensures { result.now ≡ self.now.0 }
    {
        self.entries.as_slice()
    }

    /// How many names stand before this one.
    fn rank_of(&self, name: &[u8]) -> usize
        ensures rank { result ≡ rank_of name.now self.now.0 }
        ensures within { result ≤ length self.now.0 }
    {
        self.entries
            .partition_point(|entry| is_after(name, entry.0.as_slice()))
    }

    /// Where a name stands, if it is there.
    fn place_of(&self, name: &[u8]) -> Option<usize>
        ensures { IsPlaceOf name.now self.now.0 result }
    {
        let rank = self.rank_of(name);
        if rank == self.entries.len() {
            return None;
        }
        if is_name_of(&self.entries[rank], name) {
            Some(rank)
        } else {
            None
        }
    }

    /// The file of a name, if the name is there.
    pub fn find(&self, name: &[u8]) -> Option<usize>
        ensures { result ≡ file_of name.now self.now.0 }
    {
        let place = self.place_of(name)?;
        Some(self.entries[place].1)
    }

    /// Makes room for one more name; an error says that memory ran out.
    pub fn reserve(&mut self) -> Result<(), AllocError>
        ensures entries { self.new.0 ≡ self.old.0 }
        ensures room { OnOk result (0 < self.new.1) }
        ensures kept { self.old.1 ≤ self.new.1 }
        ensures succeeds { 0 < self.old.1 → IsOk result }
    {
        self.entries.reserve(1)
    }

    #[tactic(auto, using(crate::proofs::NameLaws::inserted_at_rank))]
    /// A new name leads to a file; room for it was reserved.
    pub fn add(&mut self, name: Name, file: usize)
        requires new { file_of name self.old.0 ≡ None }
        requires room { 0 < self.old.1 }
        ensures { self.new.0 ≡ with_name name file self.old.0 }
    {
        let rank = self.rank_of(name.as_slice());
        self.entries.insert(rank, (name, file)).unwrap();
    }

    /// Takes a name away, and gives the file that it led to, which has one name less.
    pub fn remove(&mut self, name: &[u8]) -> Option<usize>
        ensures entries { self.new.0 ≡ without_name name.now self.old.0 }
        ensures room { self.old.1 ≤ self.new.1 }
        ensures file { result ≡ file_of name.now self.old.0 }
        ensures links { IfSome result (λ file. (other : ℕ) → count_by (λ e. e.1 == other) self.new.0 + (if file == other then 1 else 0) ≡ count_by (λ e. e.1 == other) self.old.0) }
    {
        let place = self.place_of(name)?;
        Some(self.entries.remove(place).1)
    }
}

impl Clone for NameTable {
    ghost is_clone = { λ old new. new.0 ≡ old.0 };

    fn clone(&self) -> Result<Self, AllocError> {
        Ok(NameTable {
            entries: self.entries.clone()?,
        })
    }
}

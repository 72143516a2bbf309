ghost use Rattle.std.specs.Prelude.{◌≡◌, None, [], length, OnOk, OnErr};
ghost use Rattle.call_types.specs.Names.{Entries, file_of, with_name, without_name};

use call_types::bounded::Name;
use name_table::NameTable;
use std::alloc::{AllocError, Global};
use std::marker::Model;

/// The names of files, in the order of their bytes. Contracts see the list of names with their files.
#[derive(Drop)]
pub struct Names {
    table: NameTable,
}

impl Model for Names {
    ghost Value = { Entries };

    ghost view = { λ names. names.table.0 };
}

impl Names {
    /// No name.
    pub fn new(alloc: Global) -> Self
        ensures { result ≡ [] }
    {
        Names {
            table: NameTable::new(alloc),
        }
    }

    /// How many names there are.
    pub fn len(&self) -> usize
        ensures { result ≡ length self.now }
    {
        self.table.len()
    }

    /// The names with their files.
    pub fn entries(&self) -> &[(Name, usize)]
        ensures { result.now ≡ self.now }
    {
        self.table.entries()
    }

    /// The file of a name.
    pub fn file_of(&self, name: &[u8]) -> Option<usize>
        ensures { result ≡ file_of name.now self.now }
    {
        self.table.find(name)
    }

    /// Puts a new name at a file.
    pub fn put(&mut self, name: Name, file: usize) -> Result<(), AllocError>
        requires { file_of name self.old ≡ None }
        ensures ok { OnOk result (self.new ≡ with_name name file self.old) }
        ensures err { OnErr result (self.new ≡ self.old) }
    {
        self.table.reserve()?;
        self.table.add(name, file);
        Ok(())
    }

    /// Takes a name away.
    pub fn remove(&mut self, name: &[u8])
        ensures { self.new ≡ without_name name.now self.old }
    {
        self.table.remove(name);
    }
}

impl Clone for Names {
    ghost is_clone = { λ old new. new ≡ old };

    fn clone(&self) -> Result<Self, AllocError> {
        Ok(Names {
            table: self.table.clone()?,
        })
    }
}

ghost use Rattle.std.specs.Prelude.{◌≡◌, ◌+◌, ◌≤◌, ◌<◌, ◌^◌, ◌∷◌, [], ◌++◌, Some, true, is_some, length, option_copied, OnOk, IsOk};
ghost use Rattle.slots.specs.Slots.{slot, edited};
ghost use Rattle.slots.specs.UsedSlots.{value_at, values_in};
ghost use Rattle.slots.specs.Proved.Uses.{uses_at, used_once, use_added, use_dropped, with_value};
ghost use Rattle.posix_model.specs.Pipes.{fifo_at};
ghost use Rattle.file_table.specs.StoredFiles.{file_slots};
ghost use Rattle.file_table.specs.Proved.Files.{extents_at, opened_stored, forgetful, openings, named, unnamed, links_at};

use crate::stored_file::{FileBody, StoredFile};
use call_types::description::Mode;
use file_extents::extents::Extents;
use posix_model::world::Fifo;
use slots::numbered::Numbered;
use slots::used::Used;
use std::alloc::{AllocError, Global};
use std::marker::Model;

/// The files that have a name or are held. Contracts see a slot for each number that was ever given, with the count of its names and holders, and for how many
/// more files there is room.
#[derive(Drop)]
pub struct FileTable {
    files: Numbered<Used<StoredFile>>,
}

impl Model for FileTable {
    ghost use Rattle.std.specs.Prelude.{List, Option, ℕ};
    ghost use Rattle.slots.specs.declared.used.Used.{Used as Uses};
    ghost use Rattle.file_table.specs.declared.stored_file.StoredFile.{StoredFile as File};

    ghost Value = { List (Option (Uses File)) × ℕ };

    ghost view = { λ table. table.files };
}

impl FileTable {
    /// No file yet, and no number given.
    pub fn new(alloc: Global) -> Self
        ensures { result.0 ≡ [] }
    {
        FileTable {
            files: Numbered::new(alloc),
        }
    }

    /// The number of the next file.
    pub fn next(&self) -> usize
        ensures { result ≡ length self.now.0 }
    {
        self.files.next()
    }

    /// The bytes of a regular file, if one stands there.
    #[inline(always)]
    pub fn extents(&self, file: usize) -> Option<&Extents>
        ensures { option_copied result ≡ extents_at (slot self.now.0 file) }
    {
        match self.files.get(file) {
            Some(used) => used.value.body.extents(),
            None => None,
        }
    }

    /// The FIFO of a number, if one stands there.
    pub fn fifo_at(&self, file: usize) -> Option<Fifo>
        ensures { result ≡ fifo_at (slot (file_slots (values_in self.now.0)) file) }
    {
        match self.files.get(file) {
            Some(used) => used.value.fifo(),
            None => None,
        }
    }

    /// How many names a file has; none where it is gone.
    pub fn links(&self, file: usize) -> usize
        ensures { result ≡ links_at (slot (values_in self.now.0) file) }
    {
        match self.files.get(file) {
            Some(used) => used.value.links,
            None => 0,
        }
    }

    /// How many names and holders a file has; none where it is gone.
    pub fn uses(&self, file: usize) -> usize
        ensures { result ≡ uses_at (slot self.now.0 file) }
    {
        match self.files.get(file) {
            Some(used) => used.uses,
            None => 0,
        }
    }

    /// Makes room for one more file; an error says that memory or numbers ran out.
    pub fn reserve(&mut self) -> Result<(), AllocError>
        ensures slots { self.new.0 ≡ self.old.0 }
        ensures room { OnOk result (0 < self.new.1) }
        ensures kept { self.old.1 ≤ self.new.1 }
        ensures succeeds { 0 < self.old.1 → IsOk result }
    {
        self.files.reserve()
    }

    ghost use Rattle.std.specs.Borrow.{sem};
    ghost use Rattle.file_table.specs.Proved.Lends.{lends_extents};

    /// The bytes of a regular file, to be edited where they stand.
    #[inline(always)]
    pub fn extents_mut(&mut self, file: usize) -> &mut Extents
        requires { is_some (extents_at (slot self.old.0 file)) ≡ true }
        ensures* writes_back { sem 𝓛 (lends_extents self.entry file result) }
        ensures value { extents_at (slot self.old.0 file) ≡ Some result.now }
    {
        let used = self.files.value_mut(file);
        used.value.body.extents_mut()
    }

    /// Gives the next number, for which there is room, to a file with one name and no holder (pages of open and mkfifo).
    pub fn create(&mut self, body: FileBody)
        requires { 0 < self.old.1 }
        ensures slots { self.new.0 ≡ self.old.0 ++ Some (used_once (record { body = body; links = 1 })) ∷ [] }
        ensures room { self.new.1 + 1 ≡ self.old.1 }
    {
        self.files.push(Used {
            value: StoredFile { body, links: 1 },
            uses: 1,
        });
    }

    /// An end of a FIFO is opened once more, on this pipe (page of open).
    pub fn count_opening(&mut self, file: usize, mode: Mode, pipe: usize)
        requires there { is_some (slot self.old.0 file) ≡ true }
        requires few { openings mode (fifo_at (slot (file_slots (values_in self.old.0)) file)) + 1 < 2 ^ 64 }
        ensures slots { self.new.0 ≡ edited file (with_value (opened_stored mode pipe)) self.old.0 }
        ensures room { self.new.1 ≡ self.old.1 }
    {
        self.files.value_mut(file).value.count_opening(mode, pipe);
    }

    /// A FIFO forgets a pipe that went, if it was its own (page of close).
    pub fn forget(&mut self, file: usize, pipe: usize)
        requires { is_some (slot self.old.0 file) ≡ true }
        ensures slots { self.new.0 ≡ edited file (with_value (forgetful pipe)) self.old.0 }
        ensures room { self.new.1 ≡ self.old.1 }
    {
        self.files.value_mut(file).value.forget(pipe);
    }

    /// Adds a holder to a file.
    pub fn hold(&mut self, file: usize)
        requires there { is_some (slot self.old.0 file) ≡ true }
        requires few { uses_at (slot self.old.0 file) < 2 ^ 63 }
        ensures slots { self.new.0 ≡ use_added file self.old.0 }
        ensures room { self.new.1 ≡ self.old.1 }
    {
        self.files.add_use(file);
    }

    /// Drops a holder of a file, which goes with its last name or holder (page of close). A file that is gone stays so.
    pub fn drop_one(&mut self, file: usize)
        ensures slots { self.new.0 ≡ use_dropped file self.old.0 }
        ensures room { self.old.1 ≤ self.new.1 }
        ensures most { self.new.1 ≤ self.old.1 + 1 }
    {
        drop(self.files.drop_use(file));
    }

    /// Adds a name to a file (page of link).
    pub fn add_link(&mut self, file: usize)
        requires there { is_some (slot self.old.0 file) ≡ true }
        requires few { uses_at (slot self.old.0 file) < 2 ^ 63 }
        requires few_links { links_at (value_at (slot self.old.0 file)) < 2 ^ 63 }
        ensures slots { self.new.0 ≡ use_added file (edited file (with_value named) self.old.0) }
        ensures room { self.new.1 ≡ self.old.1 }
    {
        let used = self.files.value_mut(file);
        used.value.links += 1;
        used.uses += 1;
    }

    /// Drops a name of a file, which goes with its last name or holder (page of unlink).
    pub fn drop_link(&mut self, file: usize)
        requires { 0 < links_at (value_at (slot self.old.0 file)) }
        ensures slots { self.new.0 ≡ use_dropped file (edited file (with_value unnamed) self.old.0) }
        ensures room { self.old.1 ≤ self.new.1 }
        ensures most { self.new.1 ≤ self.old.1 + 1 }
    {
        self.files.value_mut(file).value.links -= 1;
        drop(self.files.drop_use(file));
    }
}

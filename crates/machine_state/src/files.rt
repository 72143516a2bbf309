ghost use Rattle.std.specs.Prelude.{◌≡◌, ℕ, ◌+◌, ◌<◌, ◌≤◌, ◌^◌, ◌≢◌, None, true, is_some, unwrap_or, length, OnOk};
ghost use Rattle.call_types.specs.declared.limits.TheConstants.{NAMES_MAX, TRANSFER_MAX};
ghost use Rattle.call_types.specs.Stored.{span_bytes};
ghost use Rattle.slots.specs.Slots.{slot};
ghost use Rattle.posix_model.specs.Bytes.{splice, resized};
ghost use Rattle.call_types.specs.Names.{file_of, with_name, without_name, with_moved_name};
ghost use Rattle.posix_model.specs.Proved.Whole.{is_regular_file};
ghost use Rattle.posix_model.specs.Kept.{IsThere};
ghost use Rattle.posix_model.specs.Counts.{links};
ghost use Rattle.posix_model.specs.Sweep.{sweep};
ghost use Rattle.posix_model.specs.Descriptors.{bytes_of};
ghost use Rattle.posix_model.specs.Change.{with_bytes, created, renamed};
ghost use Rattle.posix_model.specs.Proved.Fits.{NamesFit, NamesProper};
ghost use Rattle.posix_model.specs.Pipes.{fifo_at, pipe_of_fifo};
ghost use Rattle.file_extents.specs.Proved.Contents.{HasRoom};
ghost use Rattle.file_table.specs.StoredFiles.{file_in};
ghost use Rattle.file_table.specs.Proved.Files.{room_at};
ghost use Rattle.machine_state.specs.Proved.Room.{HasNameRoom, KeepsRoom, KeepsTableRoom};

use crate::machine::Machine;
use call_types::bounded::Name;
use call_types::span::Span;
use file_table::stored_file::FileBody;
use posix_model::change::NameEdit;
use posix_model::laws::sweep_releases;
use std::alloc::AllocError;

impl Machine {
    /// Makes room for `count` bytes of a file from the byte `start` on. An error says that memory ran out.
    #[inline(always)]
    pub(crate) fn reserve_bytes(
        &mut self,
        file: usize,
        start: usize,
        count: usize,
    ) -> Result<(), AllocError>
        requires there { is_regular_file (slot self.old.world.files file) ≡ true }
        requires few { count ≤ TRANSFER_MAX }
        requires fits { start + count < 2 ^ 63 }
        ensures world { self.new.world ≡ self.old.world }
        ensures room { OnOk result (HasRoom (room_at self.new.room.bytes file) start count) }
        ensures tables { KeepsTableRoom self.old self.new }
        ensures kept { KeepsRoom self.old.room self.new.room }
    {
        self.files.extents_mut(file).reserve_for(start, count)
    }

    /// Writes bytes into a file from the byte `start` on.
    #[inline(always)]
    pub(crate) fn write_bytes(&mut self, file: usize, start: usize, bytes: Span<'_>)
        requires there { is_regular_file (slot self.old.world.files file) ≡ true }
        requires few { length (span_bytes bytes) ≤ TRANSFER_MAX }
        requires fits { start + length (span_bytes bytes) < 2 ^ 63 }
        requires room { HasRoom (room_at self.old.room.bytes file) start (length (span_bytes bytes)) }
        ensures world { self.new.world ≡ with_bytes self.old.world file (splice (bytes_of self.old.world file) start (span_bytes bytes.entry)) }
        ensures tables { KeepsTableRoom self.old self.new }
    {
        self.files.extents_mut(file).write_at(start, bytes);
    }

    /// Gives a file its length, in bytes: its first bytes, and zeros where there were fewer.
    #[inline(always)]
    pub(crate) fn set_len(&mut self, file: usize, len: usize)
        requires there { is_regular_file (slot self.old.world.files file) ≡ true }
        requires fits { len < 2 ^ 63 }
        ensures world { self.new.world ≡ with_bytes self.old.world file (resized (bytes_of self.old.world file) len) }
        ensures tables { KeepsTableRoom self.old self.new }
    {
        self.files.extents_mut(file).set_len(len);
    }

    /// Gives a new name to a file that is there.
    #[inline(always)]
    fn link(&mut self, name: Name, file: usize)
        requires new { file_of name self.old.world.names ≡ None }
        requires there { IsThere self.old.world.files file }
        requires few { length self.old.world.names < NAMES_MAX }
        requires room { 0 < self.old.room.names }
        ensures world { self.new.world ≡ record self.old.world { names = with_name name file self.old.world.names } }
        ensures tables { KeepsTableRoom self.old self.new }
    {
        self.files.add_link(file);
        self.names.add(name, file);
    }

    /// Takes a name away. Its file goes, if this was its last name and nothing has it open.
    fn unlink(&mut self, name: &[u8])
        requires { is_some (file_of name.now self.old.world.names) ≡ true }
        ensures world { self.new.world ≡ sweep (record self.old.world { names = without_name name.now self.old.world.names }) }
        ensures room { self.old.room.names ≤ self.new.room.names }
        ensures tables { KeepsTableRoom self.old self.new }
    {
        sweep_releases();
        match self.names.remove(name) {
            Some(file) => self.files.drop_link(file),
            None => unreachable!(),
        }
    }

    /// Takes a name away, if it is there, as `unlink` does.
    fn free_name(&mut self, name: &[u8])
        ensures world { self.new.world ≡ sweep (record self.old.world { names = without_name name.now self.old.world.names }) }
        ensures room { self.old.room.names ≤ self.new.room.names }
        ensures tables { KeepsTableRoom self.old self.new }
    {
        match self.names.find(name) {
            Some(_) => self.unlink(name),
            None => {
                sweep_releases();
                self.is_settled();
            }
        }
    }

    /// A file has a new name, which leads nowhere, in place of an old one.
    fn move_name(&mut self, old: &[u8], new: Name)
        requires there { is_some (file_of old.now self.old.world.names) ≡ true }
        requires new { file_of new self.old.world.names ≡ None }
        requires room { 0 < self.old.room.names }
        ensures world { self.new.world ≡ record self.old.world { names = with_name new (unwrap_or (file_of old.now self.old.world.names) 0) (without_name old.now self.old.world.names) } }
        ensures links { (g : ℕ) → links self.new.world.names g ≡ links self.old.world.names g }
        ensures tables { KeepsTableRoom self.old self.new }
    {
        match self.names.remove(old) {
            Some(file) => self.names.add(new, file),
            None => unreachable!(),
        }
    }

    /// A file has a new name in place of an old one. What the new name led to before goes, if this was its last name and nothing
    /// has it open.
    fn rename(&mut self, old: &[u8], new: Name)
        requires there { is_some (file_of old.now self.old.world.names) ≡ true }
        requires apart { old.now ≢ new }
        requires room { 0 < self.old.room.names }
        ensures world { self.new.world ≡ sweep (record self.old.world { names = with_moved_name old.now new self.old.world.names }) }
        ensures tables { KeepsTableRoom self.old self.new }
    {
        sweep_releases();
        self.free_name(new.as_slice());
        self.move_name(old, new);
    }

    /// Makes an edit of names, and sweeps after it.
    pub(crate) fn edit_names(&mut self, edit: NameEdit)
        requires fits { NamesFit self.old.world edit }
        requires proper { NamesProper self.old.world edit }
        requires room { HasNameRoom self.old.room edit }
        ensures world { self.new.world ≡ sweep (record self.old.world { names = renamed edit self.old.world.names }) }
        ensures tables { KeepsTableRoom self.old self.new }
    {
        match edit {
            NameEdit::Add { name, file } => {
                self.link(name, file);
                sweep_releases();
                self.is_settled();
            }
            NameEdit::Remove { name } => self.unlink(name.as_slice()),
            NameEdit::Move { old, new } => self.rename(old.as_slice(), new.into_name()),
        }
    }

    /// Gives a new name to a new file, which knows no pipe.
    #[inline(always)]
    pub(crate) fn create(&mut self, name: Name, body: FileBody)
        requires new { file_of name self.old.world.names ≡ None }
        requires few { length self.old.world.names < NAMES_MAX }
        requires room { (0 < self.old.room.files) × (0 < self.old.room.names) }
        requires closed { pipe_of_fifo (fifo_at (Some (file_in body))) ≡ None }
        ensures world { self.new.world ≡ created self.old.world name (file_in body) }
        ensures tables { KeepsTableRoom self.old self.new }
    {
        let file = self.files.next();
        self.files.create(body);
        self.names.add(name, file);
    }
}

ghost use Rattle.std.specs.Prelude.{◌≡◌, ℕ, ◌<◌, ◌≤◌, List, OnOk};
ghost use Rattle.posix_model.specs.Proved.Fits.{FilesFit, FilesProper, IsProper};
ghost use Rattle.machine_state.specs.Proved.Room.{HasEndRoom, HasFileRoom, HasProcessRoom, HasTableRoom, HasRoom, KeepsRoom, KeepsOpenRoom, KeepsTableRoom};

use crate::descriptors::pipe_of_fifo;
use crate::machine::Machine;
use call_types::description::Mode;
use file_table::stored_file::openings;
use pipe_table::ring::PipeRing;
use posix_model::change::{Change, FileEdit, NameEdit, ProcessEdit, TableEdit};
use std::alloc::AllocError;

impl Machine {
    /// Makes room for one more pipe: its number, and a ring that has no place for a byte yet.
    fn reserve_pipe(&mut self) -> Result<(), AllocError>
        ensures world { self.new.world ≡ self.old.world }
        ensures room { OnOk result (0 < self.new.room.pipes) }
        ensures kept { KeepsRoom self.old.room self.new.room }
    {
        if self.spare.is_none() {
            self.spare = Some(PipeRing::new(self.alloc, self.capacity)?);
        }
        self.pipes.reserve()
    }

    /// Makes room for one more description.
    fn reserve_description(&mut self) -> Result<(), AllocError>
        ensures world { self.new.world ≡ self.old.world }
        ensures room { OnOk result (0 < self.new.room.descriptions) }
        ensures pipes { self.new.room.pipes ≡ self.old.room.pipes }
        ensures kept { KeepsRoom self.old.room self.new.room }
    {
        self.descriptions.reserve()
    }

    /// Makes the room of both ends of a new pipe.
    fn reserve_pair(&mut self) -> Result<(), AllocError>
        ensures world { self.new.world ≡ self.old.world }
        ensures room { OnOk result ((2 ≤ self.new.room.descriptions) × (0 < self.new.room.pipes)) }
        ensures kept { KeepsRoom self.old.room self.new.room }
    {
        self.reserve_pipe()?;
        self.descriptions.reserve_two()
    }

    /// Makes the room of a new end of a FIFO. An error also says that the FIFO was opened 2^64 - 1 times.
    fn reserve_end(&mut self, file: usize, mode: Mode) -> Result<(), AllocError>
        ensures world { self.new.world ≡ self.old.world }
        ensures room { OnOk result (HasEndRoom self.new file mode) }
        ensures kept { KeepsRoom self.old.room self.new.room }
    {
        let fifo = self.files.fifo_at(file);
        if openings(mode, fifo) == u64::MAX {
            return Err(AllocError);
        }
        if pipe_of_fifo(fifo).is_none() {
            self.reserve_pipe()?;
        }
        self.reserve_description()
    }

    /// Makes the room of an edit of descriptors.
    #[inline(always)]
    fn reserve_table(&mut self, edit: &TableEdit) -> Result<(), AllocError>
        ensures world { self.new.world ≡ self.old.world }
        ensures room { OnOk result (HasTableRoom self.new edit.now) }
        ensures kept { KeepsRoom self.old.room self.new.room }
    {
        match edit {
            TableEdit::Open { .. } => self.reserve_description(),
            TableEdit::OpenPair { .. } => self.reserve_pair(),
            TableEdit::OpenEnd {
                file,
                description,
                ..
            } => self.reserve_end(*file, description.mode),
            TableEdit::Nothing | TableEdit::Describe { .. } | TableEdit::Entry { .. } => Ok(()),
        }
    }

    /// Makes the room of an edit of processes.
    #[inline(always)]
    fn reserve_process(&mut self, edit: &ProcessEdit) -> Result<(), AllocError>
        ensures world { self.new.world ≡ self.old.world }
        ensures room { OnOk result (HasProcessRoom self.new.room.processes edit.now) }
        ensures tables { KeepsOpenRoom self.old self.new }
        ensures kept { KeepsRoom self.old.room self.new.room }
    {
        match edit {
            ProcessEdit::Add { .. } => self.processes.reserve(),
            ProcessEdit::Nothing
            | ProcessEdit::Attach { .. }
            | ProcessEdit::Park { .. }
            | ProcessEdit::Total { .. }
            | ProcessEdit::Unpark { .. }
            | ProcessEdit::Exit { .. }
            | ProcessEdit::Close => Ok(()),
        }
    }

    /// Makes the room of an edit of files.
    #[inline(always)]
    fn reserve_files(&mut self, edit: &FileEdit) -> Result<(), AllocError>
        requires fits { FilesFit self.old.world edit.now }
        requires proper { (bytes : List ℕ) × FilesProper self.old.world bytes edit.now }
        ensures world { self.new.world ≡ self.old.world }
        ensures room { OnOk result (HasFileRoom self.new edit.now) }
        ensures tables { KeepsTableRoom self.old self.new }
        ensures kept { KeepsRoom self.old.room self.new.room }
    {
        match edit {
            FileEdit::Nothing | FileEdit::Resize { .. } => Ok(()),
            FileEdit::Bytes { file, start, count } => self.reserve_bytes(*file, *start, *count),
            FileEdit::Names(NameEdit::Remove { .. }) => Ok(()),
            FileEdit::Names(_) => self.names.reserve(),
            FileEdit::Put { pipe, count, .. } => self.reserve_put(*pipe, *count),
            FileEdit::Take { .. } => Ok(()),
            FileEdit::MakeFile { .. } | FileEdit::MakeFifo { .. } => {
                self.files.reserve()?;
                self.names.reserve()
            }
        }
    }

    /// Makes the room of a change; an error says that memory or numbers ran out. On an error as on success the world stays, and no
    /// room is less than it was.
    #[inline(always)]
    pub fn reserve_for(&mut self, change: &Change) -> Result<(), AllocError>
        requires fits { FilesFit self.old.world change.now.files }
        requires proper { (bytes : List ℕ) × IsProper self.old.world bytes change.now }
        ensures world { self.new.world ≡ self.old.world }
        ensures room { OnOk result (HasRoom self.new change.now) }
        ensures kept { KeepsRoom self.old.room self.new.room }
        ensures capacity { self.new.room.capacity ≡ self.old.room.capacity }
    {
        self.reserve_table(&change.table)?;
        self.reserve_process(&change.process)?;
        self.reserve_files(&change.files)
    }
}

ghost use Rattle.std.specs.Prelude.{◌≡◌, ℕ, List, false, true};
ghost use Rattle.call_types.specs.Stored.{span_bytes};
ghost use Rattle.posix_model.specs.Change.{with_files, with_processes, with_table, changed};
ghost use Rattle.posix_model.specs.Proved.Fits.{FilesFit, ProcessFits, TableFits, is_of_names, ends, Fits, FilesProper, ProcessProper, TableProper, IsProper, PutsWithin};
ghost use Rattle.posix_model.specs.Proved.Whole.{EachThere, IsItsFifo};
ghost use Rattle.posix_model.specs.Sweep.{sweep};
ghost use Rattle.machine_state.specs.Proved.Targets.{EndsAreTheirs};
ghost use Rattle.machine_state.specs.Proved.Room.{HasFileRoom, HasProcessRoom, HasTableRoom, HasRoom, KeepsOpenRoom, KeepsTableRoom};

use crate::machine::Machine;
use call_types::span::Span;
use file_table::stored_file::FileBody;
use posix_model::change::{Change, FileEdit, ProcessEdit, TableEdit};
use posix_model::laws::sweep_releases;

/// Whether an edit is one of names.
#[inline(always)]
fn is_of_names(edit: &FileEdit) -> bool
    ensures { result ≡ is_of_names edit.now }
{
    matches!(edit, FileEdit::Names(_))
}

impl Machine {
    /// Makes an edit of files but one of names, with the bytes of the act. Nothing waits for a sweep after it.
    #[inline(always)]
    fn apply_files(&mut self, bytes: Span<'_>, edit: FileEdit)
        requires fits { FilesFit self.old.world edit }
        requires proper { FilesProper self.old.world (span_bytes bytes) edit }
        requires room { HasFileRoom self.old edit }
        requires holds { PutsWithin self.old.room.capacity self.old.world edit }
        requires stays { is_of_names edit ≡ false }
        ensures world { self.new.world ≡ with_files self.old.world (span_bytes bytes.entry) edit }
        ensures tables { KeepsTableRoom self.old self.new }
    {
        match edit {
            FileEdit::Nothing => {}
            FileEdit::Bytes { file, start, count } => {
                self.write_bytes(file, start, bytes.cut(0, count));
            }
            FileEdit::Resize { file, len } => self.set_len(file, len),
            FileEdit::Names(_) => unreachable!(),
            FileEdit::MakeFile { name } => self.create(name, FileBody::empty(self.alloc)),
            FileEdit::MakeFifo { name } => self.create(name, FileBody::fifo()),
            FileEdit::Put {
                pipe,
                source,
                count,
            } => self.put(bytes, pipe, source, count),
            FileEdit::Take { pipe, count } => self.take(pipe, count),
        }
    }

    /// Makes an edit of processes that ends none. Nothing waits for a sweep after it.
    #[inline(always)]
    fn apply_process(&mut self, edit: ProcessEdit)
        requires fits { ProcessFits self.old.world edit }
        requires proper { ProcessProper self.old.world edit }
        requires room { HasProcessRoom self.old.room.processes edit }
        requires stays { ends edit ≡ false }
        ensures world { self.new.world ≡ with_processes self.old.world edit }
        ensures room { KeepsOpenRoom self.old self.new }
    {
        match edit {
            ProcessEdit::Nothing => {}
            ProcessEdit::Add { table, attached } => self.add_process(table, attached),
            ProcessEdit::Attach { process } => self.attach(process),
            ProcessEdit::Park { process, parked } => self.park(process, parked),
            ProcessEdit::Total { process, moved } => self.set_moved(process, moved),
            ProcessEdit::Unpark { process } => self.unpark(process),
            ProcessEdit::Exit { .. } => unreachable!(),
            ProcessEdit::Close => self.close_run(),
        }
    }

    /// Makes an edit of descriptors and open file descriptions, and sweeps after it.
    #[inline(always)]
    fn apply_table(&mut self, edit: TableEdit)
        requires fits { TableFits self.old.world edit }
        requires proper { TableProper self.old.world edit }
        requires room { HasTableRoom self.old edit }
        requires theirs { EndsAreTheirs self.old.world }
        ensures world { self.new.world ≡ sweep (with_table self.old.world edit) }
        ensures capacity { self.new.room.capacity ≡ self.old.room.capacity }
    {
        match edit {
            TableEdit::Nothing => {}
            TableEdit::Describe { number, edit } => self.describe(&number, edit),
            TableEdit::Open {
                process,
                fd,
                description,
            } => self.open(process, fd, description),
            TableEdit::OpenPair {
                process,
                reading,
                writing,
            } => self.open_pair(process, reading, writing),
            TableEdit::OpenEnd {
                process,
                fd,
                file,
                description,
            } => self.open_end(process, fd, file, description),
            TableEdit::Entry { process, fd, entry } => {
                self.set_entry(process, fd, entry);
                return;
            }
        }
        // The other edits leave nothing to sweep. The invariant of the tables says so.
        sweep_releases();
        self.is_settled();
    }

    /// Makes an edit of names, and sweeps after it.
    fn apply_names(&mut self, edit: FileEdit)
        requires names { is_of_names edit ≡ true }
        requires fits { FilesFit self.old.world edit }
        requires proper { (bytes : List ℕ) × FilesProper self.old.world bytes edit }
        requires room { HasFileRoom self.old edit }
        ensures world { (bytes : List ℕ) → self.new.world ≡ sweep (with_files self.old.world bytes edit) }
        ensures capacity { self.new.room.capacity ≡ self.old.room.capacity }
    {
        match edit {
            FileEdit::Names(edit) => self.edit_names(edit),
            _ => unreachable!(),
        }
    }

    /// Makes a change, and sweeps after it. It cannot fail for want of memory: its room stands reserved.
    #[inline(always)]
    pub fn apply(&mut self, bytes: Span<'_>, change: Change)
        requires fits { Fits self.old.world (span_bytes bytes) change }
        requires proper { IsProper self.old.world (span_bytes bytes) change }
        requires room { HasRoom self.old change }
        requires holds { PutsWithin self.old.room.capacity self.old.world change.files }
        requires ends { EachThere (λ description. IsItsFifo self.old.world.files description.target) self.old.world.descriptions }
        ensures world { self.new.world ≡ sweep (changed self.old.world (span_bytes bytes.entry) change) }
        ensures capacity { self.new.room.capacity ≡ self.old.room.capacity }
    {
        let Change {
            files,
            process,
            table,
        } = change;
        if is_of_names(&files) {
            self.apply_names(files);
            return;
        }
        if let ProcessEdit::Exit { process } = process {
            self.exit(process);
            return;
        }
        self.apply_files(bytes, files);
        self.apply_process(process);
        self.apply_table(table);
    }
}

//! What a description holds, and what goes with it.

ghost use Rattle.std.specs.Prelude.{◌≡◌, ◌<◌, ◌^◌, true, is_some, Some, ℕ};
ghost use Rattle.slots.specs.Slots.{slot};
ghost use Rattle.slots.specs.UsedSlots.{value_at};
ghost use Rattle.slots.specs.Proved.Uses.{uses_at};
ghost use Rattle.posix_model.specs.Pipes.{pipe_at};
ghost use Rattle.pipe_table.specs.Proved.Pipes.{readers_at, writers_at, HasEndAt};
ghost use Rattle.machine_state.specs.Proved.Uses.{with_use, without_use, lost};
ghost use Rattle.machine_state.specs.Proved.Pipes.{with_end_at, counted_less};
ghost use Rattle.machine_state.specs.Proved.Targets.{file_of_target, pipes_left, pipe_gone, forgotten, forgot, files_left, CanLeave};

use call_types::description::{Mode, Target};
use description_table::Dropped;
use file_table::table::FileTable;
use pipe_table::{PipeTable, StoredPipe};

/// The file that a target holds, if it holds one.
pub(crate) fn file_of_target(target: Target) -> Option<usize>
    ensures { result ≡ file_of_target target }
{
    match target {
        Target::Regular { file } | Target::Fifo { file, .. } => Some(file),
        Target::Pipe { .. } => None,
    }
}

/// The pipe that a target is an end of, if it is one.
pub(crate) fn pipe_of_target(target: Target) -> Option<usize>
    ensures { result ≡ pipe_at target }
{
    match target {
        Target::Regular { .. } => None,
        Target::Pipe { pipe } | Target::Fifo { pipe, .. } => Some(pipe),
    }
}

/// Adds a holder to a file, if a file is named.
pub(crate) fn hold_file(files: &mut FileTable, file: Option<usize>)
    requires there { (n : ℕ) → file ≡ Some n → is_some (slot files.old.0 n) ≡ true }
    requires few { (n : ℕ) → uses_at (slot files.old.0 n) < 2 ^ 63 }
    ensures { files.new.0 ≡ with_use file files.old.0 }
{
    if let Some(number) = file {
        files.hold(number);
    }
}

/// Drops a holder of a file, if one is named; the file goes with its last name or holder.
fn drop_file(files: &mut FileTable, file: Option<usize>)
    ensures { files.new.0 ≡ without_use file files.old.0 }
{
    if let Some(number) = file {
        files.drop_one(number);
    }
}

/// Adds an end to a pipe, if a pipe is named.
pub(crate) fn add_end(pipes: &mut PipeTable, pipe: Option<usize>, mode: Mode)
    requires there { (n : ℕ) → pipe ≡ Some n → is_some (slot pipes.old.0 n) ≡ true }
    requires few { (n : ℕ) → uses_at (slot pipes.old.0 n) < 2 ^ 63 }
    requires few_readers { (n : ℕ) → readers_at (value_at (slot pipes.old.0 n)) < 2 ^ 63 }
    requires few_writers { (n : ℕ) → writers_at (value_at (slot pipes.old.0 n)) < 2 ^ 63 }
    ensures slots { pipes.new.0 ≡ with_end_at pipe mode pipes.old.0 }
    ensures room { pipes.new.1 ≡ pipes.old.1 }
{
    if let Some(number) = pipe {
        pipes.add_end(number, mode);
    }
}

/// Drops an end of a pipe, if one is named. Returns the pipe if that was its last end.
fn drop_end(pipes: &mut PipeTable, pipe: Option<usize>, mode: Mode) -> Option<StoredPipe>
    requires { (n : ℕ) → pipe ≡ Some n → HasEndAt pipes.old.0 mode n }
    ensures slots { pipes.new.0 ≡ without_use pipe (counted_less pipe mode pipes.old.0) }
    ensures gone { result ≡ lost pipe (counted_less pipe mode pipes.old.0) }
{
    match pipe {
        Some(number) => pipes.drop_end(number, mode),
        None => None,
    }
}

/// The FIFO of a target forgets the pipe of the target.
fn forget(files: &mut FileTable, target: Target)
    requires { (n : ℕ) → file_of_target target ≡ Some n → is_some (slot files.old.0 n) ≡ true }
    ensures { files.new.0 ≡ forgotten target files.old.0 }
{
    if let Target::Fifo { file, pipe } = target {
        files.forget(file, pipe);
    }
}

/// The FIFO of a target forgets its pipe, if that went.
fn forget_gone(files: &mut FileTable, target: Target, gone: Option<StoredPipe>)
    requires { (n : ℕ) → file_of_target target ≡ Some n → is_some (slot files.old.0 n) ≡ true }
    ensures { files.new.0 ≡ forgot gone target files.old.0 }
{
    if gone.is_some() {
        forget(files, target);
    }
}

/// Releases what a removed description held: its pipe, removed with its last end and then forgotten by its FIFO, and
/// its file.
pub(crate) fn release(pipes: &mut PipeTable, files: &mut FileTable, dropped: Dropped)
    requires { CanLeave dropped pipes.old.0 files.old.0 }
    ensures pipes { pipes.new.0 ≡ pipes_left dropped pipes.old.0 }
    ensures files { files.new.0 ≡ files_left dropped (pipe_gone dropped pipes.old.0) files.old.0 }
{
    if let Dropped::Gone { target, mode } = dropped {
        let gone = drop_end(pipes, pipe_of_target(target), mode);
        forget_gone(files, target, gone);
        drop_file(files, file_of_target(target));
    }
}

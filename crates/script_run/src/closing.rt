//! The closing of a run, which takes no memory.

ghost use Rattle.std.specs.Prelude.{◌≡◌, ◌+◌, ◌<◌, vec_len, vec_capacity};
ghost use Rattle.slots.specs.Slots.{live};
ghost use Rattle.script_run.specs.Proved.Closing.{OrphansEnd};

use crate::append::append_exit;
use crate::told::Told;
use posix_model::laws::processes_are_counted;
use record_book::progress::Progress;

/// Ends all processes without a connection, in the order of their numbers, and tells of their exits, for which there is room; room for
/// one record more is left.
pub(crate) fn end_orphans(progress: &mut Progress, told: &mut Vec<Told>)
    requires { vec_len told.old + live progress.old.world.processes < vec_capacity told.old }
    ensures ends { OrphansEnd progress.old progress.new told.old.items told.new.items }
    ensures room { vec_len told.new < vec_capacity told.new }
{
    processes_are_counted();
    for process in 0..progress.next_pid() {
        if progress.awaits(process) {
            told.push_reserved(append_exit(progress, process));
        }
    }
}

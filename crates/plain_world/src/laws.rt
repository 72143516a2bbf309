//! Laws of steps and histories, and worked runs. None of these functions does anything; each contract is its law.

ghost use Rattle.plain_world.specs.Proved.Laws.{RefusedStepKeepsWorld, RefusedNextKeepsWorld, JoinAdds, FullJoinRefused, LowestIsLeast, NoLowestIsFull, OffsetsAreApart, OffsetsStayApart, TakesFew, StepKeepsLimits, LimitsHold, LegalIsAnswered, AnsweredIsLegal};
ghost use Rattle.plain_world.specs.Proved.Rows.{Runs, standard, small, narrow, path, hole, greatest_offset, size_limit, pwrite_under_append, opening, deferred_removal, duplicates, renames, flags_of_descriptors, nonblock_under_a_read, shared_offset, closing, nonblocking_fifo, narrow_fifo, exit_in_a_write_that_waits, last_reader_goes, fifo_rendezvous, parts_of_a_large_write};

use posix_model::laws::{
    acts_are_sound, numbers_rise, sweep_leaves_wanted, sweep_releases, sweep_settles,
};

/// A step that records an error changes nothing, where the world was its own sweep, as it is in a history. (The one
/// error of a resume, EPIPE, ends the call that waited: `resume_breaks_alone` of `posix_model`.)
pub fn refusal_keeps_world()
    ensures step { RefusedStepKeepsWorld }
    ensures history { RefusedNextKeepsWorld }
{
    acts_are_sound();
    sweep_settles();
}

/// A join adds one live process under the next number, or is refused with EAGAIN and changes nothing.
pub fn join_adds_one()
    ensures added { JoinAdds }
    ensures full { FullJoinRefused }
{}

/// The lowest free descriptor is the least one that is free; where there is none, every one is taken (XSH 2.14, File
/// Descriptor Allocation).
pub fn lowest_is_least()
    ensures there { LowestIsLeast }
    ensures full { NoLowestIsFull }
{}

/// Two open file descriptions have two offsets, also of one file: an act leaves each description but the one that its own
/// descriptor leads to as it was (XBD 3, File Offset).
pub fn offsets_are_apart()
    ensures effect { OffsetsAreApart }
    ensures step { OffsetsStayApart }
{
    acts_are_sound();
    sweep_leaves_wanted();
}

/// A write, or whatever gives bytes, takes at most the bytes that it gives, and a resume at most those of the call that its process
/// waits in (page of write).
pub fn write_takes_few()
    ensures { TakesFew }
{
    acts_are_sound();
}

/// No step goes past a limit, so no history does: each regular file is at most as long as the size limit, each pipe holds at
/// most its capacity, each offset is at most the greatest one, each process has the descriptors 0 to 31, and there are at most so
/// many names, live open file descriptions and live processes. The size limit has to be at most the greatest offset.
pub fn limits_hold()
    ensures step { StepKeepsLimits }
    ensures history { LimitsHold }
{
    acts_are_sound();
    sweep_leaves_wanted();
}

/// A history is legal exactly where each of its records has the outcome that the step gives in the world of the records
/// before it.
pub fn legal_is_answered()
    ensures each { LegalIsAnswered }
    ensures only { AnsweredIsLegal }
{}

/// Worked runs, each answer as it is written down, computed from the definitions alone.
pub fn worked_runs()
    ensures path { Runs standard path 6 6 }
    ensures hole { Runs standard hole 4 11 }
    ensures greatest_offset { Runs standard greatest_offset 0 0 }
    ensures size_limit { Runs small size_limit 1 0 }
    ensures pwrite_under_append { Runs standard pwrite_under_append 5 4 }
    ensures opening { Runs standard opening 2 3 }
    ensures deferred_removal { Runs standard deferred_removal 3 3 }
    ensures duplicates { Runs standard duplicates 2 2 }
    ensures renames { Runs standard renames 2 0 }
    ensures flags_of_descriptors { Runs standard flags_of_descriptors 3 3 }
    ensures nonblock_under_a_read { Runs standard nonblock_under_a_read 2 2 }
    ensures shared_offset { Runs standard shared_offset 4 4 }
    ensures closing { Runs standard closing 0 0 }
    ensures nonblocking_fifo { Runs standard nonblocking_fifo 1025 1 }
    ensures narrow_fifo { Runs narrow narrow_fifo 1024 512 }
    ensures exit_in_a_write_that_waits { Runs standard exit_in_a_write_that_waits 1025 1025 }
    ensures last_reader_goes { Runs standard last_reader_goes 1024 0 }
    ensures fifo_rendezvous { Runs standard fifo_rendezvous 0 0 }
    ensures parts_of_a_large_write { Runs standard parts_of_a_large_write 2000 2000 }
{}

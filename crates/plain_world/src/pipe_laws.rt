//! Laws of pipes and FIFOs. Each function does nothing; its contract is the law.

ghost use Rattle.plain_world.specs.Proved.PipeLaws.{FifoOpensOneWay, FifoCountsOpenings, ReopenedIsEmpty, ExitTakesBackNothing, WriteLosesNothing, ResumedWriteLosesNothing, SmallWriteIsWhole, UnparkedIsNotReady, UnparkedIsNotResumed};
ghost use Rattle.posix_model.specs.Proved.WaitLaws.{NonblockNeverWaits};

use posix_model::laws::sweep_leaves_wanted;
use posix_model::pipe_laws::ready_moves;

/// An open of a FIFO that is not refused is for reading or for writing, never both (own: a choice of the profile).
pub fn fifo_opens_one_way()
    ensures { FifoOpensOneWay }
{}

/// An open of a FIFO that is not refused raises the count of its own end by one, and leaves that of the other end. So an open that
/// waits does not end its own wait (own).
pub fn fifo_counts_openings()
    ensures { FifoCountsOpenings }
{}

/// An open of a FIFO of which no end is open leads to a pipe that is empty (page of open).
pub fn reopened_fifo_is_empty()
    ensures { ReopenedIsEmpty }
{}

/// An exit leaves each pipe of which an end is still open with its bytes, also those that a call which waited had put there (page
/// of exit).
pub fn exit_takes_back_nothing()
    ensures { ExitTakesBackNothing }
{
    sweep_leaves_wanted();
}

/// A write leaves the bytes that a pipe held as the first of those that it holds, and so does a resume of a process that waits in a
/// write (page of write).
pub fn full_pipe_loses_nothing()
    ensures write { WriteLosesNothing }
    ensures resume { ResumedWriteLosesNothing }
{}

/// Under nonblock a write of at most 512 bytes (PIPE_BUF) moves all of them or none (page of write).
pub fn small_write_is_whole()
    ensures { SmallWriteIsWhole }
{}

/// A process that waits in no call is not ready, and a resume of it is no step.
pub fn nobody_is_ready_unparked()
    ensures ready { UnparkedIsNotReady }
    ensures resumed { UnparkedIsNotResumed }
{}

/// No call under nonblock waits: an open by its flags, any other by the description that it is on (pages of read, write and open).
pub fn nonblock_never_waits()
    ensures { NonblockNeverWaits }
{
    ready_moves();
}

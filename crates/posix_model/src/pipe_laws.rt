//! Laws of pipes and of calls that wait. None of these functions does anything; each contract is its law.

ghost use Rattle.posix_model.specs.Proved.PipeLaws.{BytesOfPipe, SmallWritesUnbroken};
ghost use Rattle.posix_model.specs.Proved.Waiting.{HistoryWaits, ReadyOpenEnds, StepKeepsWaits, WaitingReadIsReady, WaitingWriteIsReady};
ghost use Rattle.posix_model.specs.Proved.WaitLaws.{BrokenNextUnparks, BrokenStepUnparks, CallsEndOrWait, NonblockNeverWaits, ReadyReads, ReadyWrites, ResumeBreaksAlone, ResumesEndOrGoOn};

/// The bytes that went into a live pipe are those that came out of it, followed by those that it holds. The data of a
/// write of at most PIPE_BUF bytes stands there unbroken.
pub fn bytes_of_pipe()
    ensures bytes { BytesOfPipe }
    ensures small { SmallWritesUnbroken }
{}

/// A read or a write that waits is ready exactly where its next try ends or moves more, an open that is taken up ends with its
/// descriptor, and no call under nonblock waits.
pub fn ready_moves()
    ensures reads { ReadyReads }
    ensures writes { ReadyWrites }
    ensures nonblock { NonblockNeverWaits }
    ensures waiting_reads { WaitingReadIsReady }
    ensures waiting_writes { WaitingWriteIsReady }
    ensures waiting_opens { ReadyOpenEnds }
{}

/// EPIPE is the only refusal of a resume. It is given to a write that has moved nothing, into a pipe that nobody reads,
/// and changes nothing except that the write no longer waits.
pub fn resume_breaks_alone()
    ensures decided { ResumeBreaksAlone }
    ensures step { BrokenStepUnparks }
    ensures history { BrokenNextUnparks }
{}

/// In every world of a history a process that waits has a connection, and waits in a read, a write or an open on an end that
/// is open for it, with something left to do.
pub fn calls_wait_on_ends()
    ensures step { StepKeepsWaits }
    ensures history { HistoryWaits }
{}

/// What is recorded of a call is its reply, or that it waits; and of a resume its reply, or that it goes on waiting.
pub fn calls_end_or_wait()
    ensures calls { CallsEndOrWait }
    ensures resumes { ResumesEndOrGoOn }
{}

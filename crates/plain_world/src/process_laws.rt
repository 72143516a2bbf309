//! Laws of processes that fork, are attached and end, and of a run that is closed. Each function does nothing; its contract is
//! the law.

ghost use Rattle.plain_world.specs.Proved.ProcessLaws.{ForkCopies, ForkShares, FullForkRefused, SharedIsSeen, AttachConnects, OtherAttachRefused, ExitFrees, ClosingCloses, ClosedOnce};

use posix_model::laws::sweep_leaves_wanted;

/// A fork adds a child under the next number, and each of its descriptors leads to the description that the same descriptor of its
/// parent leads to; where there may be no further process it is EAGAIN and changes nothing (page of fork).
pub fn fork_copies_descriptors()
    ensures copies { ForkCopies }
    ensures shares { ForkShares }
    ensures full { FullForkRefused }
{}

/// Descriptors that lead to one description share its offset and its flags, in one process or in two (XBD 3, File Offset; pages of
/// fork, dup and fcntl).
pub fn shared_is_seen()
    ensures { SharedIsSeen }
{}

/// An attach gives a child that waits its connection, and of any other number it is ESRCH and changes nothing.
pub fn attach_connects()
    ensures child { AttachConnects }
    ensures other { OtherAttachRefused }
{}

/// An exit ends its process and leaves the others, all names and each description that another process has open as they were; the
/// other descriptions go (page of exit).
pub fn exit_frees()
    ensures { ExitFrees }
{
    sweep_leaves_wanted();
}

/// A closing changes nothing but that the run is closed, and a run is closed once.
pub fn closing_closes()
    ensures closes { ClosingCloses }
    ensures once { ClosedOnce }
{}

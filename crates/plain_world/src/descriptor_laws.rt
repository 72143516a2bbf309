//! Laws of the descriptors of processes. Each function does nothing; its contract is the law.

ghost use Rattle.plain_world.specs.Proved.DescriptorLaws.{OpenGivesLowest, DupLeads, Dup2Leads, Dup2KeepsEqual, CloseCloses, NotOpenIsBad, AccessIsNeeded, ProcessesAreApart};

/// An open that is not refused takes the lowest free descriptor of its process, and tells its number; if it waits, the
/// process keeps it (own: a choice of the profile; else page of open). `ready_moves` says what a resume tells.
pub fn open_gives_the_lowest()
    ensures { OpenGivesLowest }
{}

/// A dup gives the least descriptor that is free, and a dup2 the one that is asked: it leads to the description that the first one
/// leads to, and no other descriptor is changed. A dup2 of equal numbers changes nothing (pages of dup and dup2).
pub fn duplicates_lead_to_one()
    ensures dup { DupLeads }
    ensures dup2 { Dup2Leads }
    ensures equal { Dup2KeepsEqual }
{}

/// A descriptor that was closed is not open, and a call on one that is not open is EBADF, whatever else is wrong with it
/// (page of close, and EBADF of each page).
pub fn closed_is_not_open()
    ensures close { CloseCloses }
    ensures not_open { NotOpenIsBad }
{}

/// A read and a pread that are not refused are on a descriptor that is open for reading, and a write, a pwrite and an ftruncate on
/// one that is open for writing (EBADF of the pages of read and write, and page of ftruncate).
pub fn access_is_needed()
    ensures { AccessIsNeeded }
{}

/// A call of one process leaves every other process that was there, with its descriptors, as it was (XBD 3, File Descriptor).
pub fn processes_are_apart()
    ensures { ProcessesAreApart }
{}

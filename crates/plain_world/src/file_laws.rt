//! Laws of the calls on files. Each function does nothing; its contract is the law.

ghost use Rattle.plain_world.specs.Proved.FileLaws.{WriteSplices, WritePuts, PwritePuts, WriteMoves, WriteTakesAll, WriteAppends, ReadGives, PreadGives, ReadMoves, SeekTells, SeekMoves, PreadKeepsWorld, NothingRead, NothingWritten, NothingPwritten, PwriteKeepsOffsets, PwriteSameUnderAppend, OwnFileAlone, FilesStay, PipesStay, ActsLeaveFiles, ActsLeavePipes, FtruncateResizes, FtruncateLeavesResized, FtruncateKeepsOffsets, OpenDescribes, OpenIsForAsked, ExclOpensNew, TruncOpenEmpties, OpenKeepsFiles, OpenKeepsOthers, OpenMakesEmpty};

use posix_model::laws::{acts_are_sound, calls_are_sound};

/// A write puts the bytes that it took at the offset, or at the end under append, leaves the others, and fills a gap with
/// zeros (page of write).
pub fn write_splices()
    ensures call { WritePuts }
    ensures bytes { WriteSplices }
{}

/// A write to a regular file takes all of its bytes, or as many as there is room for below the size limit, and leaves the offset after
/// them (page of write). No other offset moves: `offsets_are_apart`.
pub fn write_moves()
    ensures offset { WriteMoves }
    ensures all { WriteTakesAll }
{}

/// Under append a write puts its bytes at the end of the file, whatever the offset (page of write).
pub fn append_adds_at_end()
    ensures { WriteAppends }
{}

/// A read of a regular file gives the bytes from its offset on, as many as were asked or as there are, and leaves the offset after
/// them; a pread gives those from its position on (page of read).
pub fn reads_give_the_bytes()
    ensures read { ReadGives }
    ensures pread { PreadGives }
    ensures offset { ReadMoves }
{}

/// A seek tells the place that is so many bytes past the start, the offset or the end (its page).
pub fn seek_tells_the_offset()
    ensures { SeekTells }
{}

/// A seek leaves the offset of its open file description at the place that it tells (page of lseek). No other offset moves:
/// `offsets_are_apart`.
pub fn seek_moves()
    ensures { SeekMoves }
{}

/// A pread changes nothing: no byte, and no offset (page of read, pread).
pub fn pread_keeps_world()
    ensures { PreadKeepsWorld }
{}

/// A read, write or pwrite of no bytes changes nothing, refused or not.
pub fn nothing_asked()
    ensures read { NothingRead }
    ensures write { NothingWritten }
    ensures pwrite { NothingPwritten }
{}

/// A pwrite leaves every offset as it was (page of write, pwrite).
pub fn pwrite_keeps_offsets()
    ensures { PwriteKeepsOffsets }
{}

/// A pwrite puts the bytes that it took at its position, under append or not (page of write, pwrite).
pub fn pwrite_ignores_append()
    ensures call { PwritePuts }
    ensures append { PwriteSameUnderAppend }
{}

/// A write, a pwrite and an ftruncate change no file but the one that their descriptor is open on (pages of write, pwrite
/// and ftruncate).
pub fn other_files_stay()
    ensures { OwnFileAlone }
{}

/// Only open, write, pwrite, ftruncate, mkfifo, link, unlink and rename may change a file or a name, so no seek past the
/// end makes a file longer. Only open, read, write, pipe and resume may change a pipe. Sweeps are another matter.
pub fn contents_stay()
    ensures files { FilesStay }
    ensures pipes { PipesStay }
    ensures act_files { ActsLeaveFiles }
    ensures act_pipes { ActsLeavePipes }
{
    calls_are_sound();
    acts_are_sound();
}

/// An ftruncate cuts a file or extends it by zeros, and leaves the bytes before the new end (page of ftruncate).
pub fn ftruncate_resizes()
    ensures bytes { FtruncateResizes }
    ensures call { FtruncateLeavesResized }
{}

/// An ftruncate leaves every offset as it was (page of ftruncate).
pub fn ftruncate_keeps_offsets()
    ensures { FtruncateKeepsOffsets }
{}

/// Each open that is not refused has an open file description of its own, at the start of the file or FIFO that the name leads to,
/// in the mode and with the flags that were asked; so two opens of one file have two. The least free descriptor leads to it, which
/// the open tells, or which its process keeps where it waits (page of open; of one that waits own). It is open for reading where
/// that was asked, and for writing where that was.
pub fn open_describes()
    ensures description { OpenDescribes }
    ensures access { OpenIsForAsked }
{}

/// An open under creat and excl that is not refused is of a name that was not there (page of open).
pub fn excl_opens_new()
    ensures { ExclOpensNew }
{}

/// An open under trunc that is not refused empties its file, and changes no other (page of open).
pub fn trunc_empties()
    ensures { TruncOpenEmpties }
{}

/// An open without trunc of a name that is there and leads to no FIFO changes no file. No open of a name that is there
/// changes another file. An open of a new name that is not refused adds an empty regular file (page of open).
pub fn open_keeps_files()
    ensures present { OpenKeepsFiles }
    ensures others { OpenKeepsOthers }
    ensures new { OpenMakesEmpty }
{}

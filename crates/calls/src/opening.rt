ghost use Rattle.std.specs.Prelude.{◌≡◌};
ghost use Rattle.posix_model.specs.Pages.{first_fault};
ghost use Rattle.posix_model.specs.Open.{flag_faults, mode_of, new_description, free_descriptor};

use call_types::description::{Description, Mode, Target};
use call_types::errno::Errno;
use call_types::flags::OpenFlags;
use posix_model::reader::WorldReader;

/// The first refusal of flags: EINVAL of those that the standard leaves undefined.
pub(crate) fn flag_fault(flags: OpenFlags) -> Option<Errno>
    ensures { result ≡ first_fault (flag_faults flags) }
{
    if !(flags.has(OpenFlags::READ) || flags.has(OpenFlags::WRITE)) {
        return Some(Errno::EINVAL);
    }
    if flags.has(OpenFlags::EXCL) && !flags.has(OpenFlags::CREAT) {
        return Some(Errno::EINVAL);
    }
    if flags.has(OpenFlags::TRUNC) && !flags.has(OpenFlags::WRITE) {
        return Some(Errno::EINVAL);
    }
    None
}

/// For what a file is opened.
pub(crate) fn mode_of(flags: OpenFlags) -> Mode
    ensures { result ≡ mode_of flags }
{
    if !flags.has(OpenFlags::READ) {
        return Mode::Write;
    }
    if flags.has(OpenFlags::WRITE) {
        Mode::ReadWrite
    } else {
        Mode::Read
    }
}

/// A new open file description, with offset 0.
pub fn new_description(target: Target, flags: OpenFlags) -> Description
    ensures { result ≡ new_description target flags }
{
    Description {
        target,
        offset: 0,
        mode: mode_of(flags),
        append: flags.has(OpenFlags::APPEND),
        nonblock: flags.has(OpenFlags::NONBLOCK),
    }
}

/// The lowest free descriptor of a process, and 0 where there is none (XSH 2.14, File Descriptor Allocation).
pub fn free_descriptor<R: WorldReader>(state: &R, process: usize) -> usize
    ensures { result ≡ free_descriptor (R.world state.now) process }
{
    state.lowest_free(process).unwrap_or(0)
}

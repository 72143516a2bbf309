ghost use Rattle.std.specs.Prelude.{◌≡◌};
ghost use Rattle.posix_model.specs.Pipes.{pipe_at};
ghost use Rattle.posix_model.specs.Positions.{regular_file, is_regular, file_at};

use call_types::description::Target;
use posix_model::opened::OpenDescriptor;

/// The pipe that a target is an end of.
pub fn pipe_at(target: Target) -> Option<usize>
    ensures { result ≡ pipe_at target }
{
    match target {
        Target::Regular { .. } => None,
        Target::Pipe { pipe } | Target::Fifo { pipe, .. } => Some(pipe),
    }
}

/// The regular file that a target is, which has positions.
fn regular_file(target: Target) -> Option<usize>
    ensures { result ≡ regular_file target }
{
    match target {
        Target::Regular { file } => Some(file),
        Target::Pipe { .. } | Target::Fifo { .. } => None,
    }
}

/// Whether a descriptor is open on a regular file.
pub(crate) fn is_regular(descriptor: &OpenDescriptor) -> bool
    ensures { result ≡ is_regular descriptor.now }
{
    regular_file(descriptor.description.target).is_some()
}

/// The regular file that a descriptor is open on, if it is on one.
pub(crate) fn file_at(descriptor: &OpenDescriptor) -> usize
    ensures { result ≡ file_at descriptor.now }
{
    regular_file(descriptor.description.target).unwrap_or(0)
}

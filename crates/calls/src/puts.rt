ghost use Rattle.std.specs.Prelude.{◌≡◌};
ghost use Rattle.posix_model.specs.Write.{is_past_limit, fitting, puts};

use call_types::bounded::Payload;
use call_types::limits::Bounds;
use call_types::outcome::Reply;
use posix_model::change::{Decided, FileEdit, TableEdit, does, tells};

/// Whether some bytes would begin at the size limit or past it.
pub(crate) fn is_past_limit(bounds: Bounds, start: u64, bytes: &Payload) -> bool
    ensures { result ≡ is_past_limit bounds start bytes.now }
{
    !bytes.is_empty() && bounds.file_size <= start
}

/// How many of the bytes fit below the size limit.
pub(crate) fn fitting(bounds: Bounds, start: u64, bytes: &Payload) -> usize
    ensures { result ≡ fitting bounds start bytes.now }
{
    bytes
        .len()
        .min(bounds.file_size.saturating_sub(start) as usize)
}

/// Decides to put `count` bytes into a file and to edit the offset; without bytes nothing changes.
pub(crate) fn puts(
    bytes: &Payload,
    file: usize,
    start: usize,
    count: usize,
    moved: TableEdit,
) -> Decided
    ensures { result ≡ puts bytes.now file start count moved }
{
    if bytes.is_empty() {
        return tells(Reply::Number(0));
    }
    let edit = FileEdit::Bytes { file, start, count };
    does(Reply::Number(count as u64), edit, moved)
}

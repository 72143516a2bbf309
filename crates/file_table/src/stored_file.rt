ghost use Rattle.std.specs.Prelude.{◌≡◌, ◌+◌, ◌<◌, ◌^◌, Some, true, [], is_some, option_copied};
ghost use Rattle.posix_model.specs.Pipes.{fifo_at, unopened};
ghost use Rattle.posix_model.specs.declared.world.File.TheVariants as file;
ghost use Rattle.file_table.specs.StoredFiles.{file_in};
ghost use Rattle.file_table.specs.Proved.Files.{extents_in, opened_stored, forgetful, other_pipe, openings};

use call_types::description::Mode;
use file_extents::extents::Extents;
use posix_model::world::Fifo;
use std::alloc::Global;

/// What a file is (XBD 3, File): a regular one with its bytes, or a FIFO.
#[derive(Drop)]
pub enum FileBody {
    Regular(Extents),
    Fifo(Fifo),
}

/// A file, and how many names it has (XBD 3, Link Count).
#[derive(Drop)]
pub struct StoredFile {
    pub body: FileBody,
    pub links: usize,
}

/// How often the end of this mode of a FIFO was opened so far; none where there is no FIFO.
pub fn openings(mode: Mode, fifo: Option<Fifo>) -> u64
    ensures { result ≡ openings mode fifo }
{
    match (fifo, mode) {
        (Some(fifo), Mode::Read) => fifo.reader_openings,
        (Some(fifo), Mode::Write | Mode::ReadWrite) => fifo.writer_openings,
        (None, _) => 0,
    }
}

/// The same pipe, unless it is this one.
fn other_pipe(pipe: usize, known: Option<usize>) -> Option<usize>
    ensures { result ≡ other_pipe pipe known }
{
    known.filter(|known| *known != pipe)
}

impl FileBody {
    /// An empty regular file.
    pub fn empty(alloc: Global) -> Self
        ensures { file_in result ≡ file.Regular [] }
    {
        FileBody::Regular(Extents::new(alloc))
    }

    /// A FIFO that nobody opened yet.
    pub fn fifo() -> Self
        ensures { file_in result ≡ file.Fifo unopened }
    {
        FileBody::Fifo(Fifo {
            pipe: None,
            reader_openings: 0,
            writer_openings: 0,
        })
    }

    ghost use Rattle.std.specs.Borrow.{sem};
    ghost use Rattle.file_table.specs.Proved.Lends.{lends_body};

    /// The bytes of a regular file.
    #[inline(always)]
    pub(crate) fn extents(&self) -> Option<&Extents>
        ensures { option_copied result ≡ extents_in self.now }
    {
        match self {
            FileBody::Regular(bytes) => Some(bytes),
            FileBody::Fifo(_) => None,
        }
    }

    /// The bytes of a regular file, to be edited where they stand.
    #[inline(always)]
    pub(crate) fn extents_mut(&mut self) -> &mut Extents
        requires { is_some (extents_in self.old) ≡ true }
        ensures* writes_back { sem 𝓛 (lends_body self.entry result) }
        ensures value { extents_in self.old ≡ Some result.now }
    {
        match self {
            FileBody::Regular(bytes) => bytes,
            FileBody::Fifo(_) => unreachable!(),
        }
    }
}

impl StoredFile {
    /// The FIFO, if it is one.
    pub(crate) fn fifo(&self) -> Option<Fifo>
        ensures { result ≡ fifo_at (Some (file_in self.now.body)) }
    {
        match &self.body {
            FileBody::Regular(_) => None,
            FileBody::Fifo(fifo) => Some(*fifo),
        }
    }

    /// An end of a FIFO is opened once more, on this pipe.
    pub(crate) fn count_opening(&mut self, mode: Mode, pipe: usize)
        requires { openings mode (fifo_at (Some (file_in self.old.body))) + 1 < 2 ^ 64 }
        ensures { self.new ≡ opened_stored mode pipe self.old }
    {
        if let FileBody::Fifo(fifo) = &mut self.body {
            fifo.pipe = Some(pipe);
            match mode {
                Mode::Read => fifo.reader_openings += 1,
                Mode::Write | Mode::ReadWrite => fifo.writer_openings += 1,
            }
        }
    }

    /// A FIFO forgets this pipe, if it is its own.
    pub(crate) fn forget(&mut self, pipe: usize)
        ensures { self.new ≡ forgetful pipe self.old }
    {
        if let FileBody::Fifo(fifo) = &mut self.body {
            fifo.pipe = other_pipe(pipe, fifo.pipe);
        }
    }
}

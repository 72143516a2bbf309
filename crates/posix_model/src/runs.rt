//! The bytes of a regular file of the plain world, as a list of runs. A hole is a count of zeros and takes no memory, so
//! this world can have files as long as any limit allows. Runs are not joined: each write adds some.

ghost use Rattle.std.specs.Prelude.{◌≡◌, ◌+◌, ◌≤◌, ◌<◌, ◌^◌, [], ◌++◌, length, IfOk, OnOk, OnErr};
ghost use Rattle.call_types.specs.declared.limits.TheConstants.{TRANSFER_MAX};
ghost use Rattle.call_types.specs.Stored.{span_bytes};
ghost use Rattle.posix_model.specs.Bytes.{splice, bytes_at, resized};
ghost use Rattle.posix_model.specs.Runs.{run_bytes, all_bytes};

use crate::contents::Contents;
use call_types::bounded::Content;
use call_types::span::Span;
use std::alloc::{AllocError, Global};
use std::marker::Model;

/// Bytes of a file that stand one after another.
#[derive(Clone, Drop)]
pub enum Run {
    /// So many zeros, which take no memory.
    Zeros { count: usize },
    /// Bytes of any value.
    Bytes(Contents),
}

/// The bytes of a regular file, fewer than 2^63. Contracts see their list.
#[derive(Drop)]
pub struct Runs {
    /// How many bytes there are in all runs.
    len: usize,
    runs: Vec<Run>,
}

impl Model for Runs {
    ghost use Rattle.std.specs.Prelude.{◌≡◌, ◌<◌, ◌^◌, List, ℕ, length};
    ghost use Rattle.posix_model.specs.Runs.{all_bytes};

    ghost Value = { List ℕ };

    ghost view = { λ file. all_bytes file.runs.items };

    ghost invariant = { λ file. (file.len ≡ length (all_bytes file.runs.items)) × (file.len < 2 ^ 63) };
}

impl Run {
    /// The run of some bytes. Zeros that are given as one byte and a count take no memory; an error says that memory ran out.
    fn copied(alloc: Global, bytes: Span<'_>) -> Result<Self, AllocError>
        requires { length (span_bytes bytes) < 2 ^ 63 }
        ensures { IfOk result (λ run. run_bytes run ≡ span_bytes bytes.entry) }
    {
        match bytes {
            Span::Same { byte: 0, count } => Ok(Run::Zeros { count }),
            bytes => Ok(Run::Bytes(Contents::copied(alloc, bytes)?)),
        }
    }

    /// The bytes, where they are.
    fn span(&self) -> Span<'_>
        ensures { span_bytes result ≡ run_bytes self.now }
    {
        match self {
            Run::Zeros { count } => Span::Same {
                byte: 0,
                count: *count,
            },
            Run::Bytes(bytes) => Span::Slice(bytes.as_slice()),
        }
    }
}

/// Adds a part of some runs at the end of a file: at most `count` bytes, from their byte `start` on. An error says that memory
/// ran out; some of them may then have been added.
#[tactic(auto, using(crate::proofs::RunLaws::no_part, crate::proofs::RunLaws::part_is_short))]
fn append_part(
    alloc: Global,
    file: &mut Runs,
    runs: &[Run],
    start: usize,
    count: usize,
) -> Result<(), AllocError>
    requires { length file.old + count < 2 ^ 63 }
    ensures { OnOk result (file.new ≡ file.old ++ bytes_at (all_bytes runs.now) start count) }
{
    let mut rest = runs;
    let mut skip = start;
    let mut left = count;
    while let Some((first, after)) = rest.split_first() {
        let all = first.span();
        let here = all.cut(skip, left);
        skip = skip.saturating_sub(all.len());
        left -= here.len();
        file.append(alloc, here)?;
        rest = after;
    }
    Ok(())
}

/// Adds the bytes of all runs at the end of others. An error says that memory ran out; some may then have been added.
fn append_all(bytes: &mut Contents, runs: &[Run]) -> Result<(), AllocError>
    requires { length bytes.old + length (all_bytes runs.now) < 2 ^ 63 }
    ensures { OnOk result (bytes.new ≡ bytes.old ++ all_bytes runs.now) }
{
    let mut rest = runs;
    while let Some((first, after)) = rest.split_first() {
        bytes.append(first.span())?;
        rest = after;
    }
    Ok(())
}

impl Runs {
    /// The contents of a new file.
    pub fn new(alloc: Global) -> Self
        ensures { result ≡ [] }
    {
        Runs {
            len: 0,
            runs: Vec::new(alloc),
        }
    }

    /// The length of the file, in bytes.
    pub fn len(&self) -> usize
        ensures { result ≡ length self.now }
    {
        self.len
    }

    /// Adds `new` at the end. An error says that memory ran out.
    fn append(&mut self, alloc: Global, new: Span<'_>) -> Result<(), AllocError>
        requires { length self.old + length (span_bytes new) < 2 ^ 63 }
        ensures { OnOk result (self.new ≡ self.old ++ span_bytes new.entry) }
    {
        let count = new.len();
        if count == 0 {
            return Ok(());
        }
        let run = Run::copied(alloc, new)?;
        self.runs.push(run)?;
        self.len += count;
        Ok(())
    }

    /// A copy with the length `len`, in bytes: the first ones, and zeros after them where there are fewer. An error says
    /// that memory ran out.
    fn resized(&self, alloc: Global, len: usize) -> Result<Self, AllocError>
        requires { len < 2 ^ 63 }
        ensures bytes { IfOk result (λ copy. copy ≡ resized self.now len) }
        ensures len { IfOk result (λ copy. length copy ≡ len) }
    {
        let mut copy = Runs::new(alloc);
        append_part(alloc, &mut copy, self.runs.as_slice(), 0, len)?;
        let gap = len - copy.len();
        copy.append(
            alloc,
            Span::Same {
                byte: 0,
                count: gap,
            },
        )?;
        Ok(copy)
    }

    /// At most `count` bytes from `start` on; none at the end or past it. An error says that memory ran out.
    pub fn read_at(&self, alloc: Global, start: usize, count: usize) -> Result<Content, AllocError>
        requires { count ≤ TRANSFER_MAX }
        ensures content { IfOk result (λ content. content ≡ bytes_at self.now start count) }
        ensures within { length self.now < 2 ^ 63 }
    {
        let mut part = Runs::new(alloc);
        append_part(alloc, &mut part, self.runs.as_slice(), start, count)?;
        let mut bytes = Contents::new(alloc);
        append_all(&mut bytes, part.runs.as_slice())?;
        Content::copied(alloc, bytes.as_slice())
    }

    /// Writes `new` from `start` on; a gap before it is filled with zeros. An error says that memory ran out, and that nothing
    /// changed.
    #[tactic(auto, using(crate::proofs::RunLaws::splice_parts))]
    pub fn write_at(&mut self, alloc: Global, start: usize, new: Span<'_>) -> Result<(), AllocError>
        requires { start + length (span_bytes new) < 2 ^ 63 }
        ensures ok { OnOk result (self.new ≡ splice self.old start (span_bytes new.entry)) }
        ensures err { OnErr result (self.new ≡ self.old) }
    {
        let end = start + new.len();
        let mut file = self.resized(alloc, start)?;
        file.append(alloc, new)?;
        let left = self.len.saturating_sub(end);
        append_part(alloc, &mut file, self.runs.as_slice(), end, left)?;
        *self = file;
        Ok(())
    }

    /// Sets the length to `len` bytes: what is past it goes, and zeros come where there were fewer. An error says that memory ran
    /// out, and that nothing changed.
    pub fn set_len(&mut self, alloc: Global, len: usize) -> Result<(), AllocError>
        requires { len < 2 ^ 63 }
        ensures ok { OnOk result (self.new ≡ resized self.old len) }
        ensures err { OnErr result (self.new ≡ self.old) }
    {
        *self = self.resized(alloc, len)?;
        Ok(())
    }
}

impl Clone for Runs {
    ghost is_clone = { λ old new. new ≡ old };

    fn clone(&self) -> Result<Self, AllocError> {
        Ok(Runs {
            len: self.len,
            runs: self.runs.clone()?,
        })
    }
}

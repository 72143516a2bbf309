//! The headers of traces, of both versions. After its header a trace has the frames of a run's records, from the first one on.

ghost use Rattle.std.specs.Prelude.{◌≡◌, ◌≤◌, [], ◌∷◌, ◌++◌, None, true, codes, length, take, IfOk};
ghost use Rattle.std.specs.Int.{w32, w64, from_be_bytes};
ghost use Rattle.call_types.specs.Writing.{Appends};
ghost use Rattle.frame_codec.specs.Trace.{header, header_1, header_2, is_most, is_told, limits_bytes, limits_header, most_of, number_of, told_of, told_in, version_1, version_header};
ghost use Rattle.frame_codec.specs.Proved.Headers.{HeaderGoesOn, HeadersAreRead, HeadersTell, Heads};

use crate::put::{put, put_u32, put_u64};
use call_types::limits::{
    Bounds, FILE_SIZE_1, FILE_SIZE_MAX, Limits, PIPE_CAPACITY_MAX, PIPE_CAPACITY_MIN, RECORDS_MAX,
};
use std::alloc::{AllocError, Global};
use std::marker::Model;

/// What begins the header of each version, in ASCII. The digit of its version comes next.
pub const TRACE_MAGIC: [u8; 7] = *b"FDTRACE";

/// The digit of the version that tells nothing of its run.
pub const VERSION_1: u8 = b'1';

/// The digit of the version that tells the limits of its run.
pub const VERSION_2: u8 = b'2';

/// Bytes of a header of version 1.
pub const HEADER_1_LENGTH: usize = 8;

/// Bytes of a header of version 2: magic and digit, the number of records in 4, the capacity of pipes in 4, the size of files in 8.
pub const HEADER_2_LENGTH: usize = 24;

/// What a trace tells of the limits of its run.
#[derive(Clone, Copy, Debug)]
pub struct ToldLimits {
    /// How many records the run may have, from 1 to 1,000,000, if that is told.
    pub records: Option<u32>,
    pub bounds: Bounds,
}

/// What bytes are that are to begin with the header of a trace.
#[derive(Clone, Copy, Debug)]
pub enum Header {
    /// A byte or a field of them is none of a header.
    Unheaded,
    /// They end within a header.
    Short,
    /// So many of them are a header, which tells this.
    Headed { told: ToldLimits, length: usize },
}

/// The lengths and the text of headers as they are written. Definitions name the constants, so a wrong one is seen here. It does
/// nothing.
#[tactic(auto, unfolding(crate::specs::Fields::number_bytes))]
pub fn headers_as_written()
    ensures magic { header_1 ≡ TRACE_MAGIC ++ VERSION_1 ∷ [] }
    ensures version_1 { header_1 ≡ codes "FDTRACE1" }
    ensures length_1 { length header_1 ≡ 8 }
    ensures told_1 { version_1 ≡ record { records = None; bounds = record { file_size = 1048576; pipe_capacity = 1024 } } }
    ensures version_2 { header_2 version_1 ≡ codes "FDTRACE2" ++ (0 ∷ 0 ∷ 0 ∷ 0 ∷ 0 ∷ 0 ∷ 4 ∷ 0 ∷ 0 ∷ 0 ∷ 0 ∷ 0 ∷ 0 ∷ 16 ∷ 0 ∷ 0 ∷ []) }
{}

/// A header that was met stays the header, however the bytes go on, and bytes that begin with none never do.
pub fn headers_go_on()
    ensures { HeaderGoesOn }
{}

/// A header that is written is read again, whatever comes after it.
pub fn headers_are_read()
    ensures { HeadersAreRead }
{}

/// No header tells limits that no run may have.
pub fn headers_tell_limits()
    ensures { HeadersTell }
{}

impl ToldLimits {
    /// What the header of version 1 tells: not how many records, and the limits that all those runs had.
    pub fn version_1() -> Self
        ensures { result ≡ version_1 }
    {
        ToldLimits {
            records: None,
            bounds: Bounds::version_1(),
        }
    }

    /// What is told of a run with these limits.
    pub fn of(limits: Limits) -> Self
        ensures exact { result ≡ told_of limits }
        ensures told { is_told result ≡ true }
    {
        ToldLimits {
            records: Some(limits.records() as u32),
            bounds: limits.bounds(),
        }
    }
}

/// Whether a run may have so many records, if that is told.
fn is_most(records: Option<u32>) -> bool
    ensures { result ≡ is_most records }
{
    match records {
        None => true,
        Some(most) => 1 <= most && u64::from(most) <= RECORDS_MAX,
    }
}

/// Whether a header may tell this.
fn is_told(told: &ToldLimits) -> bool
    ensures { result ≡ is_told told.now }
{
    let capacity = told.bounds.pipe_capacity;
    let size = told.bounds.file_size;
    is_most(told.records)
        && (PIPE_CAPACITY_MIN <= capacity && capacity <= PIPE_CAPACITY_MAX)
        && (size == FILE_SIZE_1 || size == FILE_SIZE_MAX)
}

/// How many records are told by a number, of which 0 tells nothing.
fn most_of(number: u32) -> Option<u32>
    ensures { result ≡ most_of number }
{
    match number {
        0 => None,
        most => Some(most),
    }
}

/// The number that tells so many records, or nothing.
fn number_of(records: Option<u32>) -> u32
    ensures { result ≡ number_of records }
{
    records.unwrap_or(0)
}

/// The number that the first four bytes tell.
fn number32(bytes: &[u8]) -> u32
    requires { 4 ≤ length bytes.now }
    ensures { result ≡ from_be_bytes w32 (take 4 bytes.now) }
{
    let (front, _) = bytes.split_at(4);
    u32::from_be_bytes([front[0], front[1], front[2], front[3]])
}

/// The number that the first eight bytes tell.
fn number64(bytes: &[u8]) -> u64
    requires { 8 ≤ length bytes.now }
    ensures { result ≡ from_be_bytes w64 (take 8 bytes.now) }
{
    let (front, _) = bytes.split_at(8);
    u64::from_be_bytes([
        front[0], front[1], front[2], front[3], front[4], front[5], front[6], front[7],
    ])
}

/// What the fields of a header of version 2 tell.
fn told_in(fields: &[u8]) -> ToldLimits
    requires { 16 ≤ length fields.now }
    ensures { result ≡ told_in fields.now }
{
    let (_, capacity) = fields.split_at(4);
    let (_, size) = fields.split_at(8);
    ToldLimits {
        records: most_of(number32(fields)),
        bounds: Bounds {
            file_size: number64(size),
            pipe_capacity: u64::from(number32(capacity)),
        },
    }
}

/// What bytes are that are to begin with the fields of a header of version 2.
fn limits_header(fields: &[u8]) -> Header
    ensures { result ≡ limits_header fields.now }
{
    if fields.len() < HEADER_2_LENGTH - HEADER_1_LENGTH {
        return Header::Short;
    }
    let told = told_in(fields);
    if is_told(&told) {
        Header::Headed {
            told,
            length: HEADER_2_LENGTH,
        }
    } else {
        Header::Unheaded
    }
}

/// What bytes are that are to begin with the digit of a version.
fn version_header(bytes: &[u8]) -> Header
    ensures { result ≡ version_header bytes.now }
{
    match bytes.split_first() {
        None => Header::Short,
        Some((version, fields)) => match *version {
            VERSION_1 => Header::Headed {
                told: ToldLimits::version_1(),
                length: HEADER_1_LENGTH,
            },
            VERSION_2 => limits_header(fields),
            _ => Header::Unheaded,
        },
    }
}

/// What bytes are that are to begin with the header of a trace.
pub fn read_header(bytes: &[u8]) -> Header
    ensures { result ≡ header bytes.now }
{
    let mut wanted: &[u8] = &TRACE_MAGIC;
    let mut rest = bytes;
    while let Some((first, others)) = wanted.split_first() {
        match rest.split_first() {
            None => return Header::Short,
            Some((byte, after)) if *byte == *first => rest = after,
            Some(_) => return Header::Unheaded,
        }
        wanted = others;
    }
    version_header(rest)
}

/// Appends what tells the limits of a run in a header of version 2.
#[tactic(auto, using(crate::proofs::Fronts::keeps_after))]
fn put_limits(out: &mut Vec<u8>, told: &ToldLimits) -> Result<(), AllocError>
    requires { is_told told.now ≡ true }
    ensures { Appends result out.old.items out.new.items (limits_bytes told.now) }
{
    put_u32(out, number_of(told.records))?;
    put_u32(out, told.bounds.pipe_capacity as u32)?;
    put_u64(out, told.bounds.file_size)?;
    Ok(())
}

/// Appends the header of version 2 of a trace that tells this.
#[tactic(auto, using(crate::proofs::Fronts::keeps_after))]
pub fn put_header(out: &mut Vec<u8>, told: &ToldLimits) -> Result<(), AllocError>
    requires { is_told told.now ≡ true }
    ensures { Appends result out.old.items out.new.items (header_2 told.now) }
{
    put(out, b"FDTRACE2")?;
    put_limits(out, told)?;
    Ok(())
}

/// What a piece of a trace is, before its header is whole.
#[derive(Drop)]
pub enum Heading<'a> {
    /// The trace has no header.
    Unheaded,
    /// All of the piece belongs to the header, which goes on.
    Short,
    /// The header is whole, has so many bytes and tells this. The rest of the piece comes after it.
    Headed {
        told: ToldLimits,
        length: usize,
        rest: &'a [u8],
    },
}

/// The bytes of a header so far, while it is not whole. Contracts see them as a list.
#[derive(Drop)]
pub struct HeaderFront {
    met: Vec<u8>,
}

impl Model for HeaderFront {
    ghost use Rattle.std.specs.Prelude.{◌≡◌, ℕ, List};
    ghost use Rattle.frame_codec.specs.Trace.{header};
    ghost use Rattle.frame_codec.specs.declared.trace.Header.TheVariants.{Short};

    ghost Value = { List ℕ };

    ghost view = { λ front. front.met.items };

    ghost invariant = { λ front. header front.met.items ≡ Short };
}

impl HeaderFront {
    /// Before the first byte. It takes no memory.
    pub fn new(alloc: Global) -> Self
        ensures { result ≡ [] }
    {
        HeaderFront {
            met: Vec::new(alloc),
        }
    }

    /// The bytes so far.
    pub fn as_slice(&self) -> &[u8]
        ensures bytes { result.now ≡ self.now }
        ensures short { header result.now ≡ Header.Short }
    {
        self.met.as_slice()
    }

    /// Takes the next bytes of a trace, of any length. Once the header is whole, or none, do not go on. An error says that memory
    /// ran out.
    pub fn take<'a>(&mut self, piece: &'a [u8]) -> Result<Heading<'a>, AllocError>
        ensures { IfOk result (λ heading. Heads self.old self.new piece.now heading) }
    {
        headers_go_on();
        let before = self.met.len();
        let count = piece.len().min(HEADER_2_LENGTH - before);
        let (front, _) = piece.split_at(count);
        self.met.extend_from_slice(front)?;
        match read_header(self.met.as_slice()) {
            Header::Short => Ok(Heading::Short),
            Header::Unheaded => {
                self.met.truncate(before);
                Ok(Heading::Unheaded)
            }
            Header::Headed { told, length } => {
                self.met.truncate(before);
                let (_, rest) = piece.split_at(length - before);
                Ok(Heading::Headed { told, length, rest })
            }
        }
    }
}

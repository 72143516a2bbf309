ghost use Rattle.std.specs.Prelude.{◌≡◌, ◌≤◌, ◌<◌, ◌⊎◌, ◌↔◌, ◌-◌, ◌^◌, Err, IsOk, IfOk};
ghost use Rattle.call_types.specs.declared.limits.TheConstants.{FILE_SIZE_MAX, OFFSET_MAX, RECORDS_MAX, PIPE_CAPACITY_MIN, PIPE_CAPACITY_MAX};

use crate::act::HOUSE;

/// Descriptors of one process: the numbers 0 to 31 (XSH 2.14; XBD limits.h, OPEN_MAX).
pub const OPEN_MAX: usize = 32;

/// Bytes of a name in a world; a longer one is ENAMETOOLONG (NAME_MAX).
pub const NAME_MAX: usize = 64;

/// Names that there are at one time; one more is ENOSPC.
pub const NAMES_MAX: usize = 1024;

/// Names that one file has; one more is EMLINK (XBD limits.h, LINK_MAX).
pub const LINK_MAX: usize = 8;

/// Live open file descriptions; one more is ENFILE.
pub const DESCRIPTIONS_MAX: usize = 1024;

/// Live processes; one more is EAGAIN.
pub const PROCESSES_MAX: usize = 64;

/// Bytes asked or given in one call; more is EINVAL.
pub const TRANSFER_MAX: usize = 65_536;

/// Bytes of a name as a call may give it; a longer one cannot be spelled.
pub const GIVEN_NAME_MAX: usize = 255;

/// Bytes that a call may give to write; more cannot be spelled. It is above `TRANSFER_MAX`, so that EINVAL can be told.
pub const GIVEN_BYTES_MAX: usize = 65_700;

/// The greatest offset of a description, in bytes; a call that leads past it is EOVERFLOW.
pub const OFFSET_MAX: u64 = 9_223_372_036_854_775_807;

/// Bytes of a regular file; a write at this offset or past it is EFBIG.
pub const FILE_SIZE_MAX: u64 = 1_099_511_627_776;

/// Bytes of a regular file in a run whose trace is of version 1.
pub const FILE_SIZE_1: u64 = 1_048_576;

/// Bytes of a write to a pipe that go in all at once or not at all (page of write, PIPE_BUF).
pub const PIPE_BUF: usize = 512;

/// Bytes that a pipe holds at most, where a run chooses no other number.
pub const PIPE_CAPACITY_DEFAULT: u64 = 1024;

/// Bytes that a pipe holds at most in a run whose trace is of version 1.
pub const PIPE_CAPACITY_1: u64 = 1024;

/// The least capacity of pipes, in bytes, that a run may choose: a write of `PIPE_BUF` bytes fits into an empty pipe.
pub const PIPE_CAPACITY_MIN: u64 = 512;

/// The greatest capacity of pipes, in bytes, that a run may choose.
pub const PIPE_CAPACITY_MAX: u64 = 65_536;

/// Bytes of a record in a trace, at most.
pub const RECORD_LENGTH_MAX: usize = 66_048;

/// Records of one run, at most.
pub const RECORDS_MAX: u64 = 1_000_000;

/// The limits as numbers. Everything else names them by constant, so a wrong number is seen here. It does nothing.
pub fn numbers_of_the_profile()
    ensures open_max { OPEN_MAX ≡ 32 }
    ensures name_max { NAME_MAX ≡ 64 }
    ensures names_max { NAMES_MAX ≡ 1024 }
    ensures link_max { LINK_MAX ≡ 8 }
    ensures descriptions_max { DESCRIPTIONS_MAX ≡ 1024 }
    ensures processes_max { PROCESSES_MAX ≡ 64 }
    ensures transfer_max { TRANSFER_MAX ≡ 65536 }
    ensures given_name_max { GIVEN_NAME_MAX ≡ 255 }
    ensures given_bytes_max { GIVEN_BYTES_MAX ≡ 65700 }
    ensures offset_max { OFFSET_MAX ≡ 2 ^ 63 - 1 }
    ensures file_size_max { FILE_SIZE_MAX ≡ 2 ^ 40 }
    ensures file_size_1 { FILE_SIZE_1 ≡ 1048576 }
    ensures pipe_buf { PIPE_BUF ≡ 512 }
    ensures pipe_capacity_default { PIPE_CAPACITY_DEFAULT ≡ 1024 }
    ensures pipe_capacity_1 { PIPE_CAPACITY_1 ≡ 1024 }
    ensures pipe_capacity_min { PIPE_CAPACITY_MIN ≡ 512 }
    ensures pipe_capacity_max { PIPE_CAPACITY_MAX ≡ 65536 }
    ensures record_length_max { RECORD_LENGTH_MAX ≡ 66048 }
    ensures records_max { RECORDS_MAX ≡ 1000000 }
    ensures house { HOUSE ≡ 4294967295 }
{}

/// The limits that the definitions take as an argument, both in bytes: the size of a regular file, and what a pipe holds.
#[derive(Clone, Copy, Debug)]
pub struct Bounds {
    pub file_size: u64,
    pub pipe_capacity: u64,
}

impl Bounds {
    /// The limits of a run whose trace is of version 1.
    pub fn version_1() -> Self
        ensures exact { result ≡ record { file_size = FILE_SIZE_1; pipe_capacity = PIPE_CAPACITY_1 } }
        ensures plain { result ≡ record { file_size = 1048576; pipe_capacity = 1024 } }
    {
        Bounds {
            file_size: FILE_SIZE_1,
            pipe_capacity: PIPE_CAPACITY_1,
        }
    }
}

/// What a run may take: its records, from 1 to 1,000,000, and the limits of its definitions: files of 2^40 bytes, and pipes of 512 to 65,536.
#[derive(Clone, Copy, Debug)]
pub struct Limits {
    records: u64,
    bounds: Bounds,
    ghost within: { (1 ≤ records) × (records ≤ RECORDS_MAX) },
    ghost sized: { bounds.file_size ≡ FILE_SIZE_MAX },
    ghost holds: { (PIPE_CAPACITY_MIN ≤ bounds.pipe_capacity) × (bounds.pipe_capacity ≤ PIPE_CAPACITY_MAX) },
}

/// Why `Limits::new` refuses.
#[derive(Clone, Copy, Debug, PartialEq, Eq)]
pub enum LimitFault {
    /// The number of records is not from 1 to 1,000,000.
    Records,
    /// The capacity of a pipe is not from 512 to 65,536 bytes.
    PipeCapacity,
}

impl Limits {
    /// The limits of a run of so many records, in which a pipe holds so many bytes. A wrong number of records is told first.
    pub fn new(records: u64, pipe_capacity: u64) -> Result<Self, LimitFault>
        ensures accepted { IsOk result ↔ ((1 ≤ records × records ≤ RECORDS_MAX) × (PIPE_CAPACITY_MIN ≤ pipe_capacity × pipe_capacity ≤ PIPE_CAPACITY_MAX)) }
        ensures plain { IsOk result ↔ ((1 ≤ records × records ≤ 1000000) × (512 ≤ pipe_capacity × pipe_capacity ≤ 65536)) }
        ensures records_first { (result ≡ Err LimitFault.Records) ↔ ((records ≡ 0) ⊎ (RECORDS_MAX < records)) }
        ensures value { IfOk result (λ limits. (limits.records ≡ records) × (limits.bounds ≡ record { file_size = FILE_SIZE_MAX; pipe_capacity = pipe_capacity })) }
    {
        if records == 0 || records > RECORDS_MAX {
            return Err(LimitFault::Records);
        }
        if pipe_capacity < PIPE_CAPACITY_MIN || pipe_capacity > PIPE_CAPACITY_MAX {
            return Err(LimitFault::PipeCapacity);
        }
        Ok(Limits {
            records,
            bounds: Bounds {
                file_size: FILE_SIZE_MAX,
                pipe_capacity,
            },
        })
    }

    /// The most records that the run may have.
    pub fn records(self) -> u64
        ensures exact { result ≡ self.records }
        ensures within { (1 ≤ result) × (result ≤ RECORDS_MAX) }
    {
        self.records
    }

    /// The limits of the run's definitions; the size of a file is at most the greatest offset.
    pub fn bounds(self) -> Bounds
        ensures exact { result ≡ self.bounds }
        ensures small { result.file_size ≤ OFFSET_MAX }
        ensures sized { result.file_size ≡ FILE_SIZE_MAX }
        ensures holds { (PIPE_CAPACITY_MIN ≤ result.pipe_capacity) × (result.pipe_capacity ≤ PIPE_CAPACITY_MAX) }
    {
        self.bounds
    }
}

//! What the types of a value's parts say of their ranges, and whether its flags are in theirs. A function without a result does
//! nothing; its contract is the law.

ghost use Rattle.std.specs.Prelude.{◌≡◌, ◌*◌, ◌<◌, ◌≤◌, ◌^◌, ◌↔◌, true, FitsSigned, length};
ghost use Rattle.std.specs.Int.{w32, w64};
ghost use Rattle.call_types.specs.CallTable.{a_name};
ghost use Rattle.call_types.specs.Flags.{nonblocking};
ghost use Rattle.call_types.specs.Ranges.{AreBytes, FieldFits};
ghost use Rattle.call_types.specs.declared.act.Act.TheVariants as acts;
ghost use Rattle.frame_codec.specs.Requests.{CallFits};
ghost use Rattle.frame_codec.specs.Answers.{ReplyFits, OutcomeFits};
ghost use Rattle.frame_codec.specs.Records.{ActFits, FlagsFit, IsInRange};

use bitflags::Flags;
use call_types::act::{Act, Record};
use call_types::bounded::{Data, Name};
use call_types::call::Call;
use call_types::flags::OpenFlags;
use call_types::outcome::{Outcome, Reply};
use call_types::span::Span;

/// A byte is below 256.
fn byte_fits(byte: u8)
    ensures { byte < 256 }
{}

/// A number of 32 bits without a sign is below 2^32.
pub(crate) fn number_fits(number: u32)
    ensures { number < 2 ^ 32 }
{}

/// A number of 64 bits without a sign is below 2^64.
fn long_fits(number: u64)
    ensures { number < 2 ^ 64 }
{}

/// A descriptor has 32 bits and a sign.
fn descriptor_fits(fd: i32)
    ensures { FitsSigned w32 fd }
{}

/// A position has 64 bits and a sign.
fn position_fits(start: i64)
    ensures { FitsSigned w64 start }
{}

/// Each of some bytes is below 256.
fn bytes_fit(bytes: &[u8])
    ensures { AreBytes bytes.now }
{}

/// A name is short, and of bytes.
fn name_fits(name: &Name)
    ensures { FieldFits a_name name.now }
{
    bytes_fit(name.as_slice());
}

/// Data is as short as its type says, and of bytes.
fn data_fits<const MOST: usize>(given: &Data<MOST>)
    ensures bytes { AreBytes given.now }
    ensures few { length given.now ≤ MOST }
{
    match given.span() {
        Span::Slice(bytes) => bytes_fit(bytes),
        Span::Same { byte, .. } => byte_fits(byte),
    }
}

/// The fields of a call are in range, if its flags are.
pub(crate) fn call_fits(call: &Call)
    ensures { FlagsFit (acts.Call call.now) → CallFits call.now }
{
    match call {
        Call::Open { name, .. } => name_fits(name),
        Call::Close { fd } => descriptor_fits(*fd),
        Call::Read { fd, count } => {
            descriptor_fits(*fd);
            number_fits(*count);
        }
        Call::Write { fd, bytes } => {
            descriptor_fits(*fd);
            data_fits(bytes);
        }
        Call::Pread { fd, start, count } => {
            descriptor_fits(*fd);
            position_fits(*start);
            number_fits(*count);
        }
        Call::Pwrite { fd, start, bytes } => {
            descriptor_fits(*fd);
            position_fits(*start);
            data_fits(bytes);
        }
        Call::Lseek { fd, offset, .. } => {
            descriptor_fits(*fd);
            position_fits(*offset);
        }
        Call::Ftruncate { fd, len } => {
            descriptor_fits(*fd);
            position_fits(*len);
        }
        Call::Dup { fd } => descriptor_fits(*fd),
        Call::Dup2 { fd, to } => {
            descriptor_fits(*fd);
            descriptor_fits(*to);
        }
        Call::Mkfifo { name } => name_fits(name),
        Call::Link { old, new } => {
            name_fits(old);
            name_fits(new);
        }
        Call::Rename { old, new } => {
            name_fits(old);
            name_fits(new);
        }
        Call::Unlink { name } => name_fits(name),
        Call::Fstat { fd } => descriptor_fits(*fd),
        Call::Getfl { fd } => descriptor_fits(*fd),
        Call::Setfl { fd, .. } => descriptor_fits(*fd),
        Call::Pipe | Call::Fork => {}
    }
}

/// Whether flags have no bit past that of nonblock, the last one. Their type has one bit more.
fn are_flags(flags: OpenFlags) -> bool
    ensures { (result ≡ true) ↔ (flags.0 < 2 * nonblocking) }
{
    flags.bits() < 128
}

/// Whether the flags of a call are in range, if it has some.
pub(crate) fn call_flags_fit(call: &Call) -> bool
    ensures { (result ≡ true) ↔ FlagsFit (acts.Call call.now) }
{
    match call {
        Call::Open { flags, .. } => are_flags(*flags),
        Call::Setfl { flags, .. } => are_flags(*flags),
        _ => true,
    }
}

/// Whether the flags of an act are in range, if it has some.
pub(crate) fn flags_fit(act: &Act) -> bool
    ensures { (result ≡ true) ↔ FlagsFit act.now }
{
    match act {
        Act::Call(call) => call_flags_fit(call),
        _ => true,
    }
}

/// The fields of an act are in range, if its flags are.
fn act_fits(act: &Act)
    ensures { FlagsFit act.now → ActFits act.now }
{
    match act {
        Act::Call(call) => call_fits(call),
        _ => {}
    }
}

/// The fields of a reply are in range.
fn reply_fits(reply: &Reply)
    ensures { ReplyFits reply.now }
{
    match reply {
        Reply::Number(number) => long_fits(*number),
        Reply::Data(bytes) => data_fits(bytes),
        Reply::Pair(first, second) => {
            number_fits(*first);
            number_fits(*second);
        }
        Reply::Stat(stat) => {
            long_fits(stat.size);
            number_fits(stat.links);
        }
        _ => {}
    }
}

/// The fields of an outcome are in range.
fn outcome_fits(outcome: &Outcome)
    ensures { OutcomeFits outcome.now }
{
    match outcome {
        Outcome::Reply(reply) => reply_fits(reply),
        Outcome::Parked { moved } => number_fits(*moved),
        Outcome::Part { moved } => number_fits(*moved),
    }
}

/// Each field of a record is in the range that a frame has for it, if its flags are. Their type has one bit more than there
/// are flags; no call that was read from a frame or from a line has that bit.
pub fn record_is_in_range(record: &Record)
    ensures { FlagsFit «record».now.act → IsInRange «record».now }
{
    number_fits(record.actor);
    act_fits(&record.act);
    outcome_fits(&record.outcome);
}

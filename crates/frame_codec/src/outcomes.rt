//! What a record says of its act, and why nothing was recorded, read from the payload of an answer.

ghost use Rattle.std.specs.Prelude.{◌≡◌};
ghost use Rattle.std.specs.Int.{w32, w64};
ghost use Rattle.call_types.specs.declared.limits.TheConstants.{TRANSFER_MAX};
ghost use Rattle.call_types.specs.declared.outcome.Outcome.TheVariants as outcomes;
ghost use Rattle.frame_codec.specs.Proved.Reading.{Gives, as_at, two_at, number_at, byte_at, counted_at};
ghost use Rattle.frame_codec.specs.Proved.ReadingAnswers.{error_of, kind_of, number_of, data_of, pair_of, stat_of, refused_by, foreign_of, outcome_at, refusal_at};

use crate::fault::PayloadFault;
use crate::fields::{data, number32, number64};
use call_types::errno::Errno;
use call_types::outcome::{FileType, Outcome, Reply, Stat};
use call_types::refusal::Refusal;
use std::alloc::Global;

/// A number.
fn number(bytes: &[u8]) -> Result<(Outcome, &[u8]), PayloadFault>
    ensures { Gives (λ x. (x.0, x.1.now)) result (as_at (number_at w64) number_of bytes.now) }
{
    let (number, rest) = number64(bytes)?;
    Ok((Outcome::Reply(Reply::Number(number)), rest))
}

/// What was read.
fn content(alloc: Global, bytes: &[u8]) -> Result<(Outcome, &[u8]), PayloadFault>
    ensures { Gives (λ x. (x.0, x.1.now)) result (as_at (counted_at TRANSFER_MAX) data_of bytes.now) }
{
    let (content, rest) = data(alloc, bytes)?;
    Ok((Outcome::Reply(Reply::Data(content)), rest))
}

/// Two descriptors.
fn pair(bytes: &[u8]) -> Result<(Outcome, &[u8]), PayloadFault>
    ensures { Gives (λ x. (x.0, x.1.now)) result (as_at (two_at (number_at w32) (number_at w32)) pair_of bytes.now) }
{
    let (first, rest) = number32(bytes)?;
    let (second, rest) = number32(rest)?;
    Ok((Outcome::Reply(Reply::Pair(first, second)), rest))
}

/// A kind of file.
fn kind(bytes: &[u8]) -> Result<(FileType, &[u8]), PayloadFault>
    ensures { Gives (λ x. (x.0, x.1.now)) result (byte_at kind_of bytes.now) }
{
    match bytes {
        [0, rest @ ..] => Ok((FileType::Regular, rest)),
        [1, rest @ ..] => Ok((FileType::Fifo, rest)),
        [2, rest @ ..] => Ok((FileType::Pipe, rest)),
        _ => Err(PayloadFault::Malformed),
    }
}

/// What fstat tells.
fn stat(bytes: &[u8]) -> Result<(Outcome, &[u8]), PayloadFault>
    ensures { Gives (λ x. (x.0, x.1.now)) result (as_at (two_at (byte_at kind_of) (two_at (number_at w64) (number_at w32))) stat_of bytes.now) }
{
    let (kind, rest) = kind(bytes)?;
    let (size, rest) = number64(rest)?;
    let (links, rest) = number32(rest)?;
    Ok((
        Outcome::Reply(Reply::Stat(Stat { kind, size, links })),
        rest,
    ))
}

/// The error of a number.
fn numbered_error(number: u8) -> Option<Errno>
    ensures { result ≡ error_of number }
{
    match number {
        1 => Some(Errno::EBADF),
        2 => Some(Errno::EINVAL),
        3 => Some(Errno::ESPIPE),
        4 => Some(Errno::EFBIG),
        5 => Some(Errno::EOVERFLOW),
        6 => Some(Errno::ENOENT),
        7 => Some(Errno::EEXIST),
        8 => Some(Errno::EMLINK),
        9 => Some(Errno::ENAMETOOLONG),
        10 => Some(Errno::EMFILE),
        11 => Some(Errno::ENFILE),
        12 => Some(Errno::ENOSPC),
        13 => Some(Errno::EAGAIN),
        14 => Some(Errno::EPIPE),
        15 => Some(Errno::ENXIO),
        16 => Some(Errno::ESRCH),
        _ => None,
    }
}

/// An error.
fn error(bytes: &[u8]) -> Result<(Outcome, &[u8]), PayloadFault>
    ensures { Gives (λ x. (x.0, x.1.now)) result (as_at (byte_at error_of) refused_by bytes.now) }
{
    match bytes {
        [] => Err(PayloadFault::Malformed),
        [number, rest @ ..] => match numbered_error(*number) {
            None => Err(PayloadFault::Malformed),
            Some(errno) => Ok((Outcome::Reply(Reply::Error(errno)), rest)),
        },
    }
}

/// How many bytes a call that waits moved at once.
fn parked(bytes: &[u8]) -> Result<(Outcome, &[u8]), PayloadFault>
    ensures { Gives (λ x. (x.0, x.1.now)) result (as_at (number_at w32) outcomes.Parked bytes.now) }
{
    let (moved, rest) = number32(bytes)?;
    Ok((Outcome::Parked { moved }, rest))
}

/// How many bytes a call that goes on waiting has moved.
fn part(bytes: &[u8]) -> Result<(Outcome, &[u8]), PayloadFault>
    ensures { Gives (λ x. (x.0, x.1.now)) result (as_at (number_at w32) outcomes.Part bytes.now) }
{
    let (moved, rest) = number32(bytes)?;
    Ok((Outcome::Part { moved }, rest))
}

/// The outcome at the front.
#[tactic(auto, unfolding(crate::specs::Proved::ReadingAnswers::outcome_at))]
pub(crate) fn outcome(alloc: Global, bytes: &[u8]) -> Result<(Outcome, &[u8]), PayloadFault>
    ensures { Gives (λ x. (x.0, x.1.now)) result (outcome_at bytes.now) }
{
    match bytes {
        [1, rest @ ..] => Ok((Outcome::Reply(Reply::Done), rest)),
        [2, rest @ ..] => number(rest),
        [3, rest @ ..] => content(alloc, rest),
        [4, rest @ ..] => pair(rest),
        [5, rest @ ..] => stat(rest),
        [6, rest @ ..] => error(rest),
        [7, rest @ ..] => parked(rest),
        [8, rest @ ..] => part(rest),
        _ => Err(PayloadFault::Malformed),
    }
}

/// How many records a seat has seen, and how many there are.
fn foreign(bytes: &[u8]) -> Result<(Refusal, &[u8]), PayloadFault>
    ensures { Gives (λ x. (x.0, x.1.now)) result (as_at (two_at (number_at w64) (number_at w64)) foreign_of bytes.now) }
{
    let (seen, rest) = number64(bytes)?;
    let (len, rest) = number64(rest)?;
    Ok((Refusal::Foreign { seen, len }, rest))
}

/// The refusal at the front.
#[tactic(auto, unfolding(crate::specs::Proved::ReadingAnswers::refusal_at))]
pub(crate) fn refusal(bytes: &[u8]) -> Result<(Refusal, &[u8]), PayloadFault>
    ensures { Gives (λ x. (x.0, x.1.now)) result (refusal_at bytes.now) }
{
    match bytes {
        [17, rest @ ..] => Ok((Refusal::NoMemory, rest)),
        [18, rest @ ..] => Ok((Refusal::RunFull, rest)),
        [19, rest @ ..] => Ok((Refusal::Waiting, rest)),
        [20, rest @ ..] => Ok((Refusal::NotHere, rest)),
        [21, rest @ ..] => foreign(rest),
        _ => Err(PayloadFault::Malformed),
    }
}

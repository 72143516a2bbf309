//! A stream that is read piece by piece, as often as it may be.

ghost use Rattle.std.specs.Prelude.{◌≡◌, ◌+◌, ◌*◌, ◌<◌, ◌≤◌, [], length};
ghost use Rattle.logged_streams.specs.Reading.{MayTake, Reads, taken_max};
ghost use Rattle.logged_streams.specs.Proved.Pieces.{HasRead, ReadsPiece};

use crate::reader::LoggedReader;
use crate::stream_log::{Gave, INTERRUPTIONS_MAX};
use std::io::Read;

/// What takes the pieces of a stream, one after another, and may write to an output meanwhile.
pub trait Takes<O> {
    ghost use Rattle.std.specs.Prelude.{ℕ, List, length};
    ghost use Rattle.logged_streams.specs.Reading.{MayTake, TakesPiece};

    /// What is told where no more is taken.
    type Told;

    /// These bytes were taken since taker and output were so, and more may be.
    ghost has_taken: { Self → O → Self → O → List ℕ → Type 0 };

    /// These bytes were taken since taker and output were so, and this was told of them.
    ghost has_told: { Self → O → Self → O → List ℕ → Self.Told → Type 0 };

    /// Takes a piece, of any length. Where something is told no more may be taken.
    fn take(&mut self, out: &mut O, piece: &[u8]) -> Option<Self::Told>
        requires { MayTake has_taken self.old out.old (length piece.now) }
        ensures { TakesPiece has_taken has_told piece.now self.old out.old self.new out.new result };
}

/// Why no more is read of a stream.
pub enum ReadEnd<T> {
    /// The reader is at its end.
    AtEnd,
    /// The reader failed, was interrupted sixteen times in a row, or was read as often as it may be.
    CannotRead,
    /// What takes the pieces told this.
    Told(T),
}

/// Reads once more, and has taken what that gives: why no more is read, if that is so.
fn read_piece<R: Read, O, T: Takes<O>>(
    reader: &mut LoggedReader<R>,
    taker: &mut T,
    out: &mut O,
    buffer: &mut [u8],
) -> Option<ReadEnd<T::Told>>
    requires room { 0 < length buffer.old }
    requires few { reader.old.log.interruptions < INTERRUPTIONS_MAX }
    requires may { MayTake T.has_taken taker.old out.old (length buffer.old) }
    ensures reads { ReadsPiece T.has_taken T.has_told (length buffer.old) reader.old reader.new taker.old out.old taker.new out.new result }
    ensures long { length buffer.new ≡ length buffer.old }
{
    match reader.read(buffer) {
        Gave::Bytes(count) => {
            let (piece, _) = buffer.split_at(count);
            match taker.take(out, piece) {
                Some(told) => Some(ReadEnd::Told(told)),
                None => None,
            }
        }
        Gave::Nothing => Some(ReadEnd::AtEnd),
        Gave::Interrupted => {
            if reader.log().interruptions() < INTERRUPTIONS_MAX {
                None
            } else {
                Some(ReadEnd::CannotRead)
            }
        }
        Gave::Failed => Some(ReadEnd::CannotRead),
    }
}

/// Reads a stream that may be read, so often at the most, until its end, until it cannot be read, or until no more is taken.
fn read_often<R: Read, O, T: Takes<O>>(
    reader: &mut LoggedReader<R>,
    taker: &mut T,
    out: &mut O,
    buffer: &mut [u8],
    most: u32,
) -> ReadEnd<T::Told>
    requires room { 0 < length buffer.old }
    requires short { most * length buffer.old ≤ taken_max }
    requires begun { T.has_taken taker.old out.old taker.old out.old [] }
    requires may { reader.old.log.interruptions < INTERRUPTIONS_MAX }
    ensures few { reader.new.log.calls ≤ reader.old.log.calls + most }
    ensures reads { Reads T.has_taken T.has_told most reader.old reader.new taker.old out.old taker.new out.new result }
{
    for _turn in 0..most {
        match read_piece(reader, taker, out, buffer) {
            Some(end) => return end,
            None => {}
        }
    }
    ReadEnd::CannotRead
}

/// Reads a stream so often at the most, until its end, until it cannot be read, or until no more is taken. One that has failed, or was
/// interrupted sixteen times in a row, is not read again.
pub fn read_all<R: Read, O, T: Takes<O>>(
    reader: &mut LoggedReader<R>,
    taker: &mut T,
    out: &mut O,
    buffer: &mut [u8],
    most: u32,
) -> ReadEnd<T::Told>
    requires room { 0 < length buffer.old }
    requires short { most * length buffer.old ≤ taken_max }
    requires begun { T.has_taken taker.old out.old taker.old out.old [] }
    ensures few { reader.new.log.calls ≤ reader.old.log.calls + most }
    ensures few_interrupted { reader.new.log.interruptions ≤ INTERRUPTIONS_MAX }
    ensures reads { Reads T.has_taken T.has_told most reader.old reader.new taker.old out.old taker.new out.new result }
{
    let interruptions = reader.log().interruptions();
    if reader.log().has_failed() || interruptions >= INTERRUPTIONS_MAX {
        return ReadEnd::CannotRead;
    }
    let end = read_often(reader, taker, out, buffer, most);
    let _few = reader.log().interruptions();
    end
}

//! Whether two values are the same: the same call, the same outcome, the same record. Of bytes only the list counts, not how they are
//! kept.

ghost use Rattle.std.specs.Prelude.{◌≡◌, ◌↔◌, true, replicate};
ghost use Rattle.call_types.specs.Stored.{span_bytes};

use crate::act::{Act, Record};
use crate::bounded::{Data, Name};
use crate::outcome::{Outcome, Reply};
use crate::span::Span;

/// Whether bytes are one byte that stands so many times.
fn is_repeated(bytes: &[u8], byte: u8, count: usize) -> bool
    ensures { (result ≡ true) ↔ (bytes.now ≡ replicate count byte) }
{
    bytes.len() == count && bytes.iter().all(|other| *other == byte)
}

impl<'a> Span<'a> {
    /// Whether these are the same bytes as others.
    pub fn is_same(self, other: Span<'_>) -> bool
        ensures { (result ≡ true) ↔ (span_bytes self.entry ≡ span_bytes other.entry) }
    {
        match (self, other) {
            (Span::Slice(bytes), Span::Slice(others)) => bytes == others,
            (Span::Slice(bytes), Span::Same { byte, count }) => is_repeated(bytes, byte, count),
            (Span::Same { byte, count }, Span::Slice(bytes)) => is_repeated(bytes, byte, count),
            (
                Span::Same { byte, count },
                Span::Same {
                    byte: other_byte,
                    count: other_count,
                },
            ) => count == other_count && (count == 0 || byte == other_byte),
        }
    }
}

impl Name {
    /// Whether this is the same name as another.
    pub fn is_same(&self, other: &Name) -> bool
        ensures { (result ≡ true) ↔ (self.now ≡ other.now) }
    {
        self.as_slice() == other.as_slice()
    }
}

impl<const MOST: usize> Data<MOST> {
    /// Whether these are the same bytes as others.
    pub fn is_same(&self, other: &Data<MOST>) -> bool
        ensures { (result ≡ true) ↔ (self.now ≡ other.now) }
    {
        self.span().is_same(other.span())
    }
}

impl Act {
    /// Whether this is the same act as another.
    pub fn is_same(&self, other: &Act) -> bool
        ensures { (result ≡ true) ↔ (self.now ≡ other.now) }
    {
        match (self, other) {
            (Act::Call(call), Act::Call(other)) => call.is_same(other),
            (Act::Join, Act::Join)
            | (Act::Attach, Act::Attach)
            | (Act::Resume, Act::Resume)
            | (Act::Exit, Act::Exit)
            | (Act::CloseRun, Act::CloseRun) => true,
            _ => false,
        }
    }
}

impl Reply {
    /// Whether this is the same answer as another.
    pub fn is_same(&self, other: &Reply) -> bool
        ensures { (result ≡ true) ↔ (self.now ≡ other.now) }
    {
        match (self, other) {
            (Reply::Done, Reply::Done) => true,
            (Reply::Number(number), Reply::Number(other)) => *number == *other,
            (Reply::Data(bytes), Reply::Data(others)) => bytes.is_same(others),
            (Reply::Pair(a, s), Reply::Pair(b, t)) => *a == *b && *s == *t,
            (Reply::Stat(stat), Reply::Stat(other)) => *stat == *other,
            (Reply::Error(error), Reply::Error(other)) => *error == *other,
            _ => false,
        }
    }
}

impl Outcome {
    /// Whether this is the same outcome as another.
    pub fn is_same(&self, other: &Outcome) -> bool
        ensures { (result ≡ true) ↔ (self.now ≡ other.now) }
    {
        match (self, other) {
            (Outcome::Reply(reply), Outcome::Reply(other)) => reply.is_same(other),
            (Outcome::Parked { moved: a }, Outcome::Parked { moved: b }) => *a == *b,
            (Outcome::Part { moved: a }, Outcome::Part { moved: b }) => *a == *b,
            _ => false,
        }
    }
}

impl Record {
    /// Whether this is the same record as another.
    pub fn is_same(&self, other: &Record) -> bool
        ensures { (result ≡ true) ↔ (self.now ≡ other.now) }
    {
        self.actor == other.actor
            && self.act.is_same(&other.act)
            && self.outcome.is_same(&other.outcome)
    }
}

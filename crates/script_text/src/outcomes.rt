//! What came of an act, written in a line.

ghost use Rattle.std.specs.Prelude.{◌≡◌, ◌≤◌, ◌++◌, codes, decimal, length, Some, ◌<◌, ◌^◌};
ghost use Rattle.script_text.specs.Answers.{answer_text};
ghost use Rattle.script_text.specs.Lines.{kind_word, error_word, stat_text, reply_text, outcome_text};
ghost use Rattle.script_text.specs.Proved.Room.{HasRoom, UsesRoom, outcome_room};

use crate::payload::{put_data, room_of_data};
use crate::put::{put, put_number};
use call_types::errno::Errno;
use call_types::outcome::{FileType, Outcome, Reply, Stat};

/// Bytes of an outcome that tells no data, at most.
pub(crate) const OUTCOME_ROOM: usize = 64;

/// How a kind of file is written.
fn kind_text(kind: FileType) -> &'static [u8]
    ensures text { result.now ≡ kind_word kind }
    ensures short { length result.now ≤ 7 }
{
    match kind {
        FileType::Regular => b"regular",
        FileType::Fifo => b"fifo",
        FileType::Pipe => b"pipe",
    }
}

/// How an error is written.
pub(crate) fn error_text(errno: Errno) -> &'static [u8]
    ensures text { result.now ≡ error_word errno }
    ensures short { length result.now ≤ 12 }
{
    match errno {
        Errno::EBADF => b"EBADF",
        Errno::EINVAL => b"EINVAL",
        Errno::ESPIPE => b"ESPIPE",
        Errno::EFBIG => b"EFBIG",
        Errno::EOVERFLOW => b"EOVERFLOW",
        Errno::ENOENT => b"ENOENT",
        Errno::EEXIST => b"EEXIST",
        Errno::EMLINK => b"EMLINK",
        Errno::ENAMETOOLONG => b"ENAMETOOLONG",
        Errno::EMFILE => b"EMFILE",
        Errno::ENFILE => b"ENFILE",
        Errno::ENOSPC => b"ENOSPC",
        Errno::EAGAIN => b"EAGAIN",
        Errno::EPIPE => b"EPIPE",
        Errno::ENXIO => b"ENXIO",
        Errno::ESRCH => b"ESRCH",
    }
}

/// `KIND SIZE LINKS`
fn put_stat(out: &mut Vec<u8>, stat: Stat)
    requires { HasRoom out.old OUTCOME_ROOM }
    ensures text { out.new.items ≡ out.old.items ++ (stat_text stat) }
    ensures room { UsesRoom out.old out.new OUTCOME_ROOM }
{
    put(out, kind_text(stat.kind));
    out.push_reserved(b' ');
    put_number(out, stat.size);
    out.push_reserved(b' ');
    put_number(out, stat.links as u64);
}

/// Two numbers.
fn put_pair(out: &mut Vec<u8>, first: u32, second: u32)
    requires { HasRoom out.old OUTCOME_ROOM }
    ensures text { out.new.items ≡ out.old.items ++ (decimal first ++ codes " " ++ decimal second) }
    ensures room { UsesRoom out.old out.new OUTCOME_ROOM }
{
    put_number(out, first as u64);
    out.push_reserved(b' ');
    put_number(out, second as u64);
}

/// `error NAME`
fn put_error(out: &mut Vec<u8>, errno: Errno)
    requires { HasRoom out.old OUTCOME_ROOM }
    ensures text { out.new.items ≡ out.old.items ++ (codes "error " ++ error_word errno) }
    ensures room { UsesRoom out.old out.new OUTCOME_ROOM }
{
    put(out, b"error ");
    put(out, error_text(errno));
}

/// Appends a reply.
fn put_reply(out: &mut Vec<u8>, reply: &Reply)
    requires { HasRoom out.old (outcome_room (Outcome.Reply reply.now)) }
    ensures text { out.new.items ≡ out.old.items ++ (reply_text reply.now) }
    ensures room { UsesRoom out.old out.new (outcome_room (Outcome.Reply reply.now)) }
{
    match reply {
        Reply::Done => put(out, b"ok"),
        Reply::Number(number) => put_number(out, *number),
        Reply::Data(bytes) => put_data(out, bytes.span()),
        Reply::Pair(first, second) => put_pair(out, *first, *second),
        Reply::Stat(stat) => put_stat(out, *stat),
        Reply::Error(errno) => put_error(out, *errno),
    }
}

/// A word and a count of bytes.
fn put_moved(out: &mut Vec<u8>, word: &[u8], moved: u32)
    requires short { length word.now ≤ 7 }
    requires room { HasRoom out.old OUTCOME_ROOM }
    ensures text { out.new.items ≡ out.old.items ++ (word.now ++ decimal moved) }
    ensures room { UsesRoom out.old out.new OUTCOME_ROOM }
{
    put(out, word);
    put_number(out, moved as u64);
}

/// Room in which an outcome can be written.
#[inline(always)]
pub(crate) fn room_of_outcome(outcome: &Outcome) -> usize
    ensures enough { outcome_room outcome.now ≤ result }
    ensures small { result < 2 ^ 32 }
{
    match outcome {
        Outcome::Reply(Reply::Data(bytes)) => room_of_data(bytes.span()),
        _ => OUTCOME_ROOM,
    }
}

/// Appends an outcome.
#[inline(always)]
pub(crate) fn put_outcome(out: &mut Vec<u8>, outcome: &Outcome)
    requires { HasRoom out.old (outcome_room outcome.now) }
    ensures text { out.new.items ≡ out.old.items ++ (outcome_text outcome.now) }
    ensures room { UsesRoom out.old out.new (outcome_room outcome.now) }
{
    match outcome {
        Outcome::Reply(reply) => put_reply(out, reply),
        Outcome::Parked { moved } => put_moved(out, b"parked ", *moved),
        Outcome::Part { moved } => put_moved(out, b"part ", *moved),
    }
}

/// Appends the answer of a call that was made, by its last outcome.
pub(crate) fn put_answer(out: &mut Vec<u8>, outcome: &Outcome)
    requires { HasRoom out.old (outcome_room outcome.now) }
    ensures { out.new.items ≡ out.old.items ++ answer_text (Some outcome.now) }
{
    match outcome {
        Outcome::Reply(reply) => put_reply(out, reply),
        Outcome::Parked { moved } | Outcome::Part { moved } => put_moved(out, b"waits ", *moved),
    }
}

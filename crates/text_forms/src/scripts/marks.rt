//! Places in a line: where words begin, comments, and the data of a call.

ghost use Rattle.std.specs.Prelude.{◌≡◌, ◌≤◌, ◌<◌, ◌-◌, true, length, IfSome};
ghost use Rattle.std.specs.Option.{option_copied};
ghost use Rattle.text_forms.specs.Scripts.{begins_with, is_at, from_first, after_word, opens_data, after_call, data_part, trimmed, uncommented};

use crate::scripts::Lines;
use crate::scripts::words::is_text_word;

/// What is looked for where a word begins.
#[derive(Clone, Copy)]
pub(crate) enum Sought {
    /// A comment.
    Comment,
    /// A comment or a quote.
    AnyMark,
    /// A word that a string can spell.
    TextWord,
}

/// Whether this byte stands here.
pub(crate) fn begins_with(mark: u8, left: &[u8]) -> bool
    ensures { result ≡ begins_with mark left.now }
{
    match left {
        [first, ..] => *first == mark,
        [] => false,
    }
}

/// Whether what is sought stands here.
fn is_at(what: Sought, left: &[u8]) -> bool
    ensures { result ≡ is_at what left.now }
{
    match what {
        Sought::Comment => begins_with(b'#', left),
        Sought::AnyMark => begins_with(b'#', left) || begins_with(b'"', left),
        Sought::TextWord => is_text_word(left),
    }
}

/// What stands from the first place on at which a word begins and which is sought. A word begins in front.
pub(crate) fn from_first(what: Sought, bytes: &[u8]) -> Option<&[u8]>
    ensures value { option_copied result ≡ from_first what true bytes.now }
    ensures within { IfSome result (λ left. length left.now ≤ length bytes.now) }
    ensures filled { IfSome result (λ left. 0 < length left.now) }
{
    let mut left = bytes;
    let mut begins = true;
    while let Some((first, rest)) = left.split_first() {
        if begins && is_at(what, left) {
            return Some(left);
        }
        begins = *first == b' ';
        left = rest;
    }
    None
}

/// What stands after the first space.
fn after_word(bytes: &[u8]) -> Option<&[u8]>
    ensures value { option_copied result ≡ after_word bytes.now }
    ensures within { IfSome result (λ left. length left.now ≤ length bytes.now) }
{
    let mut left = bytes;
    while let Some((first, rest)) = left.split_first() {
        if *first == b' ' {
            return Some(rest);
        }
        left = rest;
    }
    None
}

/// Whether the word of a call that gives or takes data, or of its resume, stands here, and a space after it.
fn opens_data(left: &[u8]) -> bool
    ensures { result ≡ opens_data left.now }
{
    left.starts_with(b"write ")
        || left.starts_with(b"pwrite ")
        || left.starts_with(b"read ")
        || left.starts_with(b"pread ")
        || left.starts_with(b"resume ")
}

/// What stands after such a word.
fn after_call(left: &[u8]) -> Option<&[u8]>
    ensures value { option_copied result ≡ after_call left.now }
    ensures within { IfSome result (λ rest. length rest.now ≤ length left.now) }
{
    if opens_data(left) {
        after_word(left)
    } else {
        None
    }
}

/// What stands after such a word, where a line has it in the place of its call.
pub(crate) fn data_part(kind: Lines, line: &[u8]) -> Option<&[u8]>
    ensures value { option_copied result ≡ data_part kind line.now }
    ensures within { IfSome result (λ left. length left.now ≤ length line.now) }
{
    let second = after_word(line)?;
    match kind {
        Lines::Acts => after_call(second),
        Lines::Records => after_call(after_word(second)?),
    }
}

/// The bytes without the spaces at their end.
fn trimmed(bytes: &[u8]) -> &[u8]
    ensures { result.now ≡ trimmed bytes.now }
{
    let mut end = bytes.len();
    while end > 0 && bytes[end - 1] == b' ' {
        end -= 1;
    }
    &bytes[..end]
}

/// A line without its comment, and without the spaces before it.
pub(crate) fn uncommented(line: &[u8]) -> &[u8]
    ensures { result.now ≡ uncommented line.now }
{
    match from_first(Sought::Comment, line) {
        None => line,
        Some(comment) => trimmed(&line[..line.len() - comment.len()]),
    }
}

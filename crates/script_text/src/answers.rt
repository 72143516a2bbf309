//! The answers of calls that race: written, and read where one is asked for.

ghost use Rattle.std.specs.Prelude.{◌≡◌, ◌&&◌, bytes_eq, IfOk, Some, option_copied, option_map};
ghost use Rattle.call_types.specs.Writing.{Appends};
ghost use Rattle.script_text.specs.Answers.{answer_text, names_error, is_number, names_kind, are_numbers, is_long_answer, stands_as_it_is, short_answer, answer_of_words, asked_of};
ghost use Rattle.script_text.specs.Lines.{data_word, error_word};
ghost use Rattle.script_text.specs.Reading.{cut, space};
ghost use Rattle.script_text.specs.ReadingData.{data_of};

use crate::cutting::cut_at;
use crate::number::{number_value, wide_number_value};
use crate::outcomes::{error_text, put_answer, room_of_outcome};
use crate::payload::{data_value, put_data, room_of_data};
use crate::put::put;
use crate::row::Row;
use call_types::bounded::Payload;
use call_types::errno::Errno;
use call_types::outcome::Outcome;
use std::alloc::{AllocError, Global};

/// Appends the answer of a call by its last outcome: its reply, or `waits N` where it never came back after N bytes; `-` where the
/// call was never made.
pub fn write_answer(out: &mut Vec<u8>, outcome: Option<&Outcome>) -> Result<(), AllocError>
    // The answer stands after the old bytes; where memory runs out these are still the front.
    ensures { Appends result out.old.items out.new.items (answer_text (option_copied outcome.entry)) }
{
    match outcome {
        None => {
            out.reserve(1)?;
            put(out, b"-");
        }
        Some(outcome) => {
            out.reserve(room_of_outcome(outcome))?;
            put_answer(out, outcome);
        }
    }
    Ok(())
}

/// Whether a word is the name of an error.
fn is_error(errno: Errno, word: &[u8]) -> bool
    ensures { result ≡ bytes_eq (error_word errno) word.now }
{
    error_text(errno) == word
}

/// Whether a word names an error.
fn names_error(word: &[u8]) -> bool
    ensures { result ≡ names_error word.now }
{
    let errors = [
        Errno::EBADF,
        Errno::EINVAL,
        Errno::ESPIPE,
        Errno::EFBIG,
        Errno::EOVERFLOW,
        Errno::ENOENT,
        Errno::EEXIST,
        Errno::EMLINK,
        Errno::ENAMETOOLONG,
        Errno::EMFILE,
        Errno::ENFILE,
        Errno::ENOSPC,
        Errno::EAGAIN,
        Errno::EPIPE,
        Errno::ENXIO,
        Errno::ESRCH,
    ];
    errors.iter().any(|errno| is_error(*errno, word))
}

/// Whether a word is a number of 64 bits, as it is written.
fn is_number(word: &[u8]) -> bool
    ensures { result ≡ is_number word.now }
{
    wide_number_value(u64::MAX, word).is_some()
}

/// Whether a word names what a file is.
fn names_kind(word: &[u8]) -> bool
    ensures { result ≡ names_kind word.now }
{
    if word == b"regular".as_slice() {
        return true;
    }
    if word == b"fifo".as_slice() {
        return true;
    }
    word == b"pipe".as_slice()
}

/// Whether two words are numbers.
fn both_numbers(first: &[u8], second: &[u8]) -> bool
    ensures { result ≡ (is_number first.now && is_number second.now) }
{
    is_number(first) && is_number(second)
}

/// Whether a text is two numbers, with a space between them.
fn are_numbers(text: &[u8]) -> bool
    ensures { result ≡ are_numbers (Some text.now) }
{
    let (first, after) = cut_at(b' ', text);
    match after {
        None => false,
        Some(second) => both_numbers(first, second),
    }
}

/// Whether a word, a space and what is left after it are an answer.
fn is_long_answer(word: &[u8], rest: &[u8]) -> bool
    ensures { result ≡ is_long_answer word.now rest.now }
{
    if word == b"waits".as_slice() {
        return number_value(u32::MAX, rest).is_some();
    }
    if word == b"error".as_slice() {
        return names_error(rest);
    }
    if names_kind(word) {
        return are_numbers(rest);
    }
    both_numbers(word, rest)
}

/// A copy of a text.
fn copied(alloc: Global, text: &[u8]) -> Result<Row<u8>, AllocError>
    ensures { IfOk result (λ copy. copy ≡ text.now) }
{
    Ok(Row::of(Vec::from_slice(alloc, text)?))
}

/// The word of data, as it is written in an answer.
fn written(alloc: Global, bytes: &Payload) -> Result<Row<u8>, AllocError>
    ensures { IfOk result (λ word. word ≡ data_word bytes.now) }
{
    let mut out = Vec::with_capacity(alloc, room_of_data(bytes.span()))?;
    put_data(&mut out, bytes.span());
    Ok(Row::of(out))
}

/// The data that a word asks for, as it is written in an answer; `None` where the word is no data.
fn data_answer(alloc: Global, word: &[u8]) -> Result<Option<Row<u8>>, AllocError>
    ensures { IfOk result (λ answer. answer ≡ option_map data_word (data_of word.now)) }
{
    match data_value(alloc, word)? {
        None => Ok(None),
        Some(bytes) => Ok(Some(written(alloc, &bytes)?)),
    }
}

/// Whether a word stands as it is for the answer that it asks for.
fn stands_as_it_is(word: &[u8]) -> bool
    ensures { result ≡ stands_as_it_is word.now }
{
    if word == b"-".as_slice() {
        return true;
    }
    if word == b"ok".as_slice() {
        return true;
    }
    is_number(word)
}

/// The text of the answer that one word asks for; `None` where the word is no answer.
fn short_answer(alloc: Global, word: &[u8]) -> Result<Option<Row<u8>>, AllocError>
    ensures { IfOk result (λ answer. answer ≡ short_answer word.now) }
{
    if stands_as_it_is(word) {
        return Ok(Some(copied(alloc, word)?));
    }
    data_answer(alloc, word)
}

/// The text of the answer that a text asks for; `None` where the text is no answer.
#[tactic(auto, using(crate::proofs::AnswerLaws::whole))]
fn answer_of(alloc: Global, text: &[u8]) -> Result<Option<Row<u8>>, AllocError>
    ensures { IfOk result (λ answer. answer ≡ answer_of_words (cut space text.now).0 (cut space text.now).1) }
{
    let (word, after) = cut_at(b' ', text);
    match after {
        None => short_answer(alloc, word),
        Some(rest) if is_long_answer(word, rest) => Ok(Some(copied(alloc, text)?)),
        Some(_) => Ok(None),
    }
}

/// What a text asks for that stands behind a call: the text of an answer, or by a `?` nothing; `None` where it is no answer. Data may
/// be spelled in either way, and is asked for as it is written in answers. An error says that memory ran out.
pub fn read_asked(alloc: Global, text: &[u8]) -> Result<Option<Option<Row<u8>>>, AllocError>
    ensures { IfOk result (λ asked. asked ≡ asked_of text.now) }
{
    if text == b"?".as_slice() {
        return Ok(Some(None));
    }
    match answer_of(alloc, text)? {
        None => Ok(None),
        Some(answer) => Ok(Some(Some(answer))),
    }
}

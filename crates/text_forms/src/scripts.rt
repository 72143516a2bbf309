//! Scripts for people. A line may end in a comment, and may have a string in place of the digits of data. The plain script that it stands
//! for has neither. Plain lines can be shown with strings.

ghost use Rattle.std.specs.Prelude.{true, ◌≡◌, ◌≤◌, ◌<◌, ◌+◌, ◌-◌, ◌*◌, ◌++◌, ◌==◌, length, IfOk, IfSome, OnOk, slice_index_or, List, [], ◌∷◌, ℕ};
ghost use Rattle.std.specs.Option.{option_map, option_copied};
ghost use Rattle.std.specs.List.{slice_split, slice_get, position};
ghost use Rattle.text_forms.specs.Scripts.{plain_line, plain_script, after_string, line_column, source_column, then_from, data_part, from_first, strung_line, strung, unhashed, without_string, is_feed, no_marks};
ghost use Rattle.text_forms.specs.Proved.Scripts.{first_line};

use crate::scripts::marks::{Sought, data_part, from_first, uncommented};
use crate::scripts::strings::{put_inside, skip_inside, string_in};
use crate::scripts::words::put_paired;
use std::alloc::{AllocError, Global};

mod marks;
mod strings;
mod words;

/// What the lines of a text are.
#[derive(Clone, Copy)]
pub enum Lines {
    /// Acts, as `p0 write 1 x61`.
    Acts,
    /// Records, as `3 p0 write 1 x61 = 1`.
    Records,
}

/// The index of the first LF.
fn first_feed(text: &[u8]) -> Option<usize>
    ensures value { result ≡ position is_feed text.now }
    ensures within { IfSome result (λ i. i < length text.now) }
{
    text.iter().position(|byte| *byte == b'\n')
}

/// The first line of a text, and what stands after it; `None` where no LF ends it.
fn first_line(text: &[u8]) -> Option<(&[u8], &[u8])>
    ensures value { option_map (λ x. (x.0.now, x.1.now)) result ≡ first_line text.now }
    ensures shorter { IfSome result (λ x. length x.1.now < length text.now) }
{
    let end = first_feed(text)?;
    Some((&text[..end], &text[end + 1..]))
}

/// What stands after a string in its line, without its comment.
fn after_string(string: &[u8]) -> &[u8]
    ensures { result.now ≡ after_string string.now }
{
    match skip_inside(string).1 {
        [_, rest @ ..] => uncommented(rest),
        [] => uncommented(b""),
    }
}

/// Appends the plain line that a line stands for.
fn put_plain_line(out: &mut Vec<u8>, line: &[u8]) -> Result<(), AllocError>
    ensures { OnOk result (out.new.items ≡ out.old.items ++ plain_line line.now) }
{
    let Some(string) = string_in(line) else {
        return out.extend_from_slice(uncommented(line));
    };
    out.extend_from_slice(&line[..line.len() - string.len() - 1])?;
    out.push(b'x')?;
    put_inside(out, string)?;
    out.extend_from_slice(after_string(string))
}

/// Appends the plain lines that the lines of a text stand for.
fn put_plain(out: &mut Vec<u8>, text: &[u8]) -> Result<(), AllocError>
    ensures { OnOk result (out.new.items ≡ out.old.items ++ plain_script text.now) }
{
    let mut left = text;
    while let Some((line, rest)) = first_line(left) {
        put_plain_line(out, line)?;
        out.push(b'\n')?;
        left = rest;
    }
    put_plain_line(out, left)
}

/// The plain script that a script stands for, line by line: without comments, and with digits in place of strings. No line is refused. A
/// quote that begins no string stays as it is, so that the reader of scripts meets it. Fails only where memory runs out.
pub fn plain_script(alloc: Global, text: &[u8]) -> Result<Vec<u8>, AllocError>
    ensures { IfOk result (λ plain. plain.items ≡ plain_script text.now) }
{
    let mut plain = Vec::new(alloc);
    put_plain(&mut plain, text)?;
    Ok(plain)
}

/// The line of a text after so many others.
fn nth_line(text: &[u8], above: usize) -> Option<&[u8]>
    ensures { option_copied result ≡ slice_get (slice_split is_feed text.now) above }
{
    text.split(|byte| *byte == b'\n').nth(above)
}

/// A line of a text, counted from 1; nothing where it isn't there.
#[tactic(auto, using(crate::proofs::ScriptLines::line_found, crate::proofs::ScriptLines::line_missing))]
fn line_at(text: &[u8], line: usize) -> &[u8]
    ensures { result.now ≡ slice_index_or ([] ∷ slice_split is_feed text.now) line [] }
{
    let Some(above) = line.checked_sub(1) else {
        return b"";
    };
    match nth_line(text, above) {
        Some(found) => found,
        None => b"",
    }
}

/// The column in a line of the byte at this column of its plain line.
fn line_column(line: &[u8], column: usize) -> usize
    ensures { result ≡ line_column line.now column }
{
    let Some(string) = string_in(line) else {
        return column;
    };
    let front = line.len() - string.len() - 1;
    let (count, end) = skip_inside(string);
    let word = 1 + 2 * count;
    let Some(past_front) = column.checked_sub(front + 1) else {
        return column;
    };
    if past_front < word {
        return front + 1;
    }
    let past_word = past_front - word;
    if past_word > after_string(string).len() {
        return column;
    }
    // with both quotes
    let quoted = string.len() + 2 - end.len();
    front + 1 + quoted + past_word
}

/// The column in a script of the byte at this line and column of its plain script, or of the end of that line. Lines and columns count
/// from 1. A byte of the digits of a string is at the quote that begins it. Where no such byte is, the result is `column`.
pub fn source_column(text: &[u8], line: usize, column: usize) -> usize
    ensures { result ≡ source_column text.now line column }
{
    line_column(line_at(text, line), column)
}

/// What stands from the first word of data on that a string can spell.
fn text_word(kind: Lines, line: &[u8]) -> Option<&[u8]>
    ensures value { option_copied result ≡ then_from (data_part kind line.now) (from_first Sought.TextWord true) }
    ensures within { IfSome result (λ word. length word.now ≤ length line.now) }
    ensures filled { IfSome result (λ word. 0 < length word.now) }
{
    from_first(Sought::TextWord, data_part(kind, line)?)
}

/// Appends a line of acts in which no word is taken for a comment: a `#` with which a name begins is `%23`.
fn put_unhashed(out: &mut Vec<u8>, line: &[u8]) -> Result<(), AllocError>
    ensures { OnOk result (out.new.items ≡ out.old.items ++ unhashed true line.now) }
{
    let mut begins = true;
    let mut left = line;
    while let Some((byte, rest)) = left.split_first() {
        if begins && *byte == b'#' {
            out.extend_from_slice(b"%23")?;
        } else {
            out.push(*byte)?;
        }
        begins = *byte == b' ';
        left = rest;
    }
    Ok(())
}

/// Appends a plain line without data that a string can spell.
fn put_without_string(out: &mut Vec<u8>, kind: Lines, line: &[u8]) -> Result<(), AllocError>
    ensures { OnOk result (out.new.items ≡ out.old.items ++ without_string kind line.now) }
{
    match kind {
        Lines::Acts => put_unhashed(out, line),
        Lines::Records => out.extend_from_slice(line),
    }
}

/// Appends a plain line, with the first word of data that a string can spell as one.
fn put_strung_line(out: &mut Vec<u8>, kind: Lines, line: &[u8]) -> Result<(), AllocError>
    ensures { OnOk result (out.new.items ≡ out.old.items ++ strung_line kind line.now) }
{
    let Some(word) = text_word(kind, line) else {
        return put_without_string(out, kind, line);
    };
    out.extend_from_slice(&line[..line.len() - word.len()])?;
    out.push(b'"')?;
    let after = put_paired(out, &word[1..])?;
    out.push(b'"')?;
    out.extend_from_slice(after)
}

/// Appends a text of plain lines. In each line the first word of data of the form `x6869` that a string can spell is written as one. In
/// lines of acts no name is left that begins with `#`. Where memory runs out, a part of the text may stand in `out`.
pub fn write_strung(out: &mut Vec<u8>, kind: Lines, text: &[u8]) -> Result<(), AllocError>
    ensures { OnOk result (out.new.items ≡ out.old.items ++ strung kind text.now) }
{
    let mut left = text;
    while let Some((line, rest)) = first_line(left) {
        put_strung_line(out, kind, line)?;
        out.push(b'\n')?;
        left = rest;
    }
    put_strung_line(out, kind, left)
}

/// A line of acts without `#` and `"` stands for itself again once it is shown with a string. The function does nothing; its contract is
/// the law.
pub fn shown_acts_are_read_again()
    ensures { (line : List ℕ) → no_marks line ≡ true → plain_line (strung_line Lines.Acts line) ≡ line }
{}

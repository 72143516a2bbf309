//! Lines of a script that can be copied, since they stand in the lines of their records as they are.

ghost use Rattle.std.specs.Prelude.{◌≡◌, ◌≤◌, ◌||◌, true, None, length, replicate};
ghost use Rattle.call_types.specs.declared.limits.TheConstants.{GIVEN_BYTES_MAX};
ghost use Rattle.script_text.specs.Lines.{one_byte};
ghost use Rattle.script_text.specs.Proved.Copied.{EndsAsWritten, FieldsAsWritten, IsAsWritten, has_star};
ghost use Rattle.call_types.specs.CallTable.{parts};

use crate::payload::{WRITTEN_OUT_MAX, repeated_byte};
use call_types::act::Act;
use call_types::bounded::Payload;
use call_types::call::Call;
use call_types::span::Span;

/// Whether a `*` stands at this place from the end of a line, where 1 is the last byte.
#[inline(always)]
fn has_star(place: usize, line: &[u8]) -> bool
    ensures { result ≡ has_star place line.now }
{
    match line.get(line.len().saturating_sub(place)) {
        Some(byte) => *byte == b'*',
        None => false,
    }
}

/// Whether a line that ends in data of one byte, which stands so many times, has it as it is written: by a count. Else nothing is
/// said. A line of at most two bytes for each of these has no room for their digits.
#[inline(always)]
#[tactic(auto, using(crate::proofs::AsWritten::counted_end))]
fn ends_in_count(line: &[u8], byte: u8, count: usize) -> bool
    requires { count ≤ GIVEN_BYTES_MAX }
    ensures { result ≡ true → EndsAsWritten line.now (replicate count byte) }
{
    count > WRITTEN_OUT_MAX && line.len() <= 2 * count
}

/// Whether data that stands in memory is written by digits.
#[inline(always)]
fn is_written_by_digits(bytes: &[u8]) -> bool
    ensures { result ≡ true → one_byte bytes.now ≡ None }
{
    match repeated_byte(bytes) {
        None => true,
        Some(_) => false,
    }
}

/// Whether a line ends in a `*` and one or two bytes, as it does after a count of at most 16.
#[inline(always)]
fn ends_in_small_count(line: &[u8]) -> bool
    ensures { result ≡ (has_star 2 line.now || has_star 3 line.now) }
{
    has_star(2, line) || has_star(3, line)
}

/// Whether a line that ends in data, which is these bytes, has it as it is written: by digits. Else nothing is said.
#[inline(always)]
fn ends_in_digits(line: &[u8], bytes: &[u8]) -> bool
    ensures { result ≡ true → EndsAsWritten line.now bytes.now }
{
    if bytes.len() > WRITTEN_OUT_MAX {
        is_written_by_digits(bytes)
    } else {
        !ends_in_small_count(line)
    }
}

/// Whether a line that ends in this data has it as it is written. Else nothing is said.
#[inline(always)]
fn ends_as_written(line: &[u8], given: &Payload) -> bool
    ensures { result ≡ true → EndsAsWritten line.now given.now }
{
    match given.span() {
        Span::Slice(bytes) => ends_in_digits(line, bytes),
        Span::Same { byte, count } => ends_in_count(line, byte, count),
    }
}

/// Whether a line that asks for a call has one spelling, or has its data as it is written; a name might be spelled otherwise. Else
/// nothing is said.
#[inline(always)]
fn has_fields_as_written(line: &[u8], call: &Call) -> bool
    ensures { result ≡ true → FieldsAsWritten line.now (parts call.now).entry.fields (parts call.now).values }
{
    match call {
        Call::Write { bytes, .. } => ends_as_written(line, bytes),
        Call::Pwrite { bytes, .. } => ends_as_written(line, bytes),
        Call::Close { .. }
        | Call::Read { .. }
        | Call::Pread { .. }
        | Call::Lseek { .. }
        | Call::Ftruncate { .. }
        | Call::Dup { .. }
        | Call::Dup2 { .. }
        | Call::Pipe
        | Call::Fstat { .. }
        | Call::Fork
        | Call::Getfl { .. }
        | Call::Setfl { .. } => true,
        _ => false,
    }
}

/// Whether a line that asks for this act of a process stands in the line of its record as it is. Else nothing is said.
#[inline(always)]
pub(crate) fn is_as_written(line: &[u8], act: &Act) -> bool
    ensures { result ≡ true → IsAsWritten line.now act.now }
{
    match act {
        Act::Call(call) => has_fields_as_written(line, call),
        Act::Attach | Act::Resume | Act::Exit => true,
        Act::Join | Act::CloseRun => false,
    }
}

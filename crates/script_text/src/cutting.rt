//! A line or a script, cut at a byte.

ghost use Rattle.std.specs.Prelude.{◌≡◌, ◌<◌, ◌==◌, length, position, IfSome};
ghost use Rattle.std.specs.Option.{option_copied};
ghost use Rattle.script_text.specs.Reading.{cut};
ghost use Rattle.memchr.specs.Find.{IsFirstByte, is_byte};

use memchr::memchr;

/// What is left of a line after a space, or of a script after an LF; `None` where it has ended.
pub(crate) type Unread<'a> = Option<&'a [u8]>;

/// The index of the first byte that is `mark`, byte by byte.
#[inline(always)]
fn first_of(mark: u8, bytes: &[u8]) -> Option<usize>
    ensures { result ≡ position (λ b. b == mark) bytes.now }
{
    bytes.iter().position(|byte| *byte == mark)
}

/// The bytes before the index of the first mark, and what is left after it.
#[inline(always)]
fn parted(_mark: u8, found: Option<usize>, bytes: &[u8]) -> (&[u8], Unread<'_>)
    requires { IsFirstByte (is_byte _mark) bytes.now found }
    ensures value { (result.0.now, option_copied result.1) ≡ cut _mark bytes.now }
    ensures shorter { IfSome result.1 (λ rest. length rest.now < length bytes.now) }
{
    match found {
        Some(i) => (&bytes[..i], Some(&bytes[i + 1..])),
        None => (bytes, None),
    }
}

/// The bytes up to the first that is `mark`, and what is left after it. A call of `memchr` costs more than it saves in a short text.
#[inline(always)]
pub(crate) fn cut_at(mark: u8, bytes: &[u8]) -> (&[u8], Unread<'_>)
    ensures value { (result.0.now, option_copied result.1) ≡ cut mark bytes.now }
    ensures shorter { IfSome result.1 (λ rest. length rest.now < length bytes.now) }
{
    if bytes.len() < 64 {
        return parted(mark, first_of(mark, bytes), bytes);
    }
    parted(mark, memchr(mark, bytes), bytes)
}

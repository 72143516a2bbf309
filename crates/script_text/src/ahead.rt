//! Fields at the front of what is left of a line, each read in one pass. Only small numbers are read so, and names and flags
//! not at all. Where a function gives `None` it says nothing: the readers of `fields` decide.

ghost use Rattle.std.specs.Prelude.{◌≡◌, ◌≤◌, ◌+◌, ◌*◌, ◌-◌, [], true, None, Some, Ok, IfSome};
ghost use Rattle.std.specs.Option.{option_copied};
ghost use Rattle.std.specs.Char.{is_ascii_digit};
ghost use Rattle.script_text.specs.Reading.{field, cut, space};
ghost use Rattle.script_text.specs.ReadingCalls.{act_at, whence_of};
ghost use Rattle.script_text.specs.ReadingData.{data_of};
ghost use Rattle.script_text.specs.ReadingNumbers.{count_of, descriptor_of, position_of};
ghost use Rattle.script_text.specs.declared.fault.Expected.TheVariants as expect;
ghost use Rattle.script_text.specs.Proved.Ahead.{small_most, DigitsAhead, NumberAhead, act_after};

use crate::cutting::Unread;
use crate::payload::data_value;
use crate::whence::whence_value;
use call_types::bounded::Payload;
use call_types::whence::Whence;
use std::alloc::Global;

/// A number below this is small with one digit more.
const ONE_DIGIT_LESS: u32 = 100_000_000;

/// The number with one digit more.
#[inline(always)]
fn with_digit(number: u32, digit: u8) -> Option<u32>
    ensures digit { IfSome result (λ n. is_ascii_digit digit ≡ true) }
    ensures value { IfSome result (λ n. n ≡ number * 10 + (digit - 48)) }
    ensures small { IfSome result (λ n. n ≤ small_most) }
{
    if !digit.is_ascii_digit() {
        return None;
    }
    if number >= ONE_DIGIT_LESS {
        return None;
    }
    Some(number * 10 + (digit - b'0') as u32)
}

/// The number that the digits up to a space make with those that made `so_far`.
#[inline(always)]
#[tactic(auto, using(crate::proofs::NumbersAhead::digit_on, crate::proofs::NumbersAhead::digit_rest))]
fn further_digits(so_far: u32, bytes: &[u8]) -> Option<(u32, Unread<'_>)>
    requires { so_far ≤ small_most }
    ensures ahead { IfSome result (λ x. DigitsAhead so_far bytes.now x.0 (option_copied x.1)) }
    ensures small { IfSome result (λ x. x.0 ≤ small_most) }
{
    let mut number = so_far;
    let mut left = bytes;
    while let Some((first, rest)) = left.split_first() {
        if *first == b' ' {
            return Some((number, Some(rest)));
        }
        number = with_digit(number, *first)?;
        left = rest;
    }
    Some((number, None))
}

/// What is left after a word that ends here.
#[inline(always)]
fn word_end(bytes: &[u8]) -> Option<Unread<'_>>
    ensures { IfSome result (λ after. cut space bytes.now ≡ ([], option_copied after)) }
{
    match bytes.split_first() {
        None => Some(None),
        Some((first, rest)) => (*first == b' ').then_some(Some(rest)),
    }
}

/// The number that the first word is.
#[inline(always)]
#[tactic(auto, using(crate::proofs::NumbersAhead::begins, crate::proofs::NumbersAhead::zero_ahead))]
fn number(bytes: &[u8]) -> Option<(u32, Unread<'_>)>
    ensures ahead { IfSome result (λ x. NumberAhead bytes.now x.0 (option_copied x.1)) }
    ensures small { IfSome result (λ x. x.0 ≤ small_most) }
{
    let (first, rest) = bytes.split_first()?;
    if *first == b'0' {
        return Some((0, word_end(rest)?));
    }
    further_digits(with_digit(0, *first)?, rest)
}

/// The process that a line begins with.
#[inline(always)]
#[tactic(auto, using(crate::proofs::NumbersAhead::process_ahead))]
pub(crate) fn process(line: &[u8]) -> Option<(u32, Unread<'_>)>
    ensures { IfSome result (λ x. act_at (Some line.now) ≡ act_after x.0 (option_copied x.1)) }
{
    let (first, rest) = line.split_first()?;
    if *first != b'p' {
        return None;
    }
    number(rest)
}

/// The next word as a descriptor.
#[inline(always)]
#[tactic(auto, using(crate::proofs::NumbersAhead::descriptor_ahead))]
pub(crate) fn descriptor(left: Unread<'_>) -> Option<(i32, Unread<'_>)>
    ensures { IfSome result (λ x. field expect.Descriptor descriptor_of (option_copied left.entry) ≡ Ok (x.0, option_copied x.1)) }
{
    let (value, after) = number(left?)?;
    Some((value as i32, after))
}

/// The next word as a position or an offset, in bytes.
#[inline(always)]
#[tactic(auto, using(crate::proofs::NumbersAhead::position_ahead))]
pub(crate) fn position(left: Unread<'_>) -> Option<(i64, Unread<'_>)>
    ensures { IfSome result (λ x. field expect.Position position_of (option_copied left.entry) ≡ Ok (x.0, option_copied x.1)) }
{
    let (value, after) = number(left?)?;
    Some((value as i64, after))
}

/// The next word as a count of bytes.
#[inline(always)]
#[tactic(auto, using(crate::proofs::NumbersAhead::count_ahead))]
pub(crate) fn count(left: Unread<'_>) -> Option<(u32, Unread<'_>)>
    ensures { IfSome result (λ x. field expect.Count count_of (option_copied left.entry) ≡ Ok (x.0, option_copied x.1)) }
{
    number(left?)
}

/// All that is left as data.
#[inline(always)]
pub(crate) fn last_payload(alloc: Global, left: Unread<'_>) -> Option<Payload>
    ensures { IfSome result (λ bytes. field expect.Data data_of (option_copied left.entry) ≡ Ok (bytes, None)) }
{
    match data_value(alloc, left?) {
        Ok(bytes) => bytes,
        Err(_) => None,
    }
}

/// All that is left as a base of an offset.
#[inline(always)]
#[tactic(auto, using(crate::proofs::LastFields::whence_last))]
pub(crate) fn last_whence(left: Unread<'_>) -> Option<Whence>
    ensures { IfSome result (λ whence. field expect.Whence whence_of (option_copied left.entry) ≡ Ok (whence, None)) }
{
    whence_value(left?)
}

/// The end of the line.
#[inline(always)]
pub(crate) fn end(left: Unread<'_>) -> Option<()>
    ensures { IfSome result (λ end. option_copied left.entry ≡ None) }
{
    match left {
        None => Some(()),
        Some(_) => None,
    }
}

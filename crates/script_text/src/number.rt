//! Numbers, read from a word.

ghost use Rattle.std.specs.Prelude.{◌≡◌, ◌≤◌, ◌<◌, ◌^◌, Some, IfSome, pos, negsuc, ◌≤ℤ◌};
ghost use Rattle.script_text.specs.ReadingNumbers.{digits_on, number_of, process_of, signed_of, descriptor_of, position_of, negative};

/// The number at most `most` that a word is in decimal, without leading zeros.
pub(crate) fn number_value(most: u32, word: &[u8]) -> Option<u32>
    ensures value { result ≡ number_of most word.now }
    ensures small { IfSome result (λ n. n ≤ most) }
{
    Some(wide_number_value(most as u64, word)? as u32)
}

/// The same of a number that may have 64 bits.
pub(crate) fn wide_number_value(most: u64, word: &[u8]) -> Option<u64>
    ensures value { result ≡ number_of most word.now }
    ensures small { IfSome result (λ n. n ≤ most) }
{
    match word {
        [] => None,
        [b'0'] => Some(0),
        [b'0', ..] => None,
        digits => digits_number(most, digits),
    }
}

/// The number at most `most` that the digits stand for.
fn digits_number(most: u64, digits: &[u8]) -> Option<u64>
    ensures value { result ≡ digits_on most 0 digits.now }
    ensures small { IfSome result (λ n. n ≤ most) }
{
    let mut number = 0u64;
    for digit in digits {
        if !digit.is_ascii_digit() {
            return None;
        }
        number = number.checked_mul(10)?.checked_add((*digit - b'0') as u64)?;
        if number > most {
            return None;
        }
    }
    Some(number)
}

/// The process that a word names: `p` and its number.
pub(crate) fn process_value(word: &[u8]) -> Option<u32>
    ensures { result ≡ process_of word.now }
{
    match word {
        [b'p', digits @ ..] => number_value(u32::MAX, digits),
        _ => None,
    }
}

/// The descriptor that a word is: a number that may be negative.
pub(crate) fn descriptor_value(word: &[u8]) -> Option<i32>
    ensures { result ≡ descriptor_of word.now }
{
    Some(signed_value(i32::MAX as u64, word)? as i32)
}

/// The position, offset or length that a word is, in bytes: a number that may be negative.
pub(crate) fn position_value(word: &[u8]) -> Option<i64>
    ensures { result ≡ position_of word.now }
{
    signed_value(i64::MAX as u64, word)
}

/// The number that a word is, from -(`most` + 1) to `most`.
fn signed_value(most: u64, word: &[u8]) -> Option<i64>
    requires { most < 2 ^ 63 }
    ensures value { result ≡ signed_of most word.now }
    ensures within { IfSome result (λ n. negsuc most ≤ℤ n × n ≤ℤ pos most) }
{
    match word {
        [] => None,
        [b'-', digits @ ..] => negative_value(wide_number_value(most + 1, digits)?),
        digits => Some(wide_number_value(most, digits)? as i64),
    }
}

/// Minus the size; `None` for 0, since `-0` is not a number of a script.
fn negative_value(size: u64) -> Option<i64>
    requires { size ≤ 2 ^ 63 }
    ensures { result ≡ negative (Some size) }
{
    if size == 0 {
        return None;
    }
    Some(-((size - 1) as i64) - 1)
}

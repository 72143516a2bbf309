//! Texts and numbers, appended to a line for which there is room.

ghost use Rattle.std.specs.Prelude.{◌≡◌, ◌≤◌, ◌<◌, ◌+◌, ◌++◌, codes, length, decimal};
ghost use Rattle.std.specs.Fmt.{signed_decimal};
ghost use Rattle.script_text.specs.Lines.{process_word};
ghost use Rattle.script_text.specs.ReadingNumbers.{digit_0};
ghost use Rattle.script_text.specs.Proved.Digits.{four_digits};
ghost use Rattle.script_text.specs.Proved.Room.{HasRoom, UsesRoom};

use itoa::Buffer;

/// Bytes of a number, or of a descriptor or position with its sign, at most.
pub(crate) const NUMBER_ROOM: usize = 20;

/// Bytes of such a number with a byte before it, at most.
pub(crate) const FIELD_ROOM: usize = 21;

/// Appends a text.
// Inlined, so that a text of known length is written by a store or two.
#[inline(always)]
pub(crate) fn put(out: &mut Vec<u8>, text: &[u8])
    requires { HasRoom out.old (length text.now) }
    ensures text { out.new.items ≡ out.old.items ++ text.now }
    ensures room { UsesRoom out.old out.new (length text.now) }
{
    match out.extend_from_slice(text) {
        Ok(()) => {}
        Err(_) => unreachable!(),
    }
}

/// Appends a number.
#[inline]
#[tactic(auto, using(std::proofs::lemmas::Fmt::decimal_digit))]
pub(crate) fn put_number(out: &mut Vec<u8>, number: u64)
    requires { HasRoom out.old NUMBER_ROOM }
    ensures text { out.new.items ≡ out.old.items ++ decimal number }
    ensures room { UsesRoom out.old out.new NUMBER_ROOM }
{
    if number < 10 {
        out.push_reserved(digit_byte(number));
        return;
    }
    put_several_digits(out, number);
}

/// The byte of a digit.
#[inline(always)]
fn digit_byte(digit: u64) -> u8
    requires { digit < 10 }
    ensures { result ≡ digit_0 + digit }
{
    b'0' + digit as u8
}

/// Appends a number of two digits.
#[inline(always)]
#[tactic(auto, using(crate::proofs::ShortNumbers::two_digits))]
fn put_two_digits(out: &mut Vec<u8>, number: u64)
    requires size { (10 ≤ number) × (number < 100) }
    requires room { HasRoom out.old 4 }
    ensures text { out.new.items ≡ out.old.items ++ decimal number }
    ensures room { UsesRoom out.old out.new 4 }
{
    put(out, &[digit_byte(number / 10), digit_byte(number % 10)]);
}

/// Appends a number of three digits.
#[inline(always)]
#[tactic(auto, using(crate::proofs::ShortNumbers::three_digits))]
fn put_three_digits(out: &mut Vec<u8>, number: u64)
    requires size { (100 ≤ number) × (number < 1000) }
    requires room { HasRoom out.old 4 }
    ensures text { out.new.items ≡ out.old.items ++ decimal number }
    ensures room { UsesRoom out.old out.new 4 }
{
    put(
        out,
        &[
            digit_byte(number / 100),
            digit_byte(number / 10 % 10),
            digit_byte(number % 10),
        ],
    );
}

/// Appends the four digits of a number below 10,000, with zeros in front where it has fewer.
#[inline(always)]
fn put_four_digits(out: &mut Vec<u8>, number: u64)
    requires size { number < 10000 }
    requires room { HasRoom out.old 4 }
    ensures text { out.new.items ≡ out.old.items ++ four_digits number }
    ensures room { UsesRoom out.old out.new 4 }
{
    put(
        out,
        &[
            digit_byte(number / 1000),
            digit_byte(number / 100 % 10),
            digit_byte(number / 10 % 10),
            digit_byte(number % 10),
        ],
    );
}

/// Appends a number below 10,000.
#[inline(always)]
#[tactic(auto, using(std::proofs::lemmas::Fmt::decimal_digit, crate::proofs::ShortNumbers::all_four_digits))]
fn put_short_number(out: &mut Vec<u8>, number: u64)
    requires size { number < 10000 }
    requires room { HasRoom out.old 4 }
    ensures text { out.new.items ≡ out.old.items ++ decimal number }
    ensures room { UsesRoom out.old out.new 4 }
{
    if number < 10 {
        out.push_reserved(digit_byte(number));
    } else if number < 100 {
        put_two_digits(out, number);
    } else if number < 1000 {
        put_three_digits(out, number);
    } else {
        put_four_digits(out, number);
    }
}

/// Appends a number of five to eight digits: those before the last four, and these.
#[inline(always)]
fn put_middle_number(out: &mut Vec<u8>, number: u64)
    requires size { (10000 ≤ number) × (number < 100000000) }
    requires room { HasRoom out.old NUMBER_ROOM }
    ensures text { out.new.items ≡ out.old.items ++ decimal number }
    ensures room { UsesRoom out.old out.new NUMBER_ROOM }
{
    put_short_number(out, number / 10_000);
    put_four_digits(out, number % 10_000);
}

/// Appends a number of any size, by way of a buffer.
#[inline(never)]
fn put_great_number(out: &mut Vec<u8>, number: u64)
    requires { HasRoom out.old NUMBER_ROOM }
    ensures text { out.new.items ≡ out.old.items ++ decimal number }
    ensures room { UsesRoom out.old out.new NUMBER_ROOM }
{
    let mut buffer = Buffer::new();
    put(out, buffer.format(number).as_bytes());
}

/// Appends a number of several digits. It stands apart, so that one digit costs no call.
#[inline(never)]
fn put_several_digits(out: &mut Vec<u8>, number: u64)
    requires { HasRoom out.old NUMBER_ROOM }
    ensures text { out.new.items ≡ out.old.items ++ decimal number }
    ensures room { UsesRoom out.old out.new NUMBER_ROOM }
{
    if number < 10_000 {
        put_short_number(out, number);
    } else if number < 100_000_000 {
        put_middle_number(out, number);
    } else {
        put_great_number(out, number);
    }
}

/// Appends a descriptor.
pub(crate) fn put_descriptor(out: &mut Vec<u8>, fd: i32)
    requires { HasRoom out.old NUMBER_ROOM }
    ensures text { out.new.items ≡ out.old.items ++ signed_decimal fd }
    ensures room { UsesRoom out.old out.new NUMBER_ROOM }
{
    put_signed(out, i64::from(fd));
}

/// Appends a number that may have a sign, as a position, an offset or a length.
// Inlined, so that a digit costs no call.
#[inline(always)]
pub(crate) fn put_signed(out: &mut Vec<u8>, number: i64)
    requires { HasRoom out.old NUMBER_ROOM }
    ensures text { out.new.items ≡ out.old.items ++ signed_decimal number }
    ensures room { UsesRoom out.old out.new NUMBER_ROOM }
{
    if number < 0 {
        put_negative(out, number);
        return;
    }
    put_number(out, number.unsigned_abs());
}

/// Appends a number below 0.
#[inline(never)]
fn put_negative(out: &mut Vec<u8>, number: i64)
    requires { HasRoom out.old NUMBER_ROOM }
    ensures text { out.new.items ≡ out.old.items ++ signed_decimal number }
    ensures room { UsesRoom out.old out.new NUMBER_ROOM }
{
    let mut buffer = Buffer::new();
    put(out, buffer.format(number).as_bytes());
}

/// Appends a space and a number.
pub(crate) fn put_next_number(out: &mut Vec<u8>, number: u64)
    requires { HasRoom out.old FIELD_ROOM }
    ensures text { out.new.items ≡ out.old.items ++ (codes " " ++ decimal number) }
    ensures room { UsesRoom out.old out.new FIELD_ROOM }
{
    out.push_reserved(b' ');
    put_number(out, number);
}

/// Appends a space and a number that may have a sign.
pub(crate) fn put_next_signed(out: &mut Vec<u8>, number: i64)
    requires { HasRoom out.old FIELD_ROOM }
    ensures text { out.new.items ≡ out.old.items ++ (codes " " ++ signed_decimal number) }
    ensures room { UsesRoom out.old out.new FIELD_ROOM }
{
    out.push_reserved(b' ');
    put_signed(out, number);
}

/// Appends the word of a process.
pub(crate) fn put_process(out: &mut Vec<u8>, process: u32)
    requires { HasRoom out.old FIELD_ROOM }
    ensures text { out.new.items ≡ out.old.items ++ process_word process }
    ensures room { UsesRoom out.old out.new FIELD_ROOM }
{
    out.push_reserved(b'p');
    put_number(out, process as u64);
}

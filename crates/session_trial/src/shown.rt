//! Words, numbers and bytes as lines.
use itoa::Buffer;
use logged_streams::stream_log::StreamLog;
use std::alloc::AllocError;

/// Appends a word.
pub(crate) fn put_word(out: &mut Vec<u8>, word: &[u8]) -> Result<(), AllocError> {
    out.extend_from_slice(word)
}

/// Appends a number.
fn put_digits(out: &mut Vec<u8>, number: u64) -> Result<(), AllocError> {
    let mut buffer = Buffer::new();
    out.extend_from_slice(buffer.format(number).as_bytes())
}

/// Appends a line of a word and a number.
pub(crate) fn put_number(out: &mut Vec<u8>, word: &[u8], number: u64) -> Result<(), AllocError> {
    put_word(out, word)?;
    put_digits(out, number)?;
    put_word(out, b"\n")
}

/// Appends a line of bytes, in hexadecimal.
pub(crate) fn put_written(out: &mut Vec<u8>, bytes: &[u8]) -> Result<(), AllocError> {
    let text = hex::encode(out.allocator().clone()?, bytes)?;
    put_word(out, b"written ")?;
    put_word(out, text.as_bytes())?;
    put_word(out, b"\n")
}

/// Appends a line of what became of the calls on a stream: how many there were, how many of the last were interrupted, and whether
/// one failed.
pub(crate) fn put_log(out: &mut Vec<u8>, word: &[u8], log: &StreamLog) -> Result<(), AllocError> {
    put_word(out, word)?;
    put_digits(out, log.calls())?;
    put_word(out, b" ")?;
    put_digits(out, u64::from(log.interruptions()))?;
    put_word(
        out,
        if log.has_failed() {
            b" failed\n"
        } else {
            b" whole\n"
        },
    )
}

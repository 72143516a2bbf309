//! The base of an offset, read from a word and written as one.

ghost use Rattle.std.specs.Prelude.{◌≡◌, ◌≤◌, length};
ghost use Rattle.script_text.specs.Lines.{whence_word};
ghost use Rattle.script_text.specs.ReadingCalls.{whence_of};

use call_types::whence::Whence;

/// From where a word says to count.
pub(crate) fn whence_value(word: &[u8]) -> Option<Whence>
    ensures { result ≡ whence_of word.now }
{
    match word {
        b"set" => Some(Whence::Set),
        b"cur" => Some(Whence::Cur),
        b"end" => Some(Whence::End),
        _ => None,
    }
}

/// How a base of an offset is written.
pub(crate) fn whence_text(whence: Whence) -> &'static [u8]
    ensures text { result.now ≡ whence_word whence }
    ensures short { length result.now ≤ 3 }
{
    match whence {
        Whence::Set => b"set",
        Whence::Cur => b"cur",
        Whence::End => b"end",
    }
}

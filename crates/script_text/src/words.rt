//! The words of a line, with one space between two of them.

ghost use Rattle.std.specs.Prelude.{◌≡◌, IfErr};
ghost use Rattle.std.specs.Option.{option_copied};
ghost use Rattle.std.specs.Str.{bytes_eq};
ghost use Rattle.script_text.specs.Reading.{Gives, Word, word_at, valued, ended};
ghost use Rattle.script_text.specs.declared.words.Next.{Next};

use crate::cutting::{Unread, cut_at};
use crate::fault::{Expected, WordFault};

/// A word, how many bytes of the line remain where it begins, and what is left after it.
#[derive(Clone, Copy)]
pub(crate) struct Next<'a> {
    pub(crate) text: &'a [u8],
    pub(crate) remaining: usize,
    pub(crate) after: Unread<'a>,
}

impl<'a> Next<'a> {
    /// Whether the word is a text.
    // Inlined, so that a text of known length is compared without a call.
    #[inline(always)]
    pub(crate) fn is(self, text: &[u8]) -> bool
        ensures { result ≡ bytes_eq self.entry.text.now text.now }
    {
        if self.text.len() != text.len() {
            return false;
        }
        self.text.starts_with(text)
    }

    /// The value of the word, with what is left after it; a word without one isn't allowed.
    pub(crate) fn valued<T: Drop>(
        self,
        expected: Expected,
        value: Option<T>,
    ) -> Result<(T, Unread<'a>), WordFault>
        ensures { Gives (λ x. (x.0, option_copied x.1)) result (valued expected value self.entry.remaining (option_copied self.entry.after)) }
    {
        match value {
            None => Err(WordFault::At {
                remaining: self.remaining,
                expected,
            }),
            Some(value) => Ok((value, self.after)),
        }
    }
}

/// The next word of a line. Where there is none, the fault says what was `expected`.
pub(crate) fn next_word(expected: Expected, left: Unread<'_>) -> Result<Next<'_>, WordFault>
    ensures { Gives (λ w. record { text = w.text.now; remaining = w.remaining; after = option_copied w.after }) result (word_at expected (option_copied left.entry)) }
{
    match left {
        None => Err(WordFault::At {
            remaining: 0,
            expected,
        }),
        Some(bytes) => {
            let (text, after) = cut_at(b' ', bytes);
            Ok(Next {
                text,
                remaining: bytes.len(),
                after,
            })
        }
    }
}

/// Checks that the line ends here.
pub(crate) fn line_end(left: Unread<'_>) -> Result<(), WordFault>
    ensures reads { Gives (λ x. x) result (ended (option_copied left.entry)) }
    ensures fault { IfErr result (λ fault. ¬ (fault ≡ WordFault.NoMemory)) }
{
    match left {
        None => Ok(()),
        Some(bytes) => Err(WordFault::At {
            remaining: bytes.len(),
            expected: Expected::End,
        }),
    }
}

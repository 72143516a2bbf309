//! The next word of a line, as a field of a call.

ghost use Rattle.std.specs.Option.{option_copied};
ghost use Rattle.script_text.specs.Reading.{Gives, field};
ghost use Rattle.script_text.specs.ReadingNumbers.{count_of, descriptor_of, position_of};
ghost use Rattle.script_text.specs.ReadingNames.{name_of};
ghost use Rattle.script_text.specs.ReadingData.{data_of};
ghost use Rattle.script_text.specs.ReadingFlags.{flags_of};
ghost use Rattle.script_text.specs.ReadingCalls.{whence_of};

use crate::cutting::Unread;
use crate::fault::{Expected, WordFault};
use crate::flags::flags_value;
use crate::name::name_value;
use crate::number::{descriptor_value, number_value, position_value};
use crate::payload::data_value;
use crate::whence::whence_value;
use crate::words::next_word;
use call_types::bounded::{Name, Payload};
use call_types::flags::OpenFlags;
use call_types::whence::Whence;
use std::alloc::Global;

/// The next word as a descriptor.
pub(crate) fn descriptor(left: Unread<'_>) -> Result<(i32, Unread<'_>), WordFault>
    ensures { Gives (λ x. (x.0, option_copied x.1)) result (field Expected.Descriptor descriptor_of (option_copied left.entry)) }
{
    let word = next_word(Expected::Descriptor, left)?;
    word.valued(Expected::Descriptor, descriptor_value(word.text))
}

/// The next word as a position, an offset or a length, in bytes.
pub(crate) fn position(left: Unread<'_>) -> Result<(i64, Unread<'_>), WordFault>
    ensures { Gives (λ x. (x.0, option_copied x.1)) result (field Expected.Position position_of (option_copied left.entry)) }
{
    let word = next_word(Expected::Position, left)?;
    word.valued(Expected::Position, position_value(word.text))
}

/// The next word as a base of an offset: the start, the current offset, or the end.
pub(crate) fn whence(left: Unread<'_>) -> Result<(Whence, Unread<'_>), WordFault>
    ensures { Gives (λ x. (x.0, option_copied x.1)) result (field Expected.Whence whence_of (option_copied left.entry)) }
{
    let word = next_word(Expected::Whence, left)?;
    word.valued(Expected::Whence, whence_value(word.text))
}

/// The next word as a count of bytes.
pub(crate) fn count(left: Unread<'_>) -> Result<(u32, Unread<'_>), WordFault>
    ensures { Gives (λ x. (x.0, option_copied x.1)) result (field Expected.Count count_of (option_copied left.entry)) }
{
    let word = next_word(Expected::Count, left)?;
    word.valued(Expected::Count, number_value(u32::MAX, word.text))
}

/// The next word as flags.
pub(crate) fn flags(left: Unread<'_>) -> Result<(OpenFlags, Unread<'_>), WordFault>
    ensures { Gives (λ x. (x.0.0, option_copied x.1)) result (field Expected.Flags flags_of (option_copied left.entry)) }
{
    let word = next_word(Expected::Flags, left)?;
    word.valued(Expected::Flags, flags_value(word.text))
}

/// The next word as a name.
pub(crate) fn name(alloc: Global, left: Unread<'_>) -> Result<(Name, Unread<'_>), WordFault>
    ensures { Gives (λ x. (x.0, option_copied x.1)) result (field Expected.Name name_of (option_copied left.entry)) }
{
    let word = next_word(Expected::Name, left)?;
    word.valued(Expected::Name, name_value(alloc, word.text)?)
}

/// The next word as data.
pub(crate) fn payload(alloc: Global, left: Unread<'_>) -> Result<(Payload, Unread<'_>), WordFault>
    ensures { Gives (λ x. (x.0, option_copied x.1)) result (field Expected.Data data_of (option_copied left.entry)) }
{
    let word = next_word(Expected::Data, left)?;
    word.valued(Expected::Data, data_value(alloc, word.text)?)
}

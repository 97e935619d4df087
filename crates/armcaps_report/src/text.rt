//! Texts that are made part by part: a `String`, and a buffer of a fixed size.

ghost use Rattle.std.specs.Prelude.{ℕ, ◌+◌, ◌++◌, List, codes, string_bytes};
ghost use Rattle.std.specs.Fmt.{decimal};
ghost use Rattle.armcaps_report.specs.Extending.{Extends};

use arrayvec::ArrayString;
use itoa::Buffer;
use std::alloc::AllocError;

/// A text that is made part by part. A function that writes to any text writes the same to each.
pub trait Text {
    /// Why a part is not taken.
    type Error;

    // the bytes that it has
    ghost bytes: { Self → List ℕ };

    // the least length that it may refuse to come to
    ghost refused_from: { ℕ };

    /// Adds a part at the end. An `Err` says that the text would have come to a length that it may refuse.
    fn append(&mut self, part: &str) -> Result<(), Self::Error>
        ensures { Extends result refused_from (bytes self.old) (bytes self.new) part.now };
}

/// A text in memory, of which any length may be refused for want of memory.
impl Text for String {
    type Error = AllocError;

    ghost bytes = { λ text. string_bytes text };

    ghost refused_from = { 0 };

    fn append(&mut self, part: &str) -> Result<(), AllocError> {
        self.push_str(part)
    }
}

/// That a buffer has no room for a part.
#[derive(Debug, Drop)]
pub struct NoRoom;

/// A text in a buffer, which refuses only what is longer than the buffer.
impl<const CAP: usize> Text for ArrayString<CAP> {
    type Error = NoRoom;

    ghost bytes = { λ text. text.bytes };

    ghost refused_from = { CAP + 1 };

    fn append(&mut self, part: &str) -> Result<(), NoRoom> {
        match self.try_push_str(part) {
            Ok(()) => Ok(()),
            Err(_) => Err(NoRoom),
        }
    }
}

/// Adds a number in decimal digits behind a text.
pub fn push_after<T: Text>(text: &mut T, before: &str, number: u64) -> Result<(), T::Error>
    ensures { Extends result T.refused_from (T.bytes text.old) (T.bytes text.new) (before.now ++ decimal number) }
{
    text.append(before)?;
    push_number(text, number)
}

/// Adds a number in decimal digits between two texts.
pub fn push_between<T: Text>(
    text: &mut T,
    before: &str,
    number: u64,
    after: &str,
) -> Result<(), T::Error>
    ensures { Extends result T.refused_from (T.bytes text.old) (T.bytes text.new)
        (before.now ++ decimal number ++ after.now) }
{
    push_after(text, before, number)?;
    text.append(after)
}

/// Adds a number in decimal digits.
pub fn push_number<T: Text>(text: &mut T, number: u64) -> Result<(), T::Error>
    ensures { Extends result T.refused_from (T.bytes text.old) (T.bytes text.new) (decimal number) }
{
    text.append(Buffer::new().format(number))
}

/// Adds a number behind a text, and the kind by which it is refused.
pub fn push_kind<T: Text>(
    text: &mut T,
    before: &str,
    number: u32,
    kind: u8,
    word: &str,
) -> Result<(), T::Error>
    ensures { Extends result T.refused_from (T.bytes text.old) (T.bytes text.new)
        (before.now ++ decimal number ++ codes ": kind " ++ decimal kind ++ codes " " ++ word.now) }
{
    push_between(text, before, u64::from(number), ": kind ")?;
    push_number(text, u64::from(kind))?;
    text.append(" ")?;
    text.append(word)
}

/// Adds how much there is of a number, between two texts.
pub fn push_part<T: Text>(
    text: &mut T,
    before: &str,
    got: u64,
    of: u64,
    after: &str,
) -> Result<(), T::Error>
    ensures { Extends result T.refused_from (T.bytes text.old) (T.bytes text.new)
        (before.now ++ decimal got ++ codes " of " ++ decimal of ++ after.now) }
{
    push_between(text, before, got, " of ")?;
    push_number(text, of)?;
    text.append(after)
}

//! The text of why an input is refused.

ghost use Rattle.armcaps_report.specs.Extending.{Extends};
ghost use Rattle.armcaps_text.specs.Texts.{texts_refusal_text};
ghost use Rattle.armcaps_text.specs.declared.texts.TextsRefused.TheVariants as texts_refused;
ghost use Rattle.armcaps_top.specs.ErrorLines.{refused_text};
ghost use Rattle.armcaps_top.specs.declared.refusal.Refusal.TheVariants as Refusal;

use crate::refusal::Refusal;
use armcaps_report::{Text, push_after, push_between, push_kind, push_part};
use armcaps_text::{TextKind, TextsRefused};

/// Adds why an input is no document.
pub fn push_refusal<T: Text>(text: &mut T, refusal: Refusal) -> Result<(), T::Error>
    ensures { Extends result T.refused_from (T.bytes text.old) (T.bytes text.new) (refused_text refusal) }
{
    match refusal {
        Refusal::Line { line, kind } => push_place(text, line, kind),
        Refusal::TooLong { limit } => push_limit(text, limit),
        Refusal::ImageShort { got, of } => push_shortage(text, got, of),
        Refusal::Trailing { extra } => push_trailing(text, extra),
        Refusal::Texts(refused) => push_texts_refused(text, refused),
    }
}

// Adds where a text is refused, and why.
#[tactic(auto, unfolding(crate::specs::ErrorLines::refused_text, armcaps_text::specs::Refusal::refusal_text))]
fn push_place<T: Text>(text: &mut T, line: u32, kind: TextKind) -> Result<(), T::Error>
    ensures { Extends result T.refused_from (T.bytes text.old) (T.bytes text.new)
        (refused_text (Refusal.Line line kind)) }
{
    push_kind(text, "line ", line, kind.number(), kind.word())
}

// Adds how many bytes an input may have.
#[tactic(auto, unfolding(crate::specs::ErrorLines::refused_text))]
fn push_limit<T: Text>(text: &mut T, limit: usize) -> Result<(), T::Error>
    ensures { Extends result T.refused_from (T.bytes text.old) (T.bytes text.new)
        (refused_text (Refusal.TooLong limit)) }
{
    push_between(text, "input longer than ", limit as u64, " bytes")
}

// Adds how many bytes of an image are there.
#[tactic(auto, unfolding(crate::specs::ErrorLines::refused_text))]
fn push_shortage<T: Text>(text: &mut T, got: usize, of: u32) -> Result<(), T::Error>
    ensures { Extends result T.refused_from (T.bytes text.old) (T.bytes text.new)
        (refused_text (Refusal.ImageShort got of)) }
{
    push_part(text, "image short: ", got as u64, u64::from(of), " bytes")
}

// Adds how many bytes follow a document.
#[tactic(auto, unfolding(crate::specs::ErrorLines::refused_text))]
fn push_trailing<T: Text>(text: &mut T, extra: usize) -> Result<(), T::Error>
    ensures { Extends result T.refused_from (T.bytes text.old) (T.bytes text.new)
        (refused_text (Refusal.Trailing extra)) }
{
    push_after(text, "trailing bytes: ", extra as u64)
}

// Adds why texts that stand one after the other are refused.
#[tactic(auto, unfolding(crate::specs::ErrorLines::refused_text, armcaps_text::specs::Texts::texts_refusal_text))]
fn push_texts_refused<T: Text>(text: &mut T, refused: TextsRefused) -> Result<(), T::Error>
    ensures { Extends result T.refused_from (T.bytes text.old) (T.bytes text.new)
        (refused_text (Refusal.Texts refused)) }
{
    match refused {
        TextsRefused::Line { number, line, kind } => push_text_refused(text, number, line, kind),
        TextsRefused::Image { number } => {
            push_between(text, "machine ", u64::from(number), ": image")
        }
        TextsRefused::TooMany => text.append("more than 64 machines"),
    }
}

// Adds where one of several texts is refused, and why.
#[tactic(auto, unfolding(crate::specs::ErrorLines::refused_text, armcaps_text::specs::Texts::texts_refusal_text))]
fn push_text_refused<T: Text>(
    text: &mut T,
    number: u32,
    line: u32,
    kind: TextKind,
) -> Result<(), T::Error>
    ensures { Extends result T.refused_from (T.bytes text.old) (T.bytes text.new)
        (texts_refusal_text (texts_refused.Line number line kind)) }
{
    push_between(text, "machine ", u64::from(number), ": ")?;
    push_place(text, line, kind)
}

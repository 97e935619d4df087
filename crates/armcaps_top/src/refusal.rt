//! Why an input is no document.

use armcaps_text::{TextKind, TextsRefused};

/// Why an input is no document.
#[derive(Clone, Copy)]
pub enum Refusal {
    /// A line of the text, counted from 1, is the first for which some kind holds, and this is the lowest kind there.
    Line { line: u32, kind: TextKind },
    /// The input has more bytes than the limit of its format, which is this.
    TooLong { limit: usize },
    /// So many bytes follow the text, and the image has this many, which is more.
    ImageShort { got: usize, of: u32 },
    /// So many bytes follow the image.
    Trailing { extra: usize },
    /// One of several texts is refused or has an image, or there are too many.
    Texts(TextsRefused),
}

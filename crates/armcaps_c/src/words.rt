//! The words of a line.

ghost use Rattle.std.specs.Prelude.{◌≡◌, ◌<◌, ◌∷◌, [], IfOk, IsUtf8, MatchOption, length, map, string_bytes};
ghost use Rattle.armcaps_c.specs.Words.{AreText, words_in};

use armcaps_lex::next_piece;
use std::alloc::{AllocError, Global};
use std::str;

// A word as text; `None` where it is none.
fn text_of(alloc: Global, word: &[u8]) -> Result<Option<String>, AllocError>
    ensures { IfOk result (λ found.
        MatchOption found (¬ (IsUtf8 word.now)) (λ text. string_bytes text ≡ word.now)) }
{
    match str::from_utf8(word) {
        Ok(text) => Ok(Some(String::from_str(alloc, text)?)),
        Err(_) => Ok(None),
    }
}

// The first word of a text and what stands after it; `None` where nothing but spaces is left.
fn next_word(text: &[u8]) -> Option<(&[u8], &[u8])>
    ensures cut { MatchOption result (words_in text.now ≡ [])
        (λ cut. words_in text.now ≡ cut.0.now ∷ words_in cut.1.now) }
    ensures shorter { MatchOption result (words_in text.now ≡ []) (λ cut. length cut.1.now < length text.now) }
{
    next_piece(b" ".as_slice(), text)
}

/// The words of a line, cut at spaces; `None` where one of them is no text.
pub fn words_of(alloc: Global, line: &[u8]) -> Result<Option<Vec<String>>, AllocError>
    ensures { IfOk result (λ found. MatchOption found (¬ (AreText (words_in line.now)))
        (λ words. (map string_bytes words.items ≡ words_in line.now) × AreText (words_in line.now))) }
{
    let mut words = Vec::new(alloc);
    let mut rest = line;
    while let Some((word, more)) = next_word(rest) {
        let Some(text) = text_of(alloc, word)? else {
            return Ok(None);
        };
        words.push(text)?;
        rest = more;
    }
    Ok(Some(words))
}

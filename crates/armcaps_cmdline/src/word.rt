//! The words of a command line.

ghost use Rattle.std.specs.Prelude.{◌≡◌, ◌<◌, [], ◌∷◌, length, MatchOption};
ghost use Rattle.armcaps_cmdline.specs.Words.{counted_words};

use armcaps_lex::next_piece;

/// The first word that counts and what stands after it; `None` where no word is left, or the next one is `--`.
#[tactic(auto, unfolding(crate::specs::Words::counted_words))]
pub(crate) fn next_word(text: &[u8]) -> Option<(&[u8], &[u8])>
    ensures cut { MatchOption result (counted_words text.now ≡ [])
        (λ cut. counted_words text.now ≡ cut.0.now ∷ counted_words cut.1.now) }
    ensures shorter { MatchOption result (counted_words text.now ≡ []) (λ cut. length cut.1.now < length text.now) }
{
    let (word, rest) = next_piece(b" \t", text)?;
    if word == b"--".as_slice() {
        None
    } else {
        Some((word, rest))
    }
}

// The pieces of a text.
ghost use Rattle.std.specs.Prelude.{◌≡◌, ◌<◌, [], ◌∷◌, length, not, position, MatchOption};
ghost use Rattle.armcaps_lex.specs.Pieces.{separates, pieces};

fn separates(separators: &[u8], byte: u8) -> bool
    ensures { result ≡ separates separators.now byte }
{
    separators.contains(&byte)
}

// The place of the first byte that is no separator.
fn start_of(separators: &[u8], text: &[u8]) -> Option<usize>
    ensures { result ≡ position (λ byte. not (separates separators.now byte)) text.now }
{
    text.iter().position(|byte| !separates(separators, *byte))
}

// The place of the first separator.
fn end_of(separators: &[u8], text: &[u8]) -> Option<usize>
    ensures { result ≡ position (separates separators.now) text.now }
{
    text.iter().position(|byte| separates(separators, *byte))
}

/// The first piece of a text and what stands after it; `None` where nothing but separators is left. Separators cut a
/// text, and a piece has at least one byte.
#[tactic(auto, using(crate::proofs::PieceLemmas::pieces_some, crate::proofs::PieceLemmas::pieces_none))]
pub fn next_piece<'a>(separators: &[u8], text: &'a [u8]) -> Option<(&'a [u8], &'a [u8])>
    ensures cut { MatchOption result (pieces separators.now text.now ≡ [])
        (λ cut. pieces separators.now text.now ≡ cut.0.now ∷ pieces separators.now cut.1.now) }
    ensures shorter { MatchOption result (pieces separators.now text.now ≡ [])
        (λ cut. length cut.1.now < length text.now) }
{
    let start = start_of(separators, text)?;
    let text = &text[start..];
    let end = end_of(separators, text).unwrap_or(text.len());
    Some(text.split_at(end))
}

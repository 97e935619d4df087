// The lines of a text.
ghost use Rattle.std.specs.Prelude.{◌≡◌, ◌+◌, ◌==◌, [], ◌∷◌, length, position, IfNone, IfSome};
ghost use Rattle.armcaps_text.specs.Lines.{ended_lines, first_mebibyte};

/// A machine text has its lines within this many bytes.
pub const TEXT_LIMIT: usize = 1_048_576;

// The place of the first byte of this value.
pub fn find_byte(text: &[u8], wanted: u8) -> Option<usize>
    ensures { result ≡ position (λ byte. byte == wanted) text.now }
{
    text.iter().position(|byte| *byte == wanted)
}

/// The first line of a text, without its line feed, and what stands after that; nothing where no line ends.
#[tactic(auto, using(crate::proofs::FirstLine::ended_lines_some, crate::proofs::FirstLine::ended_lines_none))]
pub fn next_line(text: &[u8]) -> Option<(&[u8], &[u8])>
    ensures none { IfNone result (ended_lines text.now ≡ []) }
    ensures line { IfSome result (λ cut. ended_lines text.now ≡ cut.0.now ∷ ended_lines cut.1.now) }
    ensures bytes { IfSome result (λ cut. length cut.0.now + 1 + length cut.1.now ≡ length text.now) }
{
    let end = find_byte(text, b'\n')?;
    Some((&text[..end], &text[end + 1..]))
}

/// The part of an input in which the lines of its text end.
#[tactic(auto, unfolding(crate::specs::Lines::first_mebibyte), using(crate::proofs::FirstLine::take_least))]
pub fn first_mebibyte(input: &[u8]) -> &[u8]
    ensures { result.now ≡ first_mebibyte input.now }
{
    &input[..input.len().min(TEXT_LIMIT)]
}

// The tokens of a line.
ghost use Rattle.std.specs.Prelude.{◌≡◌, ◌+◌, ◌<◌, ◌≤◌, ◌==◌, [], ◌∷◌, length, drop, not, position, MatchOption};
ghost use Rattle.armcaps_text.specs.Tokens.{tokens, token_at, is_space, text_after_word};

use crate::lines::find_byte;
use armcaps_lex::next_piece;

const SPACE: u8 = b' ';

/// The tokens that a form of line can have, each empty where the line has fewer, and how many tokens there are.
#[derive(Clone, Copy)]
pub struct Tokens<T> {
    pub word: T,
    pub second: T,
    pub third: T,
    pub fourth: T,
    pub count: usize,
}

// The place of the first byte that is no space.
fn start_of(line: &[u8]) -> Option<usize>
    ensures { result ≡ position (λ byte. not (is_space byte)) line.now }
{
    line.iter().position(|byte| *byte != SPACE)
}

/// What stands after the first space that follows a line's first token.
#[tactic(auto, using(crate::proofs::TextAfterWord::text_after))]
pub fn text_after_word(line: &[u8]) -> &[u8]
    ensures { result.now ≡ text_after_word line.now }
{
    let Some(start) = start_of(line) else {
        return &[];
    };
    let line = &line[start..];
    match find_byte(line, SPACE) {
        Some(end) => &line[end + 1..],
        None => &[],
    }
}

// The first token of a line, empty where it has none, and what stands after it.
fn take_token(line: &[u8]) -> (&[u8], &[u8])
    ensures token { result.0.now ≡ token_at 0 line.now }
    ensures rest { tokens result.1.now ≡ drop 1 (tokens line.now) }
    ensures shorter { length result.1.now ≤ length line.now }
{
    match next_piece(&[SPACE], line) {
        Some((token, rest)) => (token, rest),
        None => (&[], &[]),
    }
}

// How many tokens a line has.
fn count(line: &[u8]) -> usize
    ensures count { result ≡ length (tokens line.now) }
    ensures bound { result ≤ length line.now }
{
    let mut count = 0;
    let mut rest = line;
    while let Some((_, after)) = next_piece(&[SPACE], rest) {
        count += 1;
        rest = after;
    }
    count
}

impl<'a> Tokens<&'a [u8]> {
    ghost use Rattle.armcaps_text.specs.Tokens.{tokens_of, plain_tokens, is_passed_over};

    /// Cuts a line at its spaces.
    #[tactic(auto, unfolding(crate::specs::Tokens::tokens_of))]
    pub fn of(line: &'a [u8]) -> Self
        ensures { plain_tokens result ≡ tokens_of line.now }
    {
        let (word, rest) = take_token(line);
        let (second, rest) = take_token(rest);
        let (third, rest) = take_token(rest);
        let (fourth, _) = take_token(rest);
        Tokens {
            word,
            second,
            third,
            fourth,
            count: count(line),
        }
    }

    /// Whether a line that has these tokens is passed over.
    pub fn is_passed_over(&self) -> bool
        ensures { result ≡ is_passed_over (plain_tokens self.now) }
    {
        match self.word.first() {
            Some(byte) => *byte == b'#',
            None => true,
        }
    }
}

// The numbers of a text.
ghost use Rattle.std.specs.Prelude.{◌≡◌, ◌≤◌, IfSome};
ghost use Rattle.armcaps_text.specs.Numbers.{number_of, number_up_to};

use armcaps_lex::value_of;

// A decimal number has at most this many bytes.
const DECIMAL_BYTES: usize = 20;

// A hexadecimal number has at most this many bytes, `0x` among them.
const HEXADECIMAL_BYTES: usize = 18;

/// The number that a token is: 1 to 20 decimal digits, or `0x` and 1 to 16 hexadecimal digits of either case, below
/// 2^64.
#[tactic(auto, unfolding(crate::specs::Numbers::number_of))]
pub fn number_of(token: &[u8]) -> Option<u64>
    ensures { result ≡ number_of token.now }
{
    let most = if token.starts_with(b"0x".as_slice()) {
        HEXADECIMAL_BYTES
    } else {
        DECIMAL_BYTES
    };
    if token.len() <= most {
        value_of(token)
    } else {
        None
    }
}

/// The same where it is at most this.
pub fn number_up_to(most: u32, token: &[u8]) -> Option<u32>
    ensures number { result ≡ number_up_to most token.now }
    ensures bound { IfSome result (λ number. number ≤ most) }
{
    let number = u32::try_from(number_of(token)?).ok()?;
    if number <= most { Some(number) } else { None }
}

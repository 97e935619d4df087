// Numbers by their digits.
ghost use Rattle.std.specs.Prelude.{◌≡◌, ◌*◌, ◌+◌, ◌^◌, ◌<◌, ◌≤◌, ◌&&◌, nat_lt, if◌then◌else◌, Some, None};
ghost use Rattle.std.specs.Char.{digit_value, is_digit};
ghost use Rattle.armcaps_lex.specs.Digits.{digits_number, value_of};

// The number with one more digit at its end; `None` where the byte is no digit, or the number would reach 2^64.
fn with_digit(base: u32, number: u64, byte: u8) -> Option<u64>
    requires low { 2 ≤ base }
    requires high { base ≤ 36 }
    ensures { result ≡ (if is_digit byte base && nat_lt (number * base + digit_value byte) (2 ^ 64)
        then Some (number * base + digit_value byte) else None) }
{
    let digit = char::from(byte).to_digit(base)?;
    number
        .checked_mul(u64::from(base))?
        .checked_add(u64::from(digit))
}

// The number that bytes write in a base.
#[tactic(auto, using(crate::proofs::DigitLemmas::continued_start))]
fn number_in(base: u32, digits: &[u8]) -> Option<u64>
    requires low { 2 ≤ base }
    requires high { base ≤ 36 }
    ensures { result ≡ digits_number base digits.now }
{
    if digits.is_empty() {
        return None;
    }
    let mut number = 0;
    for digit in digits {
        number = with_digit(base, number, *digit)?;
    }
    Some(number)
}

/// The number that decimal digits write, one or more of them: `None` where a byte is none of `0` to `9`, or the number
/// is not below 2^64.
pub fn decimal(digits: &[u8]) -> Option<u64>
    ensures { result ≡ digits_number 10 digits.now }
{
    number_in(10, digits)
}

/// The number that hexadecimal digits write, one or more of them, of either case and without `0x`: `None` where a byte
/// is no such digit, or the number is not below 2^64.
pub fn hexadecimal(digits: &[u8]) -> Option<u64>
    ensures { result ≡ digits_number 16 digits.now }
{
    number_in(16, digits)
}

/// The number that bytes write: decimal digits, or `0x` with a small x and hexadecimal digits of either case; at least
/// one digit and as many as there are, below 2^64.
#[tactic(auto, unfolding(crate::specs::Digits::value_of))]
pub fn value_of(bytes: &[u8]) -> Option<u64>
    ensures { result ≡ value_of bytes.now }
{
    match bytes.strip_prefix(b"0x".as_slice()) {
        Some(digits) => hexadecimal(digits),
        None => decimal(bytes),
    }
}

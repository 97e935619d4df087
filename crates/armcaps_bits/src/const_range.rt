//! A field whose place is known when the program is built.

ghost use Rattle.std.specs.Prelude.{◌≡◌, ◌+◌, ◌-◌, ◌*◌, ◌^◌, ◌<◌, IsTrue, true};
ghost use Rattle.armcaps_bits.specs.Field.{IsRange, IsPut, field_fits, unsigned_field, signed_field};

use crate::range;

/// The bits of a word from `SHIFT` on, `WIDTH` of them: an ID register's field whose place is known when the
/// program is built. A range has 1 to 32 bits and ends within the 64 bits of a word.
///
/// Source: Arm ARM DDI 0487, "Principles of the ID scheme for fields in ID registers"; Linux,
/// arch/arm64/include/asm/cpufeature.h.
pub struct Bits<const SHIFT: u32, const WIDTH: u32>;

impl<const SHIFT: u32, const WIDTH: u32> Bits<SHIFT, WIDTH> {
    /// The word with the range's bits set, and no others.
    pub fn mask() -> u64
        requires { IsRange SHIFT WIDTH }
        ensures { result ≡ (2 ^ WIDTH - 1) * 2 ^ SHIFT }
    {
        range::mask(SHIFT, WIDTH)
    }

    /// The field of `word` as an unsigned number: below `2^WIDTH`.
    pub fn unsigned(word: u64) -> u64
        requires { IsRange SHIFT WIDTH }
        ensures value { result ≡ unsigned_field SHIFT WIDTH word }
        ensures below { result < 2 ^ WIDTH }
    {
        range::unsigned(SHIFT, WIDTH, word)
    }

    /// The field of `word` as a signed number, in two's complement: from `-2^(WIDTH-1)` to below `2^(WIDTH-1)`.
    pub fn signed(word: u64) -> i64
        requires { IsRange SHIFT WIDTH }
        ensures value { result ≡ signed_field SHIFT WIDTH word }
        ensures fits { IsTrue (field_fits true WIDTH result) }
    {
        range::signed(SHIFT, WIDTH, word)
    }

    /// `word` with `value` in this field, and with every other bit as it was.
    ///
    /// Where `word` has no bit from `SHIFT` on, the answer is a sum, and it has none from the range's end on: so a
    /// register is put together from its lowest field to its highest.
    pub fn put(word: u64, value: u64) -> u64
        requires range { IsRange SHIFT WIDTH }
        requires fits { value < 2 ^ WIDTH }
        ensures put { IsPut SHIFT WIDTH value word result }
        ensures sum { word < 2 ^ SHIFT → result ≡ word + value * 2 ^ SHIFT }
        ensures below { word < 2 ^ SHIFT → result < 2 ^ (SHIFT + WIDTH) }
    {
        range::put(SHIFT, WIDTH, word, value)
    }
}

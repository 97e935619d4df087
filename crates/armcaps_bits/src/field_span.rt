//! A field whose place a table of fields gives.

ghost use Rattle.std.specs.Prelude.{◌≡◌, ◌+◌, ◌*◌, ◌^◌, ◌<◌, ◌≤◌, IsTrue};
ghost use Rattle.armcaps_bits.specs.Field.{IsRange, IsPut, field_bits, field_fits, field_value, number_of};

use crate::range;

/// A field's place in a word, as a table of fields has it: its lowest bit, its number of bits, and whether it is
/// read as a signed number. A field has 1 to 32 bits and ends within the 64 bits of a word.
///
/// Source: Arm ARM DDI 0487, "Principles of the ID scheme for fields in ID registers"; Linux,
/// arch/arm64/include/asm/cpufeature.h, `struct arm64_ftr_bits`.
#[derive(Clone, Copy, Debug, PartialEq, Eq)]
pub struct Span {
    /// The place of the lowest bit.
    pub shift: u32,
    /// The number of bits.
    pub width: u32,
    /// Whether the highest bit is a sign.
    pub signed: bool,
    pub ghost in_word: { IsRange shift width },
}

impl Span {
    /// The field of `word`, signed where the span is.
    pub fn value(&self, word: u64) -> i64
        ensures value { result ≡ field_value self.now.signed self.now.shift self.now.width word }
        ensures fits { IsTrue (field_fits self.now.signed self.now.width result) }
    {
        if self.signed {
            range::signed(self.shift, self.width, word)
        } else {
            range::unsigned(self.shift, self.width, word) as i64
        }
    }

    /// Whether some word has `value` in this field.
    pub fn fits(&self, value: i64) -> bool
        ensures { result ≡ field_fits self.now.signed self.now.width value }
    {
        if self.signed {
            let limit = 1i64 << (self.width - 1);
            -limit <= value && value < limit
        } else {
            0 <= value && value < 1i64 << self.width
        }
    }

    /// `word` with `value` in this field, and with every other bit as it was.
    ///
    /// Where `word` has no bit from the field's lowest on, the answer is a sum, and it has none from the field's end
    /// on.
    pub fn put(&self, word: u64, value: i64) -> u64
        requires { IsTrue (field_fits self.now.signed self.now.width value) }
        ensures got { field_value self.now.signed self.now.shift self.now.width result ≡ value }
        ensures put { IsPut self.now.shift self.now.width (field_bits self.now.width value) word result }
        ensures sum { word < 2 ^ self.now.shift
            → result ≡ word + field_bits self.now.width value * 2 ^ self.now.shift }
        ensures below { word < 2 ^ self.now.shift → result < 2 ^ (self.now.shift + self.now.width) }
    {
        range::put(self.shift, self.width, word, self.bits(value))
    }

    // The field's bits for a value that fits it, in two's complement.
    fn bits(&self, value: i64) -> u64
        requires { IsTrue (field_fits self.now.signed self.now.width value) }
        ensures bits { result ≡ field_bits self.now.width value }
        ensures reads { number_of self.now.signed self.now.width result ≡ value }
        ensures below { result < 2 ^ self.now.width }
    {
        value.cast_unsigned() & range::low_bits(self.width)
    }
}

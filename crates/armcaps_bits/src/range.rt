//! A bit range that is known when the program runs: what `Bits` and `Span` share.

ghost use Rattle.std.specs.Prelude.{◌≡◌, ◌+◌, ◌-◌, ◌*◌, ◌^◌, ◌<◌, IsTrue, true};
ghost use Rattle.armcaps_bits.specs.Field.{IsRange, IsPut, field_fits, unsigned_field, signed_field};

// A word with the low `width` bits set.
pub(crate) fn low_bits(width: u32) -> u64
    requires { width < 64 }
    ensures { result ≡ 2 ^ width - 1 }
{
    (1 << width) - 1
}

// The bits of the range set.
pub(crate) fn mask(shift: u32, width: u32) -> u64
    requires { IsRange shift width }
    ensures { result ≡ (2 ^ width - 1) * 2 ^ shift }
{
    low_bits(width) << shift
}

// The field's bits as a number.
pub(crate) fn unsigned(shift: u32, width: u32, word: u64) -> u64
    requires { IsRange shift width }
    ensures value { result ≡ unsigned_field shift width word }
    ensures below { result < 2 ^ width }
{
    (word >> shift) & low_bits(width)
}

// The field's bits as a number in two's complement: the shift to the right copies the field's top bit.
pub(crate) fn signed(shift: u32, width: u32, word: u64) -> i64
    requires { IsRange shift width }
    ensures value { result ≡ signed_field shift width word }
    ensures fits { IsTrue (field_fits true width result) }
{
    (word << (64 - shift - width)).cast_signed() >> (64 - width)
}

// The word with this number in the range.
pub(crate) fn put(shift: u32, width: u32, word: u64, number: u64) -> u64
    requires range { IsRange shift width }
    requires fits { number < 2 ^ width }
    ensures put { IsPut shift width number word result }
    ensures sum { word < 2 ^ shift → result ≡ word + number * 2 ^ shift }
    ensures below { word < 2 ^ shift → result < 2 ^ (shift + width) }
{
    (word & !mask(shift, width)) | (number << shift)
}

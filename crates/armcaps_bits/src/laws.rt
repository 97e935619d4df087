//! Laws of fields that hold whatever is read or put.

ghost use Rattle.std.specs.Prelude.{◌≡◌, ℕ, ℤ, Bool, true, false, pos, ◌+◌, ◌^◌, ◌<◌, ◌≤◌, IsTrue};
ghost use Rattle.armcaps_bits.specs.Field.{IsRange, IsPut, field_bits, field_fits, field_value, number_of, signed_field, unsigned_field};

/// `Bits` and `Span` agree: a span that is not signed reads what `Bits::unsigned` reads, a signed one what
/// `Bits::signed` reads, and a value that fits is read from the bits that are put for it. A put has one answer,
/// whoever makes it.
pub fn ranges_agree()
    ensures unsigned { (shift width word : ℕ)
        → field_value false shift width word ≡ pos (unsigned_field shift width word) }
    ensures signed { (shift width word : ℕ) → field_value true shift width word ≡ signed_field shift width word }
    ensures fits { (signed : Bool) (width number : ℕ) → 1 ≤ width → number < 2 ^ width
        → IsTrue (field_fits signed width (number_of signed width number)) }
    ensures bits { (signed : Bool) (width : ℕ) (value : ℤ) → 1 ≤ width → IsTrue (field_fits signed width value)
        → field_bits width value < 2 ^ width }
    ensures reads { (signed : Bool) (width : ℕ) (value : ℤ) → 1 ≤ width → IsTrue (field_fits signed width value)
        → number_of signed width (field_bits width value) ≡ value }
    ensures writes { (signed : Bool) (width number : ℕ) → 1 ≤ width → number < 2 ^ width
        → field_bits width (number_of signed width number) ≡ number }
    ensures put { (shift width number old one other : ℕ) → IsRange shift width
        → IsPut shift width number old one → IsPut shift width number old other → one ≡ other }
{}

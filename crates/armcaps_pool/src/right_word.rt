//! The word that belongs at a place of a site, told by what the words on both sides decode to.

ghost use Rattle.std.specs.Prelude.{◌≡◌, ◌+ℤ◌, ◌≤ℤ◌, ◌<ℤ◌, ◌<◌, ◌≤◌, ◌^◌, ◌-◌, ◌⊎◌, ℕ, IfSome, IsTrue, Some, Ok, Result, neg_ℤ, pos, true, false};
ghost use Rattle.armcaps_insn.specs.Decoded.{base_of, decoded};
ghost use Rattle.armcaps_bits.specs.Field.{field_bits, field_fits};
ghost use Rattle.armcaps_insn.specs.Moved.{IsMove, corrected, is_inside, offset_to};
ghost use Rattle.armcaps_pool.specs.Rightful.{IsFar, IsNear, Keeps, address_of, reaches, units_of, word_with};

use armcaps_insn::{Class, Insn};

// The word that belongs at `to` for `original`, which stands at `from` in a sequence of replacements from `low` to
// `high`; `found` is the word that stands there. A word that takes no address and a jump within its sequence stay as
// they are. Any other is the word found where that has its class, its other bits and its target, and else it is made.
pub(crate) fn right_word(original: u32, found: u32, from: u64, to: u64, low: u64, high: u64) -> u32
    requires places { IsMove from to low high }
    requires moves { (word : ℕ) × (corrected original from to low high ≡ Ok word) }
    ensures { corrected original from to low high ≡ Ok result }
{
    let insn = decode(original);
    match address(insn, from) {
        None => original,
        Some(target) => moved_word(original, insn, found, target, to, low, high),
    }
}

// The word of a replacement that takes an address: as it is where it jumps within its sequence, and else moved.
fn moved_word(
    original: u32,
    insn: Insn,
    found: u32,
    target: i64,
    to: u64,
    low: u64,
    high: u64,
) -> u32
    requires insn { insn ≡ decoded original }
    requires to { to < 2 ^ 40 }
    requires low { low < 2 ^ 40 }
    requires high { high < 2 ^ 40 }
    requires far { IsFar target }
    requires reaches { is_inside insn.class target low high ≡ false → reaches insn to target ≡ true }
    ensures stays { is_inside insn.class target low high ≡ true → result ≡ original }
    ensures moves { is_inside insn.class target low high ≡ false
        → (result ≡ word_with insn to target) ⊎ (Keeps insn (decoded found) to target × (result ≡ found)) }
{
    if jumps_inside(insn.class, target, low, high) {
        original
    } else if keeps(insn, decode(found), to, target) {
        found
    } else {
        word_with(insn, to, target)
    }
}

// Whether an instruction has the class, the other bits and, where it stands, the target.
fn keeps(insn: Insn, found: Insn, to: u64, target: i64) -> bool
    requires to { to < 2 ^ 40 }
    requires near { IsNear found.offset }
    ensures { IsTrue result → Keeps insn found to target }
{
    found.class == insn.class && found.rest == insn.rest && address(found, to) == Some(target)
}

// A word as an instruction.
fn decode(word: u32) -> Insn
    ensures value { result ≡ decoded word }
    ensures near { IsNear result.offset }
{
    Insn::decode(word)
}

// The address that an instruction takes from a place.
fn address(insn: Insn, place: u64) -> Option<i64>
    requires place { place < 2 ^ 40 }
    requires near { IsNear insn.offset }
    ensures value { result ≡ address_of insn place }
    ensures far { IfSome result IsFar }
{
    match insn.offset {
        Some(offset) => Some(target(insn.class, place, offset)),
        None => None,
    }
}

// What an offset leads to from a place.
fn target(class: Class, place: u64, offset: i64) -> i64
    requires place { place < 2 ^ 40 }
    requires low { neg_ℤ (pos (2 ^ 43)) ≤ℤ offset }
    requires high { offset ≤ℤ pos (2 ^ 43) }
    ensures value { result ≡ pos (base_of class place) +ℤ offset }
    ensures far { IsFar result }
{
    base(class, place) + offset
}

// From where an offset counts.
fn base(class: Class, place: u64) -> i64
    requires { place < 2 ^ 40 }
    ensures value { result ≡ pos (base_of class place) }
    ensures below { base_of class place < 2 ^ 40 }
{
    match class {
        Class::Page => (place / 4096 * 4096) as i64,
        _ => place as i64,
    }
}

// Whether a jump's target is in a sequence, its end included.
fn jumps_inside(class: Class, target: i64, low: u64, high: u64) -> bool
    requires low { low < 2 ^ 40 }
    requires high { high < 2 ^ 40 }
    ensures { result ≡ is_inside class target low high }
{
    match class {
        Class::Jump26 | Class::Jump19 | Class::Jump14 => {
            low as i64 <= target && target <= high as i64
        }
        Class::Page | Class::Literal | Class::Other => false,
    }
}

// The word of an instruction's class and other bits that has the target where it stands.
fn word_with(insn: Insn, place: u64, target: i64) -> u32
    requires place { place < 2 ^ 40 }
    requires far { IsFar target }
    requires reaches { reaches insn place target ≡ true }
    ensures { result ≡ word_with insn place target }
{
    let offset = target - base(insn.class, place);
    match insn.class {
        Class::Jump26 => insn.rest | bits(offset, 2, 26),
        Class::Jump19 => insn.rest | bits(offset, 2, 19) << 5,
        Class::Jump14 => insn.rest | bits(offset, 2, 14) << 5,
        Class::Page => {
            let pages = bits(offset, 12, 21);
            insn.rest | ((pages / 4 << 5) + (pages % 4 << 29))
        }
        Class::Literal | Class::Other => insn.rest,
    }
}

// The bits that stand for an offset in units of 2 ^ `scale` bytes.
fn bits(offset: i64, scale: u32, width: u32) -> u32
    requires scale { scale ≤ 12 }
    requires some { 1 ≤ width }
    requires few { width ≤ 26 }
    requires fits { IsTrue (field_fits true width (units_of scale offset)) }
    ensures value { result ≡ field_bits width (units_of scale offset) }
    ensures below { result < 2 ^ width }
{
    (units(offset, scale).cast_unsigned() & ((1 << width) - 1)) as u32
}

// An offset in units of 2 ^ `scale` bytes, rounded down.
fn units(offset: i64, scale: u32) -> i64
    requires { scale ≤ 12 }
    ensures { result ≡ units_of scale offset }
{
    offset >> scale
}

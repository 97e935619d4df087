ghost use Rattle.std.specs.Prelude.{◌≡◌, ◌-◌, ◌^◌, ◌<◌, ◌≤◌, IfSome, IsTrue, pos, ◌≤ℤ◌, ◌<ℤ◌, ◌*ℤ◌, neg_ℤ, true};
ghost use Rattle.armcaps_bits.specs.Field.{field_bits, signed_number, unsigned_field};
ghost use Rattle.armcaps_insn.specs.Immediates.{IsImmediate, bits_for, immediate, immediate_of, is_in_range, offset_bits, offset_in, offset_width, placed, rest_in, steps_in, with_offset};

use crate::instruction_class::Class;
use armcaps_bits::Span;

// Where an offset lies in its word: in the bits of `mask`, which are `width` bits from `shift` on and below these
// `low_width` bits from bit 29 on. Its unit is 2 ^ `scale` bytes.
#[derive(Clone, Copy)]
pub(crate) struct Immediate {
    mask: u32,
    shift: u32,
    width: u32,
    low_width: u32,
    scale: u32,
}

// Where the low bits of ADRP's offset lie (Arm ARM DDI 0487, `immlo`).
const LOW_SHIFT: u32 = 29;

// Lines of the table: mask, shift, width, low_width, scale.
macro_rules! lies {
    ($mask:literal $shift:literal $width:literal $low_width:literal $scale:literal) => {
        Immediate { mask: $mask, shift: $shift, width: $width, low_width: $low_width, scale: $scale }
    };
}

// Where the offset of B and BL lies.
const JUMP26: Immediate = lies!(0x03ff_ffff 0 26 0 2);

// Where the offset of each class lies, if it has one, in the order of the classes.
static IMMEDIATES: [Option<Immediate>; 6] = [
    Some(JUMP26),
    Some(lies!(0x00ff_ffe0 5 19 0 2)),
    Some(lies!(0x0007_ffe0 5 14 0 2)),
    Some(lies!(0x60ff_ffe0 5 19 2 12)),
    None,
    None,
];

impl Class {
    // Where the offset lies, if the class has one.
    pub(crate) fn immediate(self) -> Option<Immediate>
        ensures value { result ≡ immediate_of self }
        ensures holds { IfSome result IsImmediate }
    {
        IMMEDIATES[self as usize]
    }
}

// Where the offset of B and BL lies.
pub(crate) fn jump26() -> Immediate
    ensures value { result ≡ immediate 0x03ffffff 0 26 0 2 }
    ensures holds { IsImmediate result }
{
    JUMP26
}

impl Immediate {
    // The offset in bytes that a word has.
    pub(crate) fn offset(self, word: u32) -> i64
        requires { IsImmediate self }
        ensures value { result ≡ offset_in self word }
        ensures low { neg_ℤ (pos (2 ^ 43)) ≤ℤ result }
        ensures high { result ≤ℤ pos (2 ^ 43) }
    {
        in_bytes(
            signed(self.width + self.low_width, self.bits(word)),
            self.scale,
        )
    }

    // The word with the offset's bits cleared.
    pub(crate) fn rest(self, word: u32) -> u32
        ensures { result ≡ rest_in self word }
    {
        word & !self.mask
    }

    // Whether the bits can stand for an offset.
    pub(crate) fn reaches(self, offset: i64) -> bool
        requires { IsImmediate self }
        ensures { result ≡ is_in_range self offset }
    {
        let half = power(self.width + self.low_width - 1);
        in_bytes(-half, self.scale) <= offset && offset <= in_bytes(half - 1, self.scale)
    }

    // The word that has this offset, and the bits of `rest` beside it.
    pub(crate) fn with_offset(self, rest: u32, offset: i64) -> u32
        requires holds { IsImmediate self }
        requires in_range { IsTrue (is_in_range self offset) }
        ensures { result ≡ with_offset self rest offset }
    {
        rest | self.place(self.bits_for(offset))
    }

    // The offset's bits as one number.
    fn bits(self, word: u32) -> u32
        requires { IsImmediate self }
        ensures value { result ≡ offset_bits self word }
        ensures below { result < 2 ^ offset_width self }
    {
        let high = field_of(self.shift, self.width, word);
        (high << self.low_width) + field_of(LOW_SHIFT, self.low_width, word)
    }

    // The bits that stand for an offset.
    fn bits_for(self, offset: i64) -> u32
        requires holds { IsImmediate self }
        requires in_range { IsTrue (is_in_range self offset) }
        ensures value { result ≡ bits_for self offset }
        ensures below { result < 2 ^ offset_width self }
    {
        to_bits(self.width + self.low_width, self.steps(offset))
    }

    // The offset in units, of which the bits can stand for half forwards and half backwards.
    fn steps(self, offset: i64) -> i64
        requires holds { IsImmediate self }
        requires in_range { IsTrue (is_in_range self offset) }
        ensures value { result ≡ steps_in self offset }
        ensures low { neg_ℤ (pos (2 ^ (offset_width self - 1))) ≤ℤ result }
        ensures high { result <ℤ pos (2 ^ (offset_width self - 1)) }
    {
        offset >> self.scale
    }

    // The bits at their places in a word.
    fn place(self, bits: u32) -> u32
        requires holds { IsImmediate self }
        requires below { bits < 2 ^ offset_width self }
        ensures { result ≡ placed self bits }
    {
        (bits >> self.low_width << self.shift) + ((bits & ones(self.low_width)) << LOW_SHIFT)
    }
}

// A number of `width` bits in two's complement.
fn signed(width: u32, bits: u32) -> i64
    requires width { 1 ≤ width }
    requires small { width ≤ 32 }
    requires below { bits < 2 ^ width }
    ensures value { result ≡ signed_number width bits }
    ensures low { neg_ℤ (pos (2 ^ 31)) ≤ℤ result }
    ensures high { result ≤ℤ pos (2 ^ 31) }
{
    low_field(width).value(u64::from(bits))
}

// The bits that stand for a number in two's complement.
fn to_bits(width: u32, number: i64) -> u32
    requires some { 1 ≤ width }
    requires small { width ≤ 32 }
    requires low { neg_ℤ (pos (2 ^ (width - 1))) ≤ℤ number }
    requires high { number <ℤ pos (2 ^ (width - 1)) }
    ensures value { result ≡ field_bits width number }
    ensures below { result < 2 ^ width }
{
    low_field(width).put(0, number) as u32
}

// A signed field of `width` bits from bit 0 on.
fn low_field(width: u32) -> Span
    requires some { 1 ≤ width }
    requires small { width ≤ 32 }
    ensures shift { result.shift ≡ 0 }
    ensures width { result.width ≡ width }
    ensures signed { result.signed ≡ true }
{
    Span {
        shift: 0,
        width,
        signed: true,
    }
}

// A number of units of 2 ^ `scale` bytes, in bytes.
fn in_bytes(steps: i64, scale: u32) -> i64
    requires low { neg_ℤ (pos (2 ^ 31)) ≤ℤ steps }
    requires high { steps ≤ℤ pos (2 ^ 31) }
    requires scale { scale ≤ 12 }
    ensures value { result ≡ steps *ℤ pos (2 ^ scale) }
    ensures low { neg_ℤ (pos (2 ^ 43)) ≤ℤ result }
    ensures high { result ≤ℤ pos (2 ^ 43) }
{
    steps * power(scale)
}

// 2 ^ exponent.
fn power(exponent: u32) -> i64
    requires { exponent ≤ 32 }
    ensures { result ≡ pos (2 ^ exponent) }
{
    1 << exponent
}

// The bits of a word from `shift` on, `width` of them.
fn field_of(shift: u32, width: u32, word: u32) -> u32
    requires shift { shift < 32 }
    requires width { width < 32 }
    ensures value { result ≡ unsigned_field shift width word }
    ensures below { result < 2 ^ width }
{
    word >> shift & ones(width)
}

// The low `width` bits set.
fn ones(width: u32) -> u32
    requires { width < 32 }
    ensures { result ≡ 2 ^ width - 1 }
{
    (1 << width) - 1
}

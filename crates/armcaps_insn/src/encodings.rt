ghost use Rattle.std.specs.Prelude.{◌≡◌, not};
ghost use Rattle.armcaps_insn.specs.Encodings.{class_of};
ghost use Rattle.armcaps_insn.specs.Moved.{takes_no_address};

use crate::instruction_class::Class;
use crate::instruction_class::Class::{
    Jump14 as T, Jump19 as C, Jump26 as B, Literal as L, Other as O, Page as P,
};

/// NOP, the instruction that does nothing (Arm ARM DDI 0487, "NOP").
pub const NOP: u32 = 0xd503_201f;

// The class of a word by its highest byte, a line for each value of that byte's high three bits (Arm ARM DDI 0487, "A64
// instruction set encoding"). By its low five bits, from 0x10 on: ADR (L) or ADRP (P); from 0x14 on: B or BL (B), CBZ,
// CBNZ, TBZ and TBNZ (C, T), B.cond or BC.cond, and the miscellaneous branch (C, L); at 0x18 and 0x1c: literal loads
// (L). All others (O) take no address.
static CLASSES: [Class; 256] = [
    O, O, O, O, O, O, O, O, O, O, O, O, O, O, O, O, L, O, O, O, B, B, B, B, L, O, O, O, L, O, O, O,
    O, O, O, O, O, O, O, O, O, O, O, O, O, O, O, O, L, O, O, O, C, C, T, T, O, O, O, O, O, O, O, O,
    O, O, O, O, O, O, O, O, O, O, O, O, O, O, O, O, L, O, O, O, C, L, O, O, L, O, O, O, L, O, O, O,
    O, O, O, O, O, O, O, O, O, O, O, O, O, O, O, O, L, O, O, O, O, O, O, O, O, O, O, O, O, O, O, O,
    O, O, O, O, O, O, O, O, O, O, O, O, O, O, O, O, P, O, O, O, B, B, B, B, L, O, O, O, L, O, O, O,
    O, O, O, O, O, O, O, O, O, O, O, O, O, O, O, O, P, O, O, O, C, C, T, T, O, O, O, O, O, O, O, O,
    O, O, O, O, O, O, O, O, O, O, O, O, O, O, O, O, P, O, O, O, O, O, O, O, L, O, O, O, L, O, O, O,
    O, O, O, O, O, O, O, O, O, O, O, O, O, O, O, O, P, O, O, O, O, O, O, O, O, O, O, O, O, O, O, O,
];

// The class of a word.
#[tactic(auto, using(crate::proofs::HighBytes::class_at))]
pub(crate) fn class_of_word(word: u32) -> Class
    ensures { result ≡ class_of word }
{
    CLASSES[(word >> 24) as usize]
}

/// Whether a word takes an address from the place where it stands (Arm ARM DDI 0487, "A64 instruction set encoding").
pub fn takes_address(word: u32) -> bool
    ensures { result ≡ not (takes_no_address (class_of word)) }
{
    !matches!(class_of_word(word), Class::Other)
}

ghost use Rattle.std.specs.Prelude.{◌≡◌, ◌≤◌, ◌<◌, ◌^◌, pos};
ghost use Rattle.armcaps_insn.specs.Decoded.{base_of, decoded};

use crate::encodings::class_of_word;
use crate::instruction_class::Class;

/// A word as an instruction.
///
/// Source: Arm ARM DDI 0487, "A64 instruction set encoding".
#[derive(Clone, Copy, Debug, PartialEq, Eq)]
pub struct Insn {
    /// How it takes an address from the place where it stands.
    pub class: Class,
    /// The word with its offset's bits cleared, and the whole word for [`Class::Literal`] and [`Class::Other`].
    pub rest: u32,
    /// The offset in bytes from the instruction's own place, and for [`Class::Page`] from the begin of its page. None
    /// exactly for [`Class::Literal`] and [`Class::Other`].
    pub offset: Option<i64>,
}

impl Insn {
    /// The word as an instruction.
    pub fn decode(word: u32) -> Insn
        ensures { result ≡ decoded word }
    {
        let class = class_of_word(word);
        match class.immediate() {
            Some(immediate) => Insn {
                class,
                rest: immediate.rest(word),
                offset: Some(immediate.offset(word)),
            },
            None => Insn {
                class,
                rest: word,
                offset: None,
            },
        }
    }
}

impl Class {
    // From where an offset counts.
    pub(crate) fn base(self, place: u64) -> i64
        requires { place < 2 ^ 40 }
        ensures value { result ≡ pos (base_of self place) }
        ensures below { base_of self place < 2 ^ 40 }
    {
        match self {
            Class::Page => (place / 4096 * 4096) as i64,
            _ => place as i64,
        }
    }
}

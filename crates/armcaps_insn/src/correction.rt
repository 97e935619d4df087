ghost use Rattle.std.specs.Prelude.{◌≡◌, IfOk, ◌<◌, ◌≤◌, ◌^◌, ◌+ℤ◌, ◌≤ℤ◌, neg_ℤ, pos};
ghost use Rattle.armcaps_insn.specs.Decoded.{base_of};
ghost use Rattle.armcaps_insn.specs.Moved.{IsMove, StaysOrMoves, corrected, is_inside, offset_to};

use crate::encodings::class_of_word;
use crate::instruction_class::Class;

/// Why a word can't move.
#[derive(Clone, Copy, Debug, PartialEq, Eq)]
pub enum FixRefused {
    /// It takes an address in a way that isn't followed.
    Literal { word: u32 },
    /// The offset in bytes that it needs at its new place is out of its class's range.
    Range { offset: i64 },
}

/// The word that stands at `to` for a word which stands at `from`, in a sequence of replacements from `low` to `high`
/// (Linux, arch/arm64/kernel/alternative.c, `get_alt_insn`). A jump whose target is in the sequence, its end included,
/// and a word that takes no address stay as they are. Any other jump and ADRP keep their target.
///
/// All places are offsets in bytes from the image's first byte, which is loaded at a multiple of 4096.
pub fn correct(word: u32, from: u64, to: u64, low: u64, high: u64) -> Result<u32, FixRefused>
    requires { IsMove from to low high }
    ensures value { result ≡ corrected word from to low high }
    ensures moved { IfOk result (λ new. StaysOrMoves word from new to low high) }
{
    let class = class_of_word(word);
    let Some(immediate) = class.immediate() else {
        return match class {
            Class::Literal => Err(FixRefused::Literal { word }),
            _ => Ok(word),
        };
    };
    let target = class.target(from, immediate.offset(word));
    if class.jumps_inside(target, low, high) {
        return Ok(word);
    }
    let offset = class.offset_to(to, target);
    if immediate.reaches(offset) {
        Ok(immediate.with_offset(immediate.rest(word), offset))
    } else {
        Err(FixRefused::Range { offset })
    }
}

impl Class {
    // What an offset leads to from a place.
    fn target(self, place: u64, offset: i64) -> i64
        requires place { place < 2 ^ 40 }
        requires low { neg_ℤ (pos (2 ^ 43)) ≤ℤ offset }
        requires high { offset ≤ℤ pos (2 ^ 43) }
        ensures value { result ≡ pos (base_of self place) +ℤ offset }
        ensures low { neg_ℤ (pos (2 ^ 44)) ≤ℤ result }
        ensures high { result ≤ℤ pos (2 ^ 44) }
    {
        self.base(place) + offset
    }

    // The offset that leads from a place to a target.
    fn offset_to(self, place: u64, target: i64) -> i64
        requires place { place < 2 ^ 40 }
        requires low { neg_ℤ (pos (2 ^ 44)) ≤ℤ target }
        requires high { target ≤ℤ pos (2 ^ 44) }
        ensures value { result ≡ offset_to self place target }
    {
        target - self.base(place)
    }

    // Whether a jump's target is in a sequence, its end included. In one comparison: on which side of the sequence a
    // target lies can't be foretold, and it isn't asked.
    fn jumps_inside(self, target: i64, low: u64, high: u64) -> bool
        requires low { low < 2 ^ 40 }
        requires high { high < 2 ^ 40 }
        requires order { low ≤ high }
        ensures { result ≡ is_inside self target low high }
    {
        match self {
            Class::Jump26 | Class::Jump19 | Class::Jump14 => target
                == target.max(low as i64).min(high as i64),
            Class::Page | Class::Literal | Class::Other => false,
        }
    }
}

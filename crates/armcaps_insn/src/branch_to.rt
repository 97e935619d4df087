ghost use Rattle.std.specs.Prelude.{◌≡◌, ◌<◌, ◌≤ℤ◌, ◌<ℤ◌, ◌^◌, IfSome, neg_ℤ, pos};
ghost use Rattle.armcaps_insn.specs.Moved.{IsBranch, IsPlace, branch_to};

use crate::immediates::jump26;

// B without its offset (Arm ARM DDI 0487, "B").
const B: u32 = 0x1400_0000;

/// The B that at `from` has the target `to`. None exactly where no B there has it: the offset from the one to the other
/// is no multiple of 4, or it is not from -2^27 to 2^27 - 4.
///
/// Both are offsets in bytes from the image's first byte.
pub fn branch_word(from: u64, to: i64) -> Option<u32>
    requires place { IsPlace from }
    requires low { neg_ℤ (pos (2 ^ 40)) ≤ℤ to }
    requires high { to ≤ℤ pos (2 ^ 41) }
    ensures value { result ≡ branch_to from to }
    ensures branch { IfSome result (IsBranch from to) }
{
    let immediate = jump26();
    let offset = to - from as i64;
    if offset % 4 != 0 {
        return None;
    }
    if immediate.reaches(offset) {
        Some(immediate.with_offset(B, offset))
    } else {
        None
    }
}

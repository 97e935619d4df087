ghost use Rattle.std.specs.Prelude.{◌≡◌, ◌+◌, ◌*◌, ◌/◌, ◌%◌, ◌^◌, ◌<◌, IfSome};
ghost use Rattle.armcaps_enc.specs.IdReads.{id_read};

use crate::encoding::encode;

/// An instruction word that reads a register of the space of ID registers: MRS with op0 = 3 and op1 = 0.
///
/// Source: Arm ARM DDI 0487, "MRS"; Linux, arch/arm64/kernel/cpufeature.c, `mrs_hook`.
#[derive(Clone, Copy, Debug, PartialEq, Eq)]
pub struct MrsWord {
    /// The number of the register that is read, whether or not a register has it.
    pub id: u32,
    /// The number of the general-purpose register that gets the value, from 0 to 31; 31 is XZR.
    pub rt: u8,
}

impl MrsWord {
    /// Reads an instruction word; `None` where it is no MRS, or one with another op0 or op1.
    pub fn read(word: u32) -> Option<MrsWord>
        ensures value { result ≡ id_read word }
        ensures bits { IfSome result (λ read. read.id ≡ 0x180000 + word / 2 ^ 5 % 2 ^ 11 * 2 ^ 5) }
        ensures target { IfSome result (λ read. read.rt < 32) }
    {
        if word >> 16 != 0xd538 {
            return None;
        }
        Some(MrsWord {
            id: encode(3, 0, (word >> 12) & 15, (word >> 8) & 15, (word >> 5) & 7),
            rt: (word & 31) as u8,
        })
    }
}

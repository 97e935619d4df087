ghost use Rattle.std.specs.Prelude.{◌≡◌, ◌≢◌, length, replicate, slice_set};
ghost use Rattle.armcaps_enc.specs.declared.register.SysReg.{SysReg};
ghost use Rattle.armcaps_enc.specs.Registers.{place_of};
ghost use Rattle.armcaps_tables.specs.Core.{core_word};

use armcaps_enc::SysReg;
use std::marker::Model;

/// What a core tells of itself: the words of its 17 registers, 64 bits each, and the SVE vector lengths that it has.
/// Contracts see the list of the words, in the registers' order, and the lengths as a number.
#[derive(Clone, Copy)]
pub struct CoreRegs {
    words: [u64; 17],
    vls: u16,
}

impl Model for CoreRegs {
    ghost use Rattle.armcaps_tables.specs.Core.{Core};

    ghost Value = { Core };

    ghost view = { λ core. record { words = core.words; lengths = core.vls } };

    ghost inverse = { λ core. record { words = core.words; vls = core.lengths } };
}

impl CoreRegs {
    /// A core whose registers are all 0, and which has no vector length.
    pub fn zero() -> Self
        ensures { result ≡ record { words = replicate 17 0; lengths = 0 } }
    {
        CoreRegs {
            words: [0; 17],
            vls: 0,
        }
    }

    /// The word of a register.
    pub fn get(&self, reg: SysReg) -> u64
        ensures word { result ≡ core_word self.now reg }
        ensures length { length self.now.words ≡ 17 }
    {
        self.words[reg.place()]
    }

    /// Gives a register its word. The other registers and the vector lengths stay.
    pub fn set(&mut self, reg: SysReg, word: u64)
        ensures set { self.new ≡ record self.old { words = slice_set self.old.words (place_of reg) word } }
        ensures length { length self.new.words ≡ 17 }
        ensures here { core_word self.new reg ≡ word }
        ensures others { (other : SysReg) → other ≢ reg → core_word self.new other ≡ core_word self.old other }
    {
        self.words[reg.place()] = word;
    }

    /// The vector lengths that the core has: bit q - 1 stands for vectors of q times 128 bits.
    pub fn vls(&self) -> u16
        ensures { result ≡ self.now.lengths }
    {
        self.vls
    }

    /// Gives the core its vector lengths. The registers stay.
    pub fn set_vls(&mut self, vls: u16)
        ensures { self.new ≡ record self.old { lengths = vls } }
    {
        self.vls = vls;
    }
}

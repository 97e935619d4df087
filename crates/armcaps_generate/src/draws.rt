// Numbers, and what is drawn by them.
ghost use Rattle.std.specs.Prelude.{◌≡◌, ◌++◌, IfOk, OnOk};
ghost use Rattle.armcaps_generate.specs.Alternatives.{alternative_drawn, instruction_drawn};
ghost use Rattle.armcaps_generate.specs.Cores.{core_drawn, core_for};
ghost use Rattle.armcaps_generate.specs.Draws.{number_drawn, several};

use crate::alternative::Alternative;
use crate::instruction::Instruction;
use armcaps_caps::CAPABILITIES;
use armcaps_enc::SysReg;
use armcaps_tables::CoreRegs;
use std::alloc::{AllocError, Global};

/// A generator of numbers.
#[derive(Drop)]
pub struct Draws {
    /// The state after the last draw.
    pub state: u64,
}

// The core for a number that was drawn.
pub fn core_for(number: u32) -> CoreRegs
    ensures { result ≡ core_for number }
{
    let midr = if number % 2 == 0 {
        0x410f_d034
    } else {
        0x410f_d092
    };
    let mut core = CoreRegs::zero();
    core.set(SysReg::MidrEl1, midr);
    core.set(SysReg::IdAa64Pfr0El1, 0x2222);
    core.set(SysReg::IdAa64Dfr0El1, 0x1030_5106);
    core.set(SysReg::IdAa64Isar0El1, 0x11120);
    core.set(SysReg::IdAa64Mmfr0El1, 0x1122);
    core.set(SysReg::CtrEl0, 0x8444_8004);
    core.set(SysReg::DczidEl0, 4);
    core
}

impl Draws {
    // The next number.
    fn number(&mut self) -> u32
        ensures { number_drawn self.old.state ≡ record { value = result; state = self.new.state } }
    {
        self.state = self
            .state
            .wrapping_mul(6_364_136_223_846_793_005)
            .wrapping_add(1_442_695_040_888_963_407);
        (self.state >> 33) as u32
    }

    // The next core.
    fn core(&mut self) -> CoreRegs
        ensures { core_drawn self.old.state ≡ record { value = result; state = self.new.state } }
    {
        core_for(self.number())
    }

    /// Adds so many cores.
    pub fn push_cores(&mut self, cores: &mut Vec<CoreRegs>, count: u32) -> Result<(), AllocError>
        ensures cores { OnOk result (cores.new.items
            ≡ cores.old.items ++ (several core_drawn count self.old.state).value) }
        ensures state { OnOk result (self.new.state ≡ (several core_drawn count self.old.state).state) }
    {
        for _ in 0..count {
            cores.push(self.core())?;
        }
        Ok(())
    }

    // The next instruction.
    fn instruction(&mut self) -> Instruction
        ensures { instruction_drawn self.old.state ≡ record { value = result; state = self.new.state } }
    {
        match self.number() % 4 {
            0 => Instruction::Move(self.number()),
            1 => Instruction::Call(self.number()),
            2 => Instruction::Page(self.number()),
            _ => Instruction::Nop,
        }
    }

    // So many instructions.
    fn instructions(&mut self, alloc: Global, count: u32) -> Result<Vec<Instruction>, AllocError>
        ensures { IfOk result (λ drawn. several instruction_drawn count self.old.state
            ≡ record { value = drawn.items; state = self.new.state }) }
    {
        let mut drawn = Vec::new(alloc);
        for _ in 0..count {
            drawn.push(self.instruction())?;
        }
        Ok(drawn)
    }

    // The next alternative.
    fn alternative(&mut self, alloc: Global) -> Result<Alternative, AllocError>
        ensures { IfOk result (λ drawn. alternative_drawn self.old.state
            ≡ record { value = drawn; state = self.new.state }) }
    {
        let count = 1 + self.number() % 4;
        let number = self.number() % u32::from(CAPABILITIES);
        let instructions = self.instructions(alloc, count)?;
        Ok(Alternative {
            number: number as u16,
            instructions,
        })
    }

    /// So many alternatives.
    pub fn alternatives(
        &mut self,
        alloc: Global,
        count: u32,
    ) -> Result<Vec<Alternative>, AllocError>
        ensures { IfOk result (λ drawn. (several alternative_drawn count self.old.state).value ≡ drawn.items) }
    {
        let mut drawn = Vec::new(alloc);
        for _ in 0..count {
            drawn.push(self.alternative(alloc)?)?;
        }
        Ok(drawn)
    }
}

//! Laws of the lists of registers.

ghost use Rattle.std.specs.Prelude.{◌≡◌};
ghost use Rattle.armcaps_enc.specs.Registers.{registers, tracked};

use crate::register::SysReg;

/// [`SysReg::ALL`] and [`SysReg::TRACKED`] are the lists of the definitions, in their order.
pub fn lists_agree()
    ensures all { SysReg.ALL ≡ registers }
    ensures tracked { SysReg.TRACKED ≡ tracked }
{}

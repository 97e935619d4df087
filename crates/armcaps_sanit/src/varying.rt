//! Where a core differs from the boot core.

ghost use Rattle.std.specs.Prelude.{◌≡◌};
ghost use Rattle.armcaps_sanit.specs.Varying.{core_varies, word_varies};

use armcaps_enc::SysReg;
use armcaps_tables::{CoreRegs, strict_mask};

/// Whether the core has another value than the boot core in some strict field of the register: those whose difference
/// is reported (Linux, `check_update_ftr_reg`). False for a register without fields.
pub fn varies(boot: &CoreRegs, core: &CoreRegs, reg: SysReg) -> bool
    ensures { result ≡ core_varies boot.now core.now reg }
{
    words_vary(reg, boot.get(reg), core.get(reg))
}

/// Whether two words of a register differ in some strict field.
pub fn words_vary(reg: SysReg, one: u64, other: u64) -> bool
    ensures { result ≡ word_varies reg one other }
{
    let strict = strict_mask(reg);
    one & strict != other & strict
}

ghost use Rattle.std.specs.Prelude.{◌≡◌, ◌<◌};
ghost use Rattle.armcaps_enc.specs.Registers.{encoded};

/// One number of the five by which an instruction names a system register (Linux, `sys_reg`).
pub(crate) fn encode(op0: u32, op1: u32, crn: u32, crm: u32, op2: u32) -> u32
    requires op0 { op0 < 4 }
    requires op1 { op1 < 8 }
    requires crn { crn < 16 }
    requires crm { crm < 16 }
    requires op2 { op2 < 8 }
    ensures { result ≡ encoded op0 op1 crn crm op2 }
{
    (op0 << 19) + (op1 << 16) + (crn << 12) + (crm << 8) + (op2 << 5)
}

use super::*;

// From the tables of system register encodings of the Arm manual.
#[test]
fn registers_have_numbers_and_names(rt: HostRuntime) {
    assert_eq!(rt; SysReg::MidrEl1.number(), 0x18_0000);
    assert_eq!(rt; SysReg::of_number(0x1b_0020), Some(SysReg::CtrEl0));
    assert_eq!(rt; SysReg::of_number(0x1b_00e0), Some(SysReg::DczidEl0));
    assert_eq!(rt; SysReg::of_number(0x18_0100), None);
    assert_eq!(rt;
        SysReg::of_name(b"id_aa64pfr0_el1"),
        Some(SysReg::IdAa64Pfr0El1)
    );
    assert_eq!(rt; SysReg::of_name(b"id_aa64pfr0"), None);
    assert_eq!(rt; SysReg::of_name(b"ID_AA64PFR0_EL1"), None);
    assert_eq!(rt; SysReg::IdAa64Zfr0El1.short_name(), "id_aa64zfr0");
    assert_eq!(rt; SysReg::CtrEl0.short_name(), "ctr");
    assert!(rt; SysReg::IdAa64Mmfr3El1.is_id_register() && !SysReg::DczidEl0.is_id_register());
    lists_agree();
}

// As an assembler writes `mrs x5, id_aa64isar0_el1` and its like.
#[test]
fn words_that_read_registers(rt: HostRuntime) {
    // ID_AA64ISAR0_EL1 to X5
    assert_eq!(rt;
        MrsWord::read(0xd538_0605),
        Some(MrsWord {
            id: 0x18_0600,
            rt: 5
        })
    );
    // MPIDR_EL1 to X0
    assert_eq!(rt;
        MrsWord::read(0xd538_00a0),
        Some(MrsWord {
            id: 0x18_00a0,
            rt: 0
        })
    );
    // ID_AA64MMFR0_EL1 to XZR
    assert_eq!(rt;
        MrsWord::read(0xd538_071f),
        Some(MrsWord {
            id: 0x18_0700,
            rt: 31
        })
    );
    // CRn 15, CRm 15, op2 7 to X30: a number that no register has
    assert_eq!(rt;
        MrsWord::read(0xd538_fffe),
        Some(MrsWord {
            id: 0x18_ffe0,
            rt: 30
        })
    );
    // MSR, which writes
    assert_eq!(rt; MrsWord::read(0xd518_0605), None);
    // CTR_EL0, where op1 is 3
    assert_eq!(rt; MrsWord::read(0xd53b_0023), None);
    // NOP
    assert_eq!(rt; MrsWord::read(0xd503_201f), None);
}

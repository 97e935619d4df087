//! Two cores that differ, before and after finalisation.

use super::*;

// Two cores that differ in one register, the second of which comes before finalisation or after it.
#[test]
fn two_cores(rt: HostRuntime) -> Result<(), Fail> {
    let cases: [(SysReg, u64, u64, [StepLine; 2], &[&str]); 14] = [
        (
            SysReg::IdAa64Isar0El1,
            0x1000_1021_1120,
            0x1_1120,
            EARLY,
            &[
                "core 1 early",
                "reg id_aa64isar0_el1 0x0000000000011120",
                "varies id_aa64isar0_el1",
                "!cap 7 HAS_LSE_ATOMICS",
                "hwcap 0x00000000000008fb",
            ],
        ),
        (
            SysReg::IdAa64Pfr0El1,
            0,
            0xf_0000,
            EARLY,
            &[
                "reg id_aa64pfr0_el1 0x00000000000f0000",
                "!cap 41 HAS_FPSIMD",
                "hwcap 0x0000000000000802",
            ],
        ),
        (
            SysReg::CtrEl0,
            0x8444_8004,
            0x8044_8004,
            EARLY,
            &[
                "reg ctr_el0 0x0000000080448004",
                "cap 42 MISMATCHED_CACHE_TYPE",
            ],
        ),
        (
            SysReg::CtrEl0,
            0x8444_8004,
            0x8544_8004,
            EARLY,
            &[
                "reg ctr_el0 0x0000000085448004",
                "cap 42 MISMATCHED_CACHE_TYPE",
            ],
        ),
        (
            SysReg::CtrEl0,
            0x8444_c004,
            0x8444_4004,
            EARLY,
            &[
                "reg ctr_el0 0x0000000084448004",
                "!varies ctr_el0",
                "!cap 42 MISMATCHED_CACHE_TYPE",
            ],
        ),
        (
            SysReg::CtrEl0,
            0x8444_8004,
            0x8443_8004,
            LATE,
            &[
                "core 1 parked cap 42 MISMATCHED_CACHE_TYPE",
                "reg ctr_el0 0x0000000084448004",
                "!varies ctr_el0",
            ],
        ),
        (
            SysReg::CtrEl0,
            0x8444_c004,
            0x8444_8004,
            LATE,
            &["core 1 late", "reg ctr_el0 0x0000000084448004"],
        ),
        (
            SysReg::IdAa64Isar0El1,
            0x1021_1120,
            0x1_1120,
            LATE,
            &[
                "core 1 parked cap 7 HAS_LSE_ATOMICS",
                "reg id_aa64isar0_el1 0x0000000010211120",
                "!varies id_aa64isar0_el1",
            ],
        ),
        (
            SysReg::MidrEl1,
            0x410f_d034,
            0x410f_d034,
            EARLY,
            &["cap 43 WORKAROUND_843419", "cap 44 WORKAROUND_845719"],
        ),
        (
            SysReg::IdAa64Isar0El1,
            0x1_1120,
            0x1_1020,
            LATE,
            &["core 1 parked hwcap sha1"],
        ),
        (
            SysReg::IdAa64Pfr1El1,
            0x300,
            0x200,
            EARLY,
            &[
                "core 1 parked cap 6 MTE_ASYMM",
                "reg id_aa64pfr1_el1 0x0000000000000300",
                "hwcap2 0x0000000000440000",
            ],
        ),
        (
            SysReg::IdAa64Isar1El1,
            0x10,
            0x100,
            EARLY,
            &["core 1 parked cap 2 HAS_ADDRESS_AUTH_ARCH_QARMA5"],
        ),
        (
            SysReg::IdAa64Pfr0El1,
            0x11_0000,
            0x11_0000,
            EARLY,
            &[
                "hwcap 0x0000000000000e03",
                "flags fp asimd fphp asimdhp cpuid",
            ],
        ),
        (
            SysReg::IdAa64Isar1El1,
            0x1100_0010,
            0x1100_0010,
            EARLY,
            &["hwcap 0x00000000c0000803", "flags fp asimd cpuid paca pacg"],
        ),
    ];
    for (reg, boot, other, steps, lines) in cases {
        let cores = [core(reg, boot), core(reg, other)];
        let report = report_after(&rt, rt.alloc(), &cores, without_overrides(), &steps)?;
        tells(&rt, &report, lines);
    }
    Ok(())
}

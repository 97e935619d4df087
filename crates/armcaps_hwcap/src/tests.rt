use super::*;
use armcaps_enc::SysReg;
use armcaps_sanit::System;
use armcaps_tables::{CoreRegs, Overrides, count};
use std::test::Fail;

// A core with a word in one register, and 0 in all others.
fn core(reg: SysReg, word: u64) -> CoreRegs {
    let mut core = CoreRegs::zero();
    core.set(reg, word);
    core
}

// The two words over a boot core and a second core that have these words in one register.
#[test]
fn words_over_cores(rt: HostRuntime) {
    let pfr0 = SysReg::IdAa64Pfr0El1;
    let isar0 = SysReg::IdAa64Isar0El1;
    let machines = [
        (pfr0, 0, 0, 0x803, 0),
        (pfr0, 0x11_0000, 0x11_0000, 0xe03, 0),
        (pfr0, 0, 0xf_0000, 0x802, 0),
        (isar0, 0x1_1120, 0x1_1120, 0x8fb, 0),
        (isar0, 0x1000_1021_1120, 0x1_1120, 0x8fb, 0),
        (isar0, 0x1_1120, 0x1_1020, 0x8db, 0),
        (
            SysReg::IdAa64Isar1El1,
            0x1100_0010,
            0x1100_0010,
            0xc000_0803,
            0,
        ),
        (SysReg::IdAa64Isar1El1, 0x10, 0x20, 0x803, 0),
        (SysReg::IdAa64Pfr1El1, 0x300, 0x300, 0x803, 0x44_0000),
        (SysReg::IdAa64Pfr1El1, 0x300, 0x200, 0x803, 0x4_0000),
        (
            SysReg::IdAa64Isar2El1,
            0x1_0002,
            0x1_0002,
            0x803,
            0x800_8000_0000,
        ),
    ];
    for (reg, boot, other, hwcap, hwcap2) in machines {
        let mut system = System::new(&core(reg, boot), &Overrides::none());
        system.admit(&core(reg, other));
        assert_eq!(rt; of_system(&system), HwSet { hwcap, hwcap2 });
    }
}

// A core that has less than what is advertised: sha1 stands at place 4, cpuid at 10, and ssbs at 27.
#[test]
fn cores_have_hwcaps(rt: HostRuntime) -> Result<(), Fail> {
    let none = Overrides::none();
    let with = core(SysReg::IdAa64Isar0El1, 0x1_1120);
    let without = core(SysReg::IdAa64Isar0El1, 0x1_1020);
    let set = of_system(&System::new(&with, &none));
    assert!(rt; set.contains(4) && core_has(4, &none, &with) && !core_has(4, &none, &without));
    assert!(rt; set.contains(10) && core_has(10, &none, &without) && !set.contains(27));

    assert!(rt; 1 < count(SysReg::IdAa64Pfr1El1));
    let mut one = Overrides::none();
    one.set(SysReg::IdAa64Pfr1El1, 1, 1);
    let ssbs = core(SysReg::IdAa64Pfr1El1, 0x20);
    assert!(rt; core_has(27, &none, &ssbs) && !core_has(27, &one, &ssbs));

    let paca = hw_row(29).ok_or("no row")?;
    assert_eq!(rt; paca.name, "paca");
    assert_eq!(rt; paca.fields.len(), 3);
    assert!(rt; hw_row(57).is_none());
    hwcaps_hold();
    laws::each_core_has_what_is_advertised();
    Ok(())
}

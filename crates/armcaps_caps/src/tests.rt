use super::*;
use armcaps_enc::SysReg;
use armcaps_sanit::System;
use armcaps_tables::{CoreRegs, Overrides, count};
use bitflags::Flags;
use std::test::Fail;

// A core with these words in its registers, and 0 in all others.
fn core(words: &[(SysReg, u64)]) -> CoreRegs {
    let mut core = CoreRegs::zero();
    for (reg, word) in words {
        core.set(*reg, *word);
    }
    core
}

// Some cores and the numbers of the capabilities that they have, where each is its own boot core.
#[test]
fn cores_have_their_capabilities(rt: HostRuntime) {
    let midr = SysReg::MidrEl1;
    let revidr = SysReg::RevidrEl1;
    let pfr0 = SysReg::IdAa64Pfr0El1;
    let isar0 = SysReg::IdAa64Isar0El1;
    let cores: [(&[(SysReg, u64)], &[u16]); 8] = [
        (&[], &[0, 1, 41]),
        (&[(pfr0, 0xf_0000)], &[0, 1]),
        (&[(isar0, 0x1021_1120)], &[0, 1, 7, 8, 41]),
        (&[(midr, 0x410f_d034)], &[0, 1, 41, 43, 44]),
        (&[(midr, 0x410f_d034), (revidr, 0x100)], &[0, 1, 41, 44]),
        (&[(SysReg::IdAa64Isar1El1, 0x10)], &[0, 1, 2, 41]),
        (
            &[(midr, 0x410f_d034), (pfr0, 0x2222), (isar0, 0x1_1120)],
            &[0, 1, 8, 41, 43, 44],
        ),
        (
            &[(midr, 0x410f_d092), (pfr0, 0x2222), (isar0, 0x1_1120)],
            &[0, 1, 8, 41, 48],
        ),
    ];
    let overrides = Overrides::none();
    for (words, numbers) in cores {
        let core = core(words);
        for number in 0..53 {
            assert_eq!(rt;
                has(number, &core, &core, &overrides, core.get(SysReg::CtrEl0)),
                numbers.contains(&number),
                "{number}"
            );
        }
    }
}

// What decides beside the core itself: the boot core, the cache type compared with, and an override.
#[test]
fn others_decide_too(rt: HostRuntime) {
    let none = Overrides::none();
    let boot = core(&[
        (SysReg::IdAa64Isar1El1, 0x10),
        (SysReg::CtrEl0, 0x8444_8004),
    ]);
    let other = core(&[
        (SysReg::IdAa64Isar1El1, 0x20),
        (SysReg::CtrEl0, 0x8443_8004),
    ]);
    assert!(rt; has(2, &boot, &boot, &none, 0) && !has(2, &boot, &other, &none, 0));
    assert!(rt;
        has(42, &boot, &other, &none, 0x8444_8004) && !has(42, &boot, &other, &none, 0x8443_c004)
    );

    let sve = core(&[(SysReg::IdAa64Pfr0El1, 0x1_0000_0000)]);
    assert!(rt; 8 < count(SysReg::IdAa64Pfr0El1));
    let mut off = Overrides::none();
    off.set(SysReg::IdAa64Pfr0El1, 8, 0);
    let mut raised = Overrides::none();
    raised.set(SysReg::IdAa64Pfr0El1, 8, 2);
    assert!(rt; has(36, &sve, &sve, &none, 0) && has(36, &sve, &sve, &raised, 0));
    assert!(rt; !has(36, &sve, &sve, &off, 0));

    let mut system = System::new(&core(&[]), &none);
    assert!(rt; system_has(1, &system) && system_has(41, &system) && !system_has(8, &system));
    system.admit(&core(&[(SysReg::IdAa64Pfr0El1, 0xf_0000)]));
    assert!(rt; !system_has(41, &system));
}

// Whether a core that comes up later conflicts: by the number, what is enabled and what the core has.
#[test]
fn later_cores_conflict(rt: HostRuntime) {
    let cases = [
        (7, true, false, true),
        (43, false, true, true),
        (43, true, false, false),
        (7, false, true, false),
        (22, true, false, false),
        (22, false, true, false),
        (5, true, false, true),
        (5, false, true, true),
    ];
    for (number, enabled, present, conflicts) in cases {
        assert_eq!(rt; conflict(number, enabled, present), conflicts, "{number}");
    }
}

#[test]
fn rows_are_found(rt: HostRuntime) -> Result<(), Fail> {
    let atomics = cap(7).ok_or("no row")?;
    assert_eq!(rt; atomics.name, "HAS_LSE_ATOMICS");
    assert_eq!(rt; atomics.flags.bits(), 12);
    assert!(rt; cap(53).is_none());
    assert_eq!(rt; of_name(b"HAS_ARMv8_4_TTL"), Some(24));
    assert_eq!(rt; of_name(b"SVE2"), None);
    assert!(rt; is_system_scope(7) && is_boot_scope(5) && is_local_scope(22) && !is_local_scope(5));
    assert!(rt; is_panic(5) && is_permitted(7) && is_optional(43));

    let mut set = CapSet::empty();
    set.insert(52);
    assert!(rt; set.contains(52) && !set.contains(51) && !set.contains(60000));
    capabilities_hold();
    laws::each_core_has_what_all_have();
    laws::cache_types_compare();
    laws::classes_hold();
    Ok(())
}

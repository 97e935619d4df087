use super::*;
use armcaps_enc::SysReg;
use armcaps_rule::merge;
use std::test::Fail;

#[test]
fn tables_name_their_fields(rt: HostRuntime) -> Result<(), Fail> {
    assert_eq!(rt; count(SysReg::MpidrEl1), 0);
    assert_eq!(rt; count(SysReg::IdAa64Isar0El1), 14);
    assert_eq!(rt; find(SysReg::IdAa64Isar0El1, b"atomic"), Some(4));
    assert_eq!(rt; find(SysReg::IdAa64Isar0El1, b"fp"), None);

    let floating_point = row(SysReg::IdAa64Pfr0El1, 4).ok_or("no row")?;
    assert_eq!(rt; floating_point.name, "fp");
    assert_eq!(rt; floating_point.span.shift, 16);
    assert!(rt; floating_point.span.signed && floating_point.visible && floating_point.strict);
    assert_eq!(rt; floating_point.safe, -1);
    assert!(rt; row(SysReg::DczidEl0, 2).is_none());
    tables_hold();
    Ok(())
}

// On a command line `id_aa64isar0.aes=0x11` is cut to 1, and `id_aa64pfr0.fp=0x1f` to 15, which is -1 there.
#[test]
fn words_and_overrides_are_kept(rt: HostRuntime) {
    let mut core = CoreRegs::zero();
    core.set(SysReg::CtrEl0, 0x8444_c004);
    assert_eq!(rt; core.get(SysReg::CtrEl0), 0x8444_c004);
    assert_eq!(rt; core.get(SysReg::DczidEl0), 0);

    core.set_vls(0b11);
    core.set(SysReg::DczidEl0, 4);
    assert_eq!(rt; core.vls(), 3);
    assert_eq!(rt; CoreRegs::zero().vls(), 0);

    let mut overrides = Overrides::none();
    assert!(rt; 4 < count(SysReg::IdAa64Pfr0El1) && 0 < count(SysReg::IdAa64Isar0El1));
    overrides.set(SysReg::IdAa64Isar0El1, 0, 0x11);
    overrides.set(SysReg::IdAa64Pfr0El1, 4, 0x1f);
    assert_eq!(rt; overrides.get(SysReg::IdAa64Isar0El1, 0), Some(1));
    assert_eq!(rt; overrides.get(SysReg::IdAa64Pfr0El1, 4), Some(-1));
}

// Two words of a register and their merge: words of real cores and of cores that lack a feature.
const MERGES: [(SysReg, u64, u64, u64); 14] = [
    // the granule of write-backs is told by one core alone, or by both
    (SysReg::CtrEl0, 0x8444_8004, 0x8044_8004, 0x8044_8004),
    (SysReg::CtrEl0, 0x8444_8004, 0x8544_8004, 0x8544_8004),
    // two policies of the instruction cache become the safe one
    (SysReg::CtrEl0, 0x8444_c004, 0x8444_4004, 0x8444_8004),
    (SysReg::CtrEl0, 0x8444_c004, 0x8444_c004, 0x8444_c004),
    // floating point is absent on one core: -1 is below 0
    (SysReg::IdAa64Pfr0El1, 0, 0xf_0000, 0xf_0000),
    (SysReg::IdAa64Pfr0El1, 0x1100_2222, 0x2222, 0x2222),
    (SysReg::IdAa64Isar0El1, 0x1000_1021_1120, 0x1_1120, 0x1_1120),
    // pointer authentication of two kinds is none; a bit outside all fields is dropped
    (SysReg::IdAa64Isar1El1, 0x10, 0x100, 0),
    (SysReg::IdAa64Pfr1El1, 0x10_0000_0300, 0x200, 0x200),
    // bits that every core must have
    (
        SysReg::IdAa64Smfr0El1,
        1 << 63,
        (1 << 63) | (1 << 32),
        1 << 63,
    ),
    (SysReg::IdAa64Dfr0El1, 0x1030_5106, 0x1030_5107, 0x1030_5106),
    // the higher value counts
    (SysReg::IdAa64Mmfr1El1, 0x100_0000, 0, 0x100_0000),
    (SysReg::DczidEl0, 0x14, 0x03, 0x13),
    // a register without fields
    (SysReg::MidrEl1, 0x410f_d034, 0x410f_d034, 0),
];

// The same merge by the rows, one after the other.
fn merged_by_rows(reg: SysReg, current: u64, other: u64) -> u64 {
    let mut word = 0;
    for index in 0..count(reg) {
        let field = field(reg, index);
        let value = merge(
            field.rule,
            field.safe,
            field.span.value(current),
            field.span.value(other),
        );
        if field.span.fits(value) {
            word = field.span.put(word, value);
        }
    }
    word
}

#[test]
fn merges_of_words(rt: HostRuntime) {
    for (reg, current, other, merged) in MERGES {
        assert_eq!(rt; merge_words(reg, current, other), merged);
        assert_eq!(rt; merge_words(reg, other, current), merged);
        assert_eq!(rt; merged_by_rows(reg, current, other), merged);
    }
}

#[test]
fn masks_of_registers(rt: HostRuntime) {
    assert_eq!(rt; visible_mask(SysReg::IdAa64Isar0El1), 0xf0ff_ffff_f0ff_fff0);
    assert_eq!(rt; fields_mask(SysReg::IdAa64Isar0El1), 0xffff_ffff_f0ff_fff0);
    assert_eq!(rt; hidden_safe(SysReg::IdAa64Mmfr0El1), 0xff00_0000);
    assert_eq!(rt; hidden_safe(SysReg::IdAa64Pfr0El1), 0x11);
    assert_eq!(rt; strict_mask(SysReg::CtrEl0), 0xbfff_000f);
    assert_eq!(rt; fields_mask(SysReg::MpidrEl1), 0);
    assert_eq!(rt; hidden_safe(SysReg::RevidrEl1), 0);
}

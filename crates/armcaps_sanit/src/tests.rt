//! Words of some cores, and what users see of them.

ghost use Rattle.std.specs.Prelude.{◌≡◌};
ghost use Rattle.armcaps_rule.specs.Rule.{merged};
ghost use Rattle.armcaps_tables.specs.Fields.{field_in};
ghost use Rattle.armcaps_tables.specs.Merging.{merged_word};
ghost use Rattle.armcaps_tables.specs.RowOf.{row_of};

use super::*;
use armcaps_enc::SysReg;
use armcaps_rule::merge;
use armcaps_tables::{CoreRegs, FieldRow, Overrides, count, field};

// The definition of an admission as a plain program: a register's word merged field by field.
fn merged_by_field(reg: SysReg, current: u64, word: u64) -> u64
    ensures { result ≡ merged_word reg current word }
{
    let mut merged = 0;
    for index in 0..count(reg) {
        let row = field(reg, index);
        merged = row.span.put(merged, merged_field(&row, current, word));
    }
    merged
}

// One field's value after one more core.
fn merged_field(row: &FieldRow, current: u64, word: u64) -> i64
    ensures { result
        ≡ merged row.now.rule row.now.safe (field_in (row_of row.now) current) (field_in (row_of row.now) word) }
{
    merge(
        row.rule,
        row.safe,
        row.span.value(current),
        row.span.value(word),
    )
}

fn core(reg: SysReg, word: u64) -> CoreRegs {
    let mut core = CoreRegs::zero();
    core.set(reg, word);
    core
}

// A register's word over a boot core and the cores that come after it.
fn word_over(overrides: &Overrides, reg: SysReg, boot: u64, later: &[u64]) -> u64 {
    let mut system = System::new(&core(reg, boot), overrides);
    for word in later {
        system.admit(&core(reg, *word));
    }
    system.word(reg)
}

#[test]
fn words_over_cores(rt: HostRuntime) {
    let none = Overrides::none();
    let isar0 = SysReg::IdAa64Isar0El1;
    assert_eq!(rt;
        word_over(&none, isar0, 0x100010211120, &[0x11120]),
        0x11120
    );
    assert_eq!(rt;
        word_over(&none, isar0, 0x11120, &[0x100010211120]),
        0x11120
    );
    // floating point is absent on the second core
    assert_eq!(rt;
        word_over(&none, SysReg::IdAa64Pfr0El1, 0, &[0xf0000]),
        0xf0000
    );
    // the granule of write-backs: 0 on one core, and else the greatest
    let ctr = SysReg::CtrEl0;
    assert_eq!(rt;
        word_over(&none, ctr, 0x84448004, &[0x80448004]),
        0x80448004
    );
    assert_eq!(rt;
        word_over(&none, ctr, 0x84448004, &[0x85448004]),
        0x85448004
    );
    // the instruction cache's policy
    assert_eq!(rt;
        word_over(&none, ctr, 0x8444c004, &[0x8444c004]),
        0x8444c004
    );
    assert_eq!(rt;
        word_over(&none, ctr, 0x8444c004, &[0x84444004, 0x8444c004]),
        0x84448004
    );
    assert_eq!(rt; word_over(&none, SysReg::MidrEl1, 0x410fd034, &[]), 0);
}

// Each admission of worked words gives what the merge field by field gives.
#[test]
fn words_merged_by_field(rt: HostRuntime) {
    let none = Overrides::none();
    let words = [
        (SysReg::IdAa64Isar0El1, 0x100010211120, 0x11120, 0x11120),
        (SysReg::IdAa64Pfr0El1, 0, 0xf0000, 0xf0000),
        (SysReg::CtrEl0, 0x84448004, 0x80448004, 0x80448004),
        (SysReg::CtrEl0, 0x84448004, 0x85448004, 0x85448004),
        (SysReg::CtrEl0, 0x8444c004, 0x84444004, 0x84448004),
        (SysReg::IdAa64Mmfr1El1, 0x1000000, 0x2000000, 0x2000000),
        (SysReg::MidrEl1, 0x410fd034, 0x410fd092, 0),
    ];
    for (reg, boot, word, merged) in words {
        assert_eq!(rt; word_over(&none, reg, boot, &[word]), merged);
        assert_eq!(rt; merged_by_field(reg, boot, word), merged);
    }
}

// An override of the crypto field of ISAR0, and what it comes to on one core.
#[tactic(auto, unfolding(armcaps_tables::specs::Rows::id_aa64isar0_rows))]
fn aes_note(bits: u64) -> (Note, u64) {
    let mut overrides = Overrides::none();
    overrides.set(SysReg::IdAa64Isar0El1, 0, bits);
    let boot = core(SysReg::IdAa64Isar0El1, 0x11120);
    (
        note(&boot, &overrides, SysReg::IdAa64Isar0El1, 0),
        System::new(&boot, &overrides).word(SysReg::IdAa64Isar0El1),
    )
}

#[test]
fn overrides(rt: HostRuntime) {
    assert!(rt; aes_note(0x11) == (Note::Forced, 0x11110));
    assert!(rt; aes_note(2) == (Note::Already, 0x11120));
    assert!(rt; aes_note(3) == (Note::Ignored, 0x11120));
}

// A register's word as users see it, of one core.
fn user_word_of(reg: SysReg, word: u64) -> u64 {
    System::new(&core(reg, word), &Overrides::none()).user_word(reg)
}

#[test]
fn user_words(rt: HostRuntime) {
    // hidden fields have their safe values
    assert_eq!(rt; user_word_of(SysReg::IdAa64Pfr0El1, 0), 0x11);
    assert_eq!(rt; user_word_of(SysReg::IdAa64Pfr0El1, 0x2222), 0x11);
    assert_eq!(rt; user_word_of(SysReg::IdAa64Dfr0El1, 0), 6);
    assert_eq!(rt; user_word_of(SysReg::IdAa64Isar0El1, 0x11120), 0x11120);
    assert_eq!(rt; user_word_of(SysReg::IdAa64Mmfr0El1, 0), 0xff000000);
    assert_eq!(rt; user_word_of(SysReg::CtrEl0, 0), 0);
    assert_eq!(rt; user_word_of(SysReg::MidrEl1, 0x410fd034), 0);
}

// Whether a core differs from the boot core in a register.
fn differs(reg: SysReg, boot: u64, word: u64) -> bool {
    varies(&core(reg, boot), &core(reg, word), reg)
}

#[test]
fn varying(rt: HostRuntime) {
    let isar0 = SysReg::IdAa64Isar0El1;
    assert!(rt; differs(isar0, 0x100010211120, 0x11120));
    assert!(rt; differs(isar0, 0x11120, 0x100010211120));
    assert!(rt; !differs(isar0, 0x11120, 0x11120));
    let ctr = SysReg::CtrEl0;
    assert!(rt; differs(ctr, 0x84448004, 0x84438004));
    // the instruction cache's policy may differ
    assert!(rt; !differs(ctr, 0x8444c004, 0x84448004));
    assert!(rt; !differs(SysReg::MidrEl1, 0x410fd034, 0x410fd092));
}

use super::*;
use armcaps_enc::SysReg;
use armcaps_tables::{Overrides, count, find};

// A command line, how many rows it gives an override, and the override of one row.
const LINES: [(&str, usize, SysReg, &str, Option<i64>); 44] = [
    ("", 0, SysReg::IdAa64Pfr0El1, "sve", None),
    (" \t ", 0, SysReg::IdAa64Pfr0El1, "sve", None),
    (
        "console=ttyAMA0 root=/dev/vda2 rw quiet",
        0,
        SysReg::IdAa64Pfr0El1,
        "sve",
        None,
    ),
    (
        "quiet arm64.nosve",
        19,
        SysReg::IdAa64Smfr0El1,
        "fa64",
        Some(0),
    ),
    (
        "\tarm64.nosve\t\tquiet",
        19,
        SysReg::IdAa64Zfr0El1,
        "svever",
        Some(0),
    ),
    ("arm64.nosme", 9, SysReg::IdAa64Smfr0El1, "f32f32", Some(0)),
    ("arm64.nobti", 1, SysReg::IdAa64Pfr1El1, "bt", Some(0)),
    ("arm64.nomte", 1, SysReg::IdAa64Pfr1El1, "mte", Some(0)),
    ("arm64.nomops", 1, SysReg::IdAa64Isar2El1, "mops", Some(0)),
    ("arm64.nopauth", 6, SysReg::IdAa64Isar1El1, "gpi", Some(0)),
    (
        "arm64.nopauth arm64.nopauth",
        6,
        SysReg::IdAa64Isar2El1,
        "apa3",
        Some(0),
    ),
    (
        "arm64.nosv arm64.nosvex ARM64.NOSVE arm64.nosve=1",
        0,
        SysReg::IdAa64Pfr0El1,
        "sve",
        None,
    ),
    ("-- arm64.nosve", 0, SysReg::IdAa64Pfr0El1, "sve", None),
    (
        "arm64.nomte -- arm64.nosve",
        1,
        SysReg::IdAa64Pfr1El1,
        "mte",
        Some(0),
    ),
    ("arm64.nomte\t--", 1, SysReg::IdAa64Pfr1El1, "mte", Some(0)),
    (
        "--- --arm64.nosve arm64.nomte",
        1,
        SysReg::IdAa64Pfr1El1,
        "mte",
        Some(0),
    ),
    (
        "id_aa64pfr0.sve=2",
        1,
        SysReg::IdAa64Pfr0El1,
        "sve",
        Some(2),
    ),
    (
        "id_aa64pfr0.sve=0x10",
        19,
        SysReg::IdAa64Pfr1El1,
        "sme",
        Some(0),
    ),
    (
        "id_aa64pfr1.sme=32",
        9,
        SysReg::IdAa64Pfr1El1,
        "sme",
        Some(0),
    ),
    (
        "arm64.nosve id_aa64pfr1.sme=1",
        19,
        SysReg::IdAa64Pfr1El1,
        "sme",
        Some(1),
    ),
    (
        "id_aa64pfr1.sme=1 arm64.nosve",
        19,
        SysReg::IdAa64Pfr1El1,
        "sme",
        Some(0),
    ),
    (
        "id_aa64isar0.aes=0x11",
        1,
        SysReg::IdAa64Isar0El1,
        "aes",
        Some(1),
    ),
    (
        "id_aa64isar0.aes=1 id_aa64isar0.aes=2",
        1,
        SysReg::IdAa64Isar0El1,
        "aes",
        Some(2),
    ),
    ("id_aa64isar0.aes=", 0, SysReg::IdAa64Isar0El1, "aes", None),
    ("id_aa64isar0.aes", 0, SysReg::IdAa64Isar0El1, "aes", None),
    (
        "id_aa64isar0.aes=0x",
        0,
        SysReg::IdAa64Isar0El1,
        "aes",
        None,
    ),
    (
        "id_aa64isar0.aes=0X1",
        0,
        SysReg::IdAa64Isar0El1,
        "aes",
        None,
    ),
    (
        "id_aa64isar0.aes=0xaF",
        1,
        SysReg::IdAa64Isar0El1,
        "aes",
        Some(15),
    ),
    (
        "id_aa64isar0.aes=1f",
        0,
        SysReg::IdAa64Isar0El1,
        "aes",
        None,
    ),
    (
        "id_aa64isar0.aes=-1",
        0,
        SysReg::IdAa64Isar0El1,
        "aes",
        None,
    ),
    (
        "id_aa64isar0.aes=18446744073709551615",
        1,
        SysReg::IdAa64Isar0El1,
        "aes",
        Some(15),
    ),
    (
        "id_aa64isar0.aes=18446744073709551616",
        0,
        SysReg::IdAa64Isar0El1,
        "aes",
        None,
    ),
    (
        "id_aa64isar0.aes=0x10000000000000001",
        0,
        SysReg::IdAa64Isar0El1,
        "aes",
        None,
    ),
    (
        "id_aa64isar0.aes=0000000000000000000000000000003",
        1,
        SysReg::IdAa64Isar0El1,
        "aes",
        Some(3),
    ),
    (
        "id_aa64isar0.aes=0x000000000000000000000000000b",
        1,
        SysReg::IdAa64Isar0El1,
        "aes",
        Some(11),
    ),
    (
        "id_aa64isar0.aes==1 id_aa64isar0.aes=1=1",
        0,
        SysReg::IdAa64Isar0El1,
        "aes",
        None,
    ),
    (
        "id_aa64isar9.aes=1 id_aa64isar0.aez=1 id_aa64isar0.=1 .aes=1 =1 .",
        0,
        SysReg::IdAa64Isar0El1,
        "aes",
        None,
    ),
    (
        "id_aa64isar0_el1.aes=1 ID_AA64ISAR0.aes=1 id_aa64isar0.AES=1",
        0,
        SysReg::IdAa64Isar0El1,
        "aes",
        None,
    ),
    ("ctr.idc=0 ctr_el0.idc=0", 0, SysReg::CtrEl0, "idc", None),
    ("dczid.bs=0 midr.bs=0", 0, SysReg::DczidEl0, "bs", None),
    (
        "id_aa64pfr0.fp=15",
        1,
        SysReg::IdAa64Pfr0El1,
        "fp",
        Some(-1),
    ),
    (
        "id_aa64mmfr0.tgran4=8",
        1,
        SysReg::IdAa64Mmfr0El1,
        "tgran4",
        Some(-8),
    ),
    (
        "id_aa64smfr0.fa64=3",
        1,
        SysReg::IdAa64Smfr0El1,
        "fa64",
        Some(1),
    ),
    (
        "id_aa64pfr1.ssbs=1",
        1,
        SysReg::IdAa64Pfr1El1,
        "ssbs",
        Some(1),
    ),
];

// How many rows have an override.
fn rows_given(overrides: &Overrides) -> usize {
    let mut rows: usize = 0;
    for register in SysReg::TRACKED {
        for index in 0..count(register) {
            if overrides.get(register, index).is_some() {
                rows = rows.saturating_add(1);
            }
        }
    }
    rows
}

fn row_named(overrides: &Overrides, register: SysReg, field: &str) -> Option<i64> {
    overrides.get(register, find(register, field.as_bytes())?)
}

#[test]
fn command_lines(rt: HostRuntime) {
    for (line, rows, register, field, value) in LINES {
        let overrides = parse(line.as_bytes());
        assert_eq!(rt; rows_given(&overrides), rows, "rows of {line}");
        assert_eq!(rt;
            row_named(&overrides, register, field),
            value,
            "{field} of {line}"
        );
    }
}

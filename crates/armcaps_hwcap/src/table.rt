ghost use Rattle.std.specs.Prelude.{◌≡◌, ◌<◌, ◌≤◌, ◌↔◌, IfSome, IsSome, IsTrue, Some, false, length, map, slice_get, true};
ghost use Rattle.std.specs.List.{list_all};
ghost use Rattle.std.specs.Option.{option_map};
ghost use Rattle.armcaps_hwcap.specs.Facts.{bits_rise, names_differ, row_holds};
ghost use Rattle.armcaps_hwcap.specs.RowOf.{row_of, row_of_line};
ghost use Rattle.armcaps_hwcap.specs.Rows.{hwcap_count, hwcap_rows};

use crate::row::{HwField, HwRow};
use armcaps_tables::fields;
use arrayvec::ArrayVec;

/// How many hwcaps there are. Their places in the table are those below it.
pub const HWCAPS: usize = 57;

// A line of the table.
#[derive(Clone, Copy)]
pub(crate) struct Line {
    pub(crate) name: &'static str,
    pub(crate) second: bool,
    pub(crate) bit: u32,
    pub(crate) always: bool,
    pub(crate) fields: &'static [HwField],
}

// A line of its words: the word and the bit, and then `always` or the fields, each by its name and its least value.
macro_rules! line {
    ($name:literal, hwcap $bit:literal, $($more:tt)*) => {
        line!([$name false $bit] $($more)*)
    };
    ($name:literal, hwcap2 $bit:literal, $($more:tt)*) => {
        line!([$name true $bit] $($more)*)
    };
    ([$name:literal $second:literal $bit:literal] always) => {
        Line {
            name: $name,
            second: $second,
            bit: $bit,
            always: true,
            fields: &[],
        }
    };
    ([$name:literal $second:literal $bit:literal] [$($field:ident $min:literal),+]) => {
        Line {
            name: $name,
            second: $second,
            bit: $bit,
            always: false,
            fields: &[$(HwField {
                reg: fields::$field.reg,
                index: fields::$field.index,
                min: $min,
            }),+],
        }
    };
}

// The line at a place of the table.
macro_rules! line_at {
    ($index:ident $($place:literal => $name:literal, $word:ident $bit:literal, $fields:tt;)*) => {
        match $index {
            $($place => Some(line!($name, $word $bit, $fields)),)*
            _ => None,
        }
    };
}

/// A hwcap by its place in the table, from 0. None exactly where the table has no such place.
pub fn hw_row(index: usize) -> Option<HwRow>
    ensures row { option_map row_of result ≡ slice_get hwcap_rows index }
    ensures some { IsSome result ↔ (index < hwcap_count) }
{
    if index < HWCAPS {
        Some(row_of_its_line(&line_at(index)))
    } else {
        None
    }
}

// A line as a row of its own.
fn row_of_its_line(line: &Line) -> HwRow
    requires { length line.now.fields.now ≤ 3 }
    ensures { row_of result ≡ row_of_line line.now }
{
    let mut fields = ArrayVec::new();
    fields.try_extend_from_slice(line.fields).unwrap();
    HwRow {
        name: line.name,
        second: line.second,
        bit: line.bit,
        always: line.always,
        fields,
    }
}

// The line at a place of the table.
pub(crate) fn line_at(index: usize) -> Line
    requires { index < hwcap_count }
    ensures line { slice_get hwcap_rows index ≡ Some (row_of_line result) }
    ensures bit { result.bit < 64 }
    ensures fields { length result.fields.now ≤ 3 }
{
    line_of_table(index).unwrap()
}

// The line that the table has.
#[tactic(auto, unfolding(crate::specs::Rows::hwcap_rows, armcaps_tables::specs::Rows::id_aa64pfr0_rows, armcaps_tables::specs::Rows::id_aa64pfr1_rows, armcaps_tables::specs::Rows::id_aa64zfr0_rows, armcaps_tables::specs::Rows::id_aa64isar0_rows, armcaps_tables::specs::Rows::id_aa64isar1_rows, armcaps_tables::specs::Rows::id_aa64isar2_rows, armcaps_tables::specs::Rows::id_aa64mmfr0_rows, armcaps_tables::specs::Rows::id_aa64mmfr1_rows, armcaps_tables::specs::Rows::id_aa64mmfr2_rows))]
fn line_of_table(index: usize) -> Option<Line>
    ensures { option_map row_of_line result ≡ slice_get hwcap_rows index }
{
    line_at! { index
        0 => "fp", hwcap 0, [ID_AA64PFR0_FP 0];
        1 => "asimd", hwcap 1, [ID_AA64PFR0_ADVSIMD 0];
        2 => "aes", hwcap 3, [ID_AA64ISAR0_AES 1];
        3 => "pmull", hwcap 4, [ID_AA64ISAR0_AES 2];
        4 => "sha1", hwcap 5, [ID_AA64ISAR0_SHA1 1];
        5 => "sha2", hwcap 6, [ID_AA64ISAR0_SHA2 1];
        6 => "crc32", hwcap 7, [ID_AA64ISAR0_CRC32 1];
        7 => "atomics", hwcap 8, [ID_AA64ISAR0_ATOMIC 2];
        8 => "fphp", hwcap 9, [ID_AA64PFR0_FP 1];
        9 => "asimdhp", hwcap 10, [ID_AA64PFR0_ADVSIMD 1];
        10 => "cpuid", hwcap 11, always;
        11 => "asimdrdm", hwcap 12, [ID_AA64ISAR0_RDM 1];
        12 => "jscvt", hwcap 13, [ID_AA64ISAR1_JSCVT 1];
        13 => "fcma", hwcap 14, [ID_AA64ISAR1_FCMA 1];
        14 => "lrcpc", hwcap 15, [ID_AA64ISAR1_LRCPC 1];
        15 => "dcpop", hwcap 16, [ID_AA64ISAR1_DPB 1];
        16 => "sha3", hwcap 17, [ID_AA64ISAR0_SHA3 1];
        17 => "sm3", hwcap 18, [ID_AA64ISAR0_SM3 1];
        18 => "sm4", hwcap 19, [ID_AA64ISAR0_SM4 1];
        19 => "asimddp", hwcap 20, [ID_AA64ISAR0_DP 1];
        20 => "sha512", hwcap 21, [ID_AA64ISAR0_SHA2 2];
        21 => "sve", hwcap 22, [ID_AA64PFR0_SVE 1];
        22 => "asimdfhm", hwcap 23, [ID_AA64ISAR0_FHM 1];
        23 => "dit", hwcap 24, [ID_AA64PFR0_DIT 1];
        24 => "uscat", hwcap 25, [ID_AA64MMFR2_AT 1];
        25 => "ilrcpc", hwcap 26, [ID_AA64ISAR1_LRCPC 2];
        26 => "flagm", hwcap 27, [ID_AA64ISAR0_TS 1];
        27 => "ssbs", hwcap 28, [ID_AA64PFR1_SSBS 2];
        28 => "sb", hwcap 29, [ID_AA64ISAR1_SB 1];
        29 => "paca", hwcap 30, [ID_AA64ISAR1_APA 1, ID_AA64ISAR2_APA3 1, ID_AA64ISAR1_API 1];
        30 => "pacg", hwcap 31, [ID_AA64ISAR1_GPA 1, ID_AA64ISAR2_GPA3 1, ID_AA64ISAR1_GPI 1];
        31 => "dcpodp", hwcap2 0, [ID_AA64ISAR1_DPB 2];
        32 => "sve2", hwcap2 1, [ID_AA64ZFR0_SVEVER 1];
        33 => "sveaes", hwcap2 2, [ID_AA64ZFR0_AES 1];
        34 => "svepmull", hwcap2 3, [ID_AA64ZFR0_AES 2];
        35 => "svebitperm", hwcap2 4, [ID_AA64ZFR0_BITPERM 1];
        36 => "svesha3", hwcap2 5, [ID_AA64ZFR0_SHA3 1];
        37 => "svesm4", hwcap2 6, [ID_AA64ZFR0_SM4 1];
        38 => "flagm2", hwcap2 7, [ID_AA64ISAR0_TS 2];
        39 => "frint", hwcap2 8, [ID_AA64ISAR1_FRINTTS 1];
        40 => "svei8mm", hwcap2 9, [ID_AA64ZFR0_I8MM 1];
        41 => "svef32mm", hwcap2 10, [ID_AA64ZFR0_F32MM 1];
        42 => "svef64mm", hwcap2 11, [ID_AA64ZFR0_F64MM 1];
        43 => "svebf16", hwcap2 12, [ID_AA64ZFR0_BF16 1];
        44 => "i8mm", hwcap2 13, [ID_AA64ISAR1_I8MM 1];
        45 => "bf16", hwcap2 14, [ID_AA64ISAR1_BF16 1];
        46 => "dgh", hwcap2 15, [ID_AA64ISAR1_DGH 1];
        47 => "rng", hwcap2 16, [ID_AA64ISAR0_RNDR 1];
        48 => "bti", hwcap2 17, [ID_AA64PFR1_BT 1];
        49 => "mte", hwcap2 18, [ID_AA64PFR1_MTE 2];
        50 => "ecv", hwcap2 19, [ID_AA64MMFR0_ECV 1];
        51 => "afp", hwcap2 20, [ID_AA64MMFR1_AFP 1];
        52 => "rpres", hwcap2 21, [ID_AA64ISAR2_RPRES 1];
        53 => "mte3", hwcap2 22, [ID_AA64PFR1_MTE 3];
        54 => "sme", hwcap2 23, [ID_AA64PFR1_SME 1];
        55 => "wfxt", hwcap2 31, [ID_AA64ISAR2_WFXT 2];
        56 => "mops", hwcap2 43, [ID_AA64ISAR2_MOPS 1];
    }
}

/// Of the table: each field of a hwcap is one that users see, and its value over some cores is at least the minimum
/// only where each core's is. In each of the two words the bits rise in the order of the table and are below 64, and no
/// two hwcaps have one name. There are 57.
pub fn hwcaps_hold()
    ensures count { length hwcap_rows ≡ hwcap_count }
    ensures holds { IsTrue (list_all row_holds hwcap_rows) }
    ensures first { IsTrue (bits_rise false 0 hwcap_rows) }
    ensures second { IsTrue (bits_rise true 0 hwcap_rows) }
    ensures names { IsTrue (names_differ hwcap_rows) }
{}

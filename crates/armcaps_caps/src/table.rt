ghost use Rattle.std.specs.Prelude.{◌≡◌, ◌<◌, ◌↔◌, ◌==◌, IfSome, IsSome, IsTrue, Some, map, position, slice_get, slice_index_or, ℕ};
ghost use Rattle.std.specs.List.{list_all, range_with_len};
ghost use Rattle.std.specs.Option.{option_map};
ghost use Rattle.armcaps_caps.specs.Capabilities.{capability_name, capability_named, test_of};
ghost use Rattle.armcaps_caps.specs.Facts.{has_name, row_holds, HasTest};
ghost use Rattle.armcaps_caps.specs.Row.{Row};
ghost use Rattle.armcaps_caps.specs.RowFlags.{HasFlags};
ghost use Rattle.armcaps_caps.specs.RowOf.{columns_listed, columns_of};
ghost use Rattle.armcaps_caps.specs.Rows.{capability_count, capability_rows};

use crate::cap_flags::CapFlags;
use crate::cap_row::{CapRow, Test};
use armcaps_tables::fields;

/// How many capabilities there are. Their numbers are those below it.
pub const CAPABILITIES: u16 = 53;

// A test from its words in a line: a field by its name, and the least value that counts.
macro_rules! test {
    (AtLeast $field:ident $min:literal) => {
        Test::AtLeast {
            reg: fields::$field.reg,
            index: fields::$field.index,
            min: $min,
        }
    };
    (SameAsBoot $field:ident $min:literal) => {
        Test::SameAsBoot {
            reg: fields::$field.reg,
            index: fields::$field.index,
            min: $min,
        }
    };
    (Erratum $index:literal) => {
        Test::Erratum { index: $index }
    };
    ($test:ident) => {
        Test::$test
    };
}

// The row at a place of the table.
macro_rules! row_at {
    ($number:ident
        $($place:literal => $name:literal, $class:ident, $($test:ident)+ $($value:literal)?;)*) => {
        match $number {
            $($place => Some(CapRow {
                number: $place,
                name: $name,
                flags: CapFlags::$class,
                test: test!($($test)+ $($value)?),
            }),)*
            _ => None,
        }
    };
}

/// A capability by its number. None exactly where the table has no such number.
pub fn cap(number: u16) -> Option<CapRow>
    ensures row { option_map columns_of result ≡ option_map columns_listed (slice_get capability_rows number) }
    ensures some { IsSome result ↔ (number < capability_count) }
    ensures number { IfSome result (λ row. row.number ≡ number) }
    ensures name { IfSome result (λ row. row.name.now ≡ capability_name number) }
    ensures flags { IfSome result (λ row. HasFlags number row.flags.0) }
    ensures test { IfSome result (λ row. HasTest number row.test) }
{
    row_of_table(number)
}

// The row that the table has.
#[tactic(auto, unfolding(crate::specs::Rows::capability_rows, armcaps_tables::specs::Rows::id_aa64pfr0_rows, armcaps_tables::specs::Rows::id_aa64pfr1_rows, armcaps_tables::specs::Rows::id_aa64smfr0_rows, armcaps_tables::specs::Rows::id_aa64isar0_rows, armcaps_tables::specs::Rows::id_aa64isar1_rows, armcaps_tables::specs::Rows::id_aa64isar2_rows, armcaps_tables::specs::Rows::id_aa64mmfr0_rows, armcaps_tables::specs::Rows::id_aa64mmfr1_rows, armcaps_tables::specs::Rows::id_aa64mmfr2_rows, armcaps_tables::specs::Rows::id_aa64mmfr3_rows))]
fn row_of_table(number: u16) -> Option<CapRow>
    ensures { option_map columns_of result ≡ option_map columns_listed (slice_get capability_rows number) }
{
    row_at! { number
        0 => "ALWAYS_BOOT", BOOT_FEATURE, Always;
        1 => "ALWAYS_SYSTEM", SYSTEM_FEATURE, Always;
        2 => "HAS_ADDRESS_AUTH_ARCH_QARMA5", BOOT_FEATURE, SameAsBoot ID_AA64ISAR1_APA 1;
        3 => "HAS_ADDRESS_AUTH_ARCH_QARMA3", BOOT_FEATURE, SameAsBoot ID_AA64ISAR2_APA3 1;
        4 => "HAS_ADDRESS_AUTH_IMP_DEF", BOOT_FEATURE, SameAsBoot ID_AA64ISAR1_API 1;
        5 => "MTE", STRICT_BOOT_FEATURE, AtLeast ID_AA64PFR1_MTE 2;
        6 => "MTE_ASYMM", BOOT_FEATURE, AtLeast ID_AA64PFR1_MTE 3;
        7 => "HAS_LSE_ATOMICS", SYSTEM_FEATURE, AtLeast ID_AA64ISAR0_ATOMIC 2;
        8 => "HAS_CRC32", SYSTEM_FEATURE, AtLeast ID_AA64ISAR0_CRC32 1;
        9 => "HAS_RNG", SYSTEM_FEATURE, AtLeast ID_AA64ISAR0_RNDR 1;
        10 => "HAS_TLB_RANGE", SYSTEM_FEATURE, AtLeast ID_AA64ISAR0_TLB 2;
        11 => "HAS_DCPOP", SYSTEM_FEATURE, AtLeast ID_AA64ISAR1_DPB 1;
        12 => "HAS_DCPODP", SYSTEM_FEATURE, AtLeast ID_AA64ISAR1_DPB 2;
        13 => "HAS_LDAPR", SYSTEM_FEATURE, AtLeast ID_AA64ISAR1_LRCPC 1;
        14 => "HAS_SB", SYSTEM_FEATURE, AtLeast ID_AA64ISAR1_SB 1;
        15 => "HAS_GENERIC_AUTH_ARCH_QARMA5", SYSTEM_FEATURE, AtLeast ID_AA64ISAR1_GPA 1;
        16 => "HAS_GENERIC_AUTH_ARCH_QARMA3", SYSTEM_FEATURE, AtLeast ID_AA64ISAR2_GPA3 1;
        17 => "HAS_GENERIC_AUTH_IMP_DEF", SYSTEM_FEATURE, AtLeast ID_AA64ISAR1_GPI 1;
        18 => "HAS_WFXT", SYSTEM_FEATURE, AtLeast ID_AA64ISAR2_WFXT 2;
        19 => "HAS_MOPS", SYSTEM_FEATURE, AtLeast ID_AA64ISAR2_MOPS 1;
        20 => "HAS_PAN", SYSTEM_FEATURE, AtLeast ID_AA64MMFR1_PAN 1;
        21 => "HAS_EPAN", SYSTEM_FEATURE, AtLeast ID_AA64MMFR1_PAN 3;
        22 => "HW_DBM", WEAK_LOCAL_FEATURE, AtLeast ID_AA64MMFR1_HAFDBS 2;
        23 => "HAS_CNP", SYSTEM_FEATURE, AtLeast ID_AA64MMFR2_CNP 1;
        24 => "HAS_ARMv8_4_TTL", SYSTEM_FEATURE, AtLeast ID_AA64MMFR2_TTL 1;
        25 => "HAS_STAGE2_FWB", SYSTEM_FEATURE, AtLeast ID_AA64MMFR2_FWB 1;
        26 => "HAS_EVT", SYSTEM_FEATURE, AtLeast ID_AA64MMFR2_EVT 2;
        27 => "HAS_E0PD", SYSTEM_FEATURE, AtLeast ID_AA64MMFR2_E0PD 1;
        28 => "HAS_FGT", SYSTEM_FEATURE, AtLeast ID_AA64MMFR0_FGT 1;
        29 => "HAS_ECV_CNTPOFF", SYSTEM_FEATURE, AtLeast ID_AA64MMFR0_ECV 2;
        30 => "HAS_HCX", STRICT_BOOT_FEATURE, AtLeast ID_AA64MMFR1_HCX 1;
        31 => "HAS_TIDCP1", SYSTEM_FEATURE, AtLeast ID_AA64MMFR1_TIDCP1 1;
        32 => "HAS_TCR2", SYSTEM_FEATURE, AtLeast ID_AA64MMFR3_TCRX 1;
        33 => "HAS_S1PIE", BOOT_FEATURE, AtLeast ID_AA64MMFR3_S1PIE 1;
        34 => "HAS_RAS_EXTN", SYSTEM_FEATURE, AtLeast ID_AA64PFR0_RAS 1;
        35 => "HAS_DIT", SYSTEM_FEATURE, AtLeast ID_AA64PFR0_DIT 1;
        36 => "SVE", SYSTEM_FEATURE, AtLeast ID_AA64PFR0_SVE 1;
        37 => "SME", SYSTEM_FEATURE, AtLeast ID_AA64PFR1_SME 1;
        38 => "SME_FA64", SYSTEM_FEATURE, AtLeast ID_AA64SMFR0_FA64 1;
        39 => "BTI", STRICT_BOOT_FEATURE, AtLeast ID_AA64PFR1_BT 1;
        40 => "SSBS", SYSTEM_FEATURE, AtLeast ID_AA64PFR1_SSBS 1;
        41 => "HAS_FPSIMD", SYSTEM_FEATURE, AtLeast ID_AA64PFR0_FP 0;
        42 => "MISMATCHED_CACHE_TYPE", ERRATUM, CacheType;
        43 => "WORKAROUND_843419", ERRATUM, Erratum 0;
        44 => "WORKAROUND_845719", ERRATUM, Erratum 1;
        45 => "WORKAROUND_CLEAN_CACHE", ERRATUM, Erratum 2;
        46 => "WORKAROUND_832075", ERRATUM, Erratum 3;
        47 => "WORKAROUND_834220", ERRATUM, Erratum 4;
        48 => "WORKAROUND_858921", ERRATUM, Erratum 5;
        49 => "WORKAROUND_REPEAT_TLBI", ERRATUM, Erratum 6;
        50 => "WORKAROUND_SPECULATIVE_AT", ERRATUM, Erratum 7;
        51 => "WORKAROUND_1463225", ERRATUM, Erratum 8;
        52 => "WORKAROUND_1508412", ERRATUM, Erratum 9;
    }
}

// The test by which the capability of this number is had.
pub(crate) fn test_at(number: u16) -> Test
    requires { number < capability_count }
    ensures { HasTest number result }
{
    cap(number).unwrap().test
}

/// The number of a capability by its name. None exactly where no capability has the name.
pub fn of_name(name: &[u8]) -> Option<u16>
    ensures first { result ≡ capability_named name.now }
    ensures known { IfSome result (λ number. number < capability_count) }
    ensures named { IfSome result (λ number. capability_name number ≡ name.now) }
{
    for number in 0..CAPABILITIES {
        if is_named(number, name) {
            return Some(number);
        }
    }
    None
}

// Whether the capability of this number has the name.
fn is_named(number: u16, name: &[u8]) -> bool
    requires { number < capability_count }
    ensures { (other : Row) → result ≡ has_name name.now (slice_index_or capability_rows number other) }
{
    cap(number).unwrap().name.as_bytes() == name
}

/// Of the table: its 53 capabilities have the numbers from 0 on in order, and no two have one name. Each has a test.
/// Where the test is of a field, the field over some cores is at least the minimum only where each core's is. A
/// capability that works around an erratum is the one that the table of errata names. A capability of system scope has
/// a test of all cores together.
pub fn capabilities_hold()
    ensures numbers { map (λ (row : Row). row.number) capability_rows ≡ range_with_len 0 capability_count }
    ensures holds { IsTrue (list_all row_holds capability_rows) }
{}

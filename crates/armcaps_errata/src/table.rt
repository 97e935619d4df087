//! The table of errata, and which of them a core has.

ghost use Rattle.std.specs.Prelude.{◌≡◌, ◌<◌, ◌≤◌, ◌↔◌, ◌%◌, ◌^◌, IsSome, IsTrue, length, map, slice_get};
ghost use Rattle.std.specs.List.{list_all, range_with_len};
ghost use Rattle.std.specs.Option.{option_map};
ghost use Rattle.armcaps_errata.specs.Errata.{errata_count, errata_rows};
ghost use Rattle.armcaps_errata.specs.Facts.{erratum_holds};
ghost use Rattle.armcaps_errata.specs.Has.{has_erratum, is_affected_by, low_half};
ghost use Rattle.armcaps_errata.specs.Erratum.{Erratum};
ghost use Rattle.armcaps_errata.specs.RowOf.{erratum_of};

use crate::erratum_row::ErratumRow;
use armcaps_enc::SysReg;
use armcaps_midr::{Fix, MidrRange, affected};
use armcaps_tables::CoreRegs;
use arrayvec::ArrayVec;

// The models: MIDR without Variant and Revision (Linux, arch/arm64/include/asm/cputype.h, `MIDR_CORTEX_A53` and so on).
const CORTEX_A53: u32 = 0x410f_d030;

const CORTEX_A57: u32 = 0x410f_d070;

const CORTEX_A72: u32 = 0x410f_d080;

const CORTEX_A73: u32 = 0x410f_d090;

const CORTEX_A76: u32 = 0x410f_d0b0;

const CORTEX_A77: u32 = 0x410f_d0d0;

// The row at a place of the table: the capability's number, the ranges and the fixes of each place.
macro_rules! row_at {
    ($index:ident $($place:literal => $cap:literal, [$($range:expr),*], [$($fix:expr),*];)*) => {
        match $index {
            $($place => Some(row($cap, &[$($range),*], &[$($fix),*])),)*
            _ => None,
        }
    };
}

/// An erratum by its place in the table, from 0. None exactly where the table has no such place.
#[tactic(auto, unfolding(crate::specs::Errata::errata_rows))]
pub fn erratum(index: usize) -> Option<ErratumRow>
    ensures row { option_map erratum_of result ≡ slice_get errata_rows index }
    ensures some { IsSome result ↔ (index < errata_count) }
{
    // A version rXpY is 0xXY. Each line ends with the name of its capability.
    row_at! { index
        0 => 43, [versions(CORTEX_A53, 0x00, 0x04)], [fixed(0x04, 0x100)]; // WORKAROUND_843419
        1 => 44, [versions(CORTEX_A53, 0x00, 0x04)], []; // WORKAROUND_845719
        2 => 45, [versions(CORTEX_A53, 0x00, 0x02)], []; // WORKAROUND_CLEAN_CACHE
        3 => 46, [versions(CORTEX_A57, 0x00, 0x12)], []; // WORKAROUND_832075
        4 => 47, [versions(CORTEX_A57, 0x00, 0x12)], []; // WORKAROUND_834220
        5 => 48, [versions(CORTEX_A73, 0x00, 0xff)], []; // WORKAROUND_858921
        6 => 49, [versions(CORTEX_A76, 0x00, 0x30)], []; // WORKAROUND_REPEAT_TLBI
        7 => 50, [versions(CORTEX_A57, 0x00, 0xff), versions(CORTEX_A72, 0x00, 0xff), versions(CORTEX_A76, 0x00, 0x20)],
            []; // WORKAROUND_SPECULATIVE_AT
        8 => 51, [versions(CORTEX_A76, 0x00, 0x31)], []; // WORKAROUND_1463225
        9 => 52, [versions(CORTEX_A77, 0x00, 0x10)], []; // WORKAROUND_1508412
    }
}

// A model's versions from the first to the last, both included.
fn versions(model: u32, low: u8, high: u8) -> MidrRange
    ensures { result ≡ record { model = model; low = low; high = high } }
{
    MidrRange { model, low, high }
}

// A version that tells by these bits of REVIDR that it is mended.
fn fixed(rv: u8, revidr: u32) -> Fix
    ensures { result ≡ record { rv = rv; revidr = revidr } }
{
    Fix { rv, revidr }
}

// An erratum of its parts.
fn row(cap: u16, ranges: &[MidrRange], fixes: &[Fix]) -> ErratumRow
    requires ranges { length ranges.now ≤ 4 }
    requires fixes { length fixes.now ≤ 2 }
    ensures { erratum_of result ≡ record { cap = cap; ranges = ranges.now; fixes = fixes.now } }
{
    let mut row = ErratumRow {
        cap,
        ranges: ArrayVec::new(),
        fixes: ArrayVec::new(),
    };
    row.ranges.try_extend_from_slice(ranges).unwrap();
    row.fixes.try_extend_from_slice(fixes).unwrap();
    row
}

/// Whether a core has the erratum at this place of the table, by the low halves of its MIDR and REVIDR.
pub fn affected_by(index: usize, core: &CoreRegs) -> bool
    requires { index < errata_count }
    ensures { result ≡ has_erratum core.now index }
{
    has(core, &erratum(index).unwrap())
}

// Whether a core has an erratum.
fn has(core: &CoreRegs, erratum: &ErratumRow) -> bool
    ensures { result ≡ is_affected_by core.now (erratum_of erratum.now) }
{
    affected(
        low_32(core.get(SysReg::MidrEl1)),
        low_32(core.get(SysReg::RevidrEl1)),
        erratum.ranges.as_slice(),
        erratum.fixes.as_slice(),
    )
}

// A word's low 32 bits.
fn low_32(word: u64) -> u32
    ensures { result ≡ low_half word }
{
    (word & 0xffff_ffff) as u32
}

/// Of the table: it has ten errata, whose capabilities have the numbers from 43 on; each range names a model, and its
/// first version is not above its last one; and each fix is of a version that the erratum's ranges hold.
#[tactic(auto, unfolding(crate::specs::Errata::errata_rows))]
pub fn errata_hold()
    ensures count { length errata_rows ≡ errata_count }
    ensures numbers { map (λ (erratum : Erratum). erratum.cap) errata_rows ≡ range_with_len 43 errata_count }
    ensures holds { IsTrue (list_all erratum_holds errata_rows) }
{}

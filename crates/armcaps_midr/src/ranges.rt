//! Whether a processor is one of those that are meant.

ghost use Rattle.std.specs.Prelude.{◌≡◌};
ghost use Rattle.std.specs.List.{list_any};
ghost use Rattle.armcaps_midr.specs.Midr.{is_affected, is_fixed, is_in_range, version_of};

use crate::processor::{Fix, MidrRange};

/// Whether a processor is one of the range, by the low half of its MIDR.
pub fn in_range(midr: u32, range: &MidrRange) -> bool
    ensures { result ≡ is_in_range midr range.now }
{
    let version = version(midr);
    midr & 0xff0f_fff0 == range.model && range.low <= version && version <= range.high
}

/// Whether a processor has what the ranges and fixes tell of: some range holds it, and no fix has its version and a bit
/// in common with its REVIDR. MIDR and REVIDR are their low halves.
pub fn affected(midr: u32, revidr: u32, ranges: &[MidrRange], fixes: &[Fix]) -> bool
    ensures { result ≡ is_affected midr revidr ranges.now fixes.now }
{
    in_some_range(midr, ranges) && !fixed(midr, revidr, fixes)
}

// Whether some range holds the processor.
fn in_some_range(midr: u32, ranges: &[MidrRange]) -> bool
    ensures { result ≡ list_any (is_in_range midr) ranges.now }
{
    ranges.iter().any(|range| in_range(midr, range))
}

// Whether the processor tells of some fix.
fn fixed(midr: u32, revidr: u32, fixes: &[Fix]) -> bool
    ensures { result ≡ list_any (is_fixed midr revidr) fixes.now }
{
    fixes.iter().any(|fix| fixed_by(midr, revidr, fix))
}

// Whether a processor tells of this fix.
fn fixed_by(midr: u32, revidr: u32, fix: &Fix) -> bool
    ensures { result ≡ is_fixed midr revidr fix.now }
{
    version(midr) == fix.rv && revidr & fix.revidr != 0
}

// The processor's version.
fn version(midr: u32) -> u8
    ensures { result ≡ version_of midr }
{
    let variant = midr >> 20 & 0xf;
    let revision = midr & 0xf;
    (16 * variant + revision) as u8
}

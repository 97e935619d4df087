//! What the table says of an erratum.

use armcaps_midr::{Fix, MidrRange};
use arrayvec::ArrayVec;

/// An erratum: a fault of some processors that software works around. It is by a processor's model and version that the
/// erratum is known, and by some processors' REVIDR that it is mended.
///
/// Source: Linux, arch/arm64/kernel/cpu_errata.c, `arm64_errata`; Arm's Software Developer Errata Notice of a product.
#[derive(Debug, PartialEq, Eq, Drop)]
pub struct ErratumRow {
    /// The number of the capability that works around it.
    pub cap: u16,
    /// The processors that have it: one of these ranges holds them.
    pub ranges: ArrayVec<MidrRange, 4>,
    /// How processors of these ranges tell that it is mended.
    pub fixes: ArrayVec<Fix, 2>,
}

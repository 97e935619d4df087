//! How processors are told apart: ranges of their versions, and what tells that one is mended.

/// Versions of a processor's model, from `low` to `high`, both included.
///
/// A version is `16*Variant + Revision`: r1p2 is 0x12.
///
/// Source: Arm ARM DDI 0487, "MIDR_EL1, Main ID Register"; Linux, arch/arm64/include/asm/cputype.h,
/// `struct midr_range`.
#[derive(Clone, Copy, Debug, Default, PartialEq, Eq)]
pub struct MidrRange {
    /// The model: MIDR with Variant (bits 23 to 20) and Revision (bits 3 to 0) as 0.
    pub model: u32,
    /// The first version.
    pub low: u8,
    /// The last version.
    pub high: u8,
}

/// How processors tell that an erratum is mended in them, though their version has it.
///
/// Source: Arm ARM DDI 0487, "REVIDR_EL1, Revision ID Register"; Linux, arch/arm64/include/asm/cpufeature.h,
/// `struct arm64_midr_revidr`.
#[derive(Clone, Copy, Debug, Default, PartialEq, Eq)]
pub struct Fix {
    /// The version that can be mended: `16*Variant + Revision`.
    pub rv: u8,
    /// The bits of REVIDR, of which one that is set tells that it is.
    pub revidr: u32,
}

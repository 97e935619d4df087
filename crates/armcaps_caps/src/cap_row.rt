use crate::cap_flags::CapFlags;
use armcaps_enc::SysReg;

/// How it is told whether a core, or the system, has a capability.
///
/// Source: Linux, arch/arm64/kernel/cpufeature.c, `has_cpuid_feature` and the other functions of `matches`.
#[derive(Clone, Copy, Debug, PartialEq, Eq)]
pub enum Test {
    /// Every core has it.
    Always,
    /// The field at this place of the register's table is at least `min`.
    AtLeast { reg: SysReg, index: usize, min: i64 },
    /// The field is at least `min`, and as the boot core's.
    SameAsBoot { reg: SysReg, index: usize, min: i64 },
    /// The core has the erratum at this place of the table of errata.
    Erratum { index: usize },
    /// The core's cache type is another one.
    CacheType,
}

/// A capability: what the table says of it.
///
/// Source: Linux, arch/arm64/include/asm/cpufeature.h, `struct arm64_cpu_capabilities`; which capabilities are listed,
/// and their least values, after arch/arm64/kernel/cpufeature.c, `arm64_features`, and arch/arm64/kernel/cpu_errata.c,
/// `arm64_errata`.
#[derive(Clone, Copy, Debug, PartialEq, Eq)]
pub struct CapRow {
    /// Its number.
    pub number: u16,
    /// Its name in texts.
    pub name: &'static str,
    /// Where it is decided, and what later cores may have or lack.
    pub flags: CapFlags,
    /// How it is told whether a core has it.
    pub test: Test,
}

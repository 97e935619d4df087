ghost use Rattle.std.specs.Prelude.{⊤, [], ◌∷◌, codes};

use bitflags::{Flag, Flags, bitflag_items};

/// Where a capability is decided, and what a core may have or lack that comes up later.
///
/// Source: Linux, arch/arm64/include/asm/cpufeature.h, `ARM64_CPUCAP_SCOPE_BOOT_CPU` and the flags beside it.
#[derive(Clone, Copy, Debug, PartialEq, Eq)]
pub struct CapFlags(u8);

bitflag_items! {
    impl CapFlags: u8 {
        /// Decided on the boot core, before any other core comes up.
        const SCOPE_BOOT = 1;
        /// Decided on each core alone.
        const SCOPE_LOCAL = 2;
        /// Decided over all early cores together.
        const SCOPE_SYSTEM = 4;
        /// A core that comes up later may have it though it is not enabled.
        const PERMITTED = 8;
        /// A core that comes up later may lack it though it is enabled.
        const OPTIONAL = 16;
        /// A core that comes up later and conflicts with it stops the machine.
        const PANIC = 32;
    }
}

impl Flags for CapFlags {
    type Bits = u8;

    ghost exact = { ⊤ };

    ghost table = { (codes "SCOPE_BOOT", 1) ∷ (codes "SCOPE_LOCAL", 2) ∷ (codes "SCOPE_SYSTEM", 4)
        ∷ (codes "PERMITTED", 8) ∷ (codes "OPTIONAL", 16) ∷ (codes "PANIC", 32) ∷ [] };

    ghost set_of = { λ flags. flags.0 };

    fn flags<'a>() -> &'a [Flag<CapFlags>] {
        CapFlags::FLAGS
    }

    fn bits(&self) -> u8 {
        self.0
    }

    fn from_bits_retain(bits: u8) -> CapFlags {
        CapFlags(bits)
    }
}

// The classes of capabilities.
impl CapFlags {
    /// A feature that the system has where all early cores together have it. Cores that come up later must have it
    /// where it is enabled.
    pub(crate) const SYSTEM_FEATURE: CapFlags = CapFlags(
        CapFlags::SCOPE_SYSTEM.0 | CapFlags::PERMITTED.0,
    );

    /// An erratum that is worked around where one of the early cores has it. Cores that come up later must not bring
    /// it.
    pub(crate) const ERRATUM: CapFlags = CapFlags(CapFlags::SCOPE_LOCAL.0 | CapFlags::OPTIONAL.0);

    /// A feature that each core may have or lack.
    pub(crate) const WEAK_LOCAL_FEATURE: CapFlags = CapFlags(
        CapFlags::SCOPE_LOCAL.0 | CapFlags::PERMITTED.0 | CapFlags::OPTIONAL.0,
    );

    /// A feature that the boot core decides. Cores that come up later must have it where the boot core has it.
    pub(crate) const BOOT_FEATURE: CapFlags = CapFlags(
        CapFlags::SCOPE_BOOT.0 | CapFlags::PERMITTED.0,
    );

    /// A feature that the boot core decides, and that all other cores must have or lack as the boot core does.
    pub(crate) const STRICT_BOOT_FEATURE: CapFlags = CapFlags(
        CapFlags::SCOPE_BOOT.0 | CapFlags::PANIC.0,
    );
}

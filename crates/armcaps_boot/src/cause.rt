/// Why a core is not admitted (Linux, arch/arm64/kernel/cpufeature.c, `verify_local_cpu_capabilities`).
#[derive(Clone, Copy, Debug, PartialEq, Eq)]
pub enum Cause {
    /// Its ASIDs have fewer bits than the boot core's (Linux, arch/arm64/mm/context.c, `verify_cpu_asid_bits`).
    Asid,
    /// It conflicts with the capability of this number.
    Cap(u16),
    /// It lacks the hwcap of this row of the table, which programs were told of.
    Hwcap(u16),
    /// It lacks vectors of this many times 128 bits, which programs were told of.
    Vector(u8),
}

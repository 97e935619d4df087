use armcaps_enc::SysReg;
use arrayvec::ArrayVec;

/// A field that shows a hwcap, and the least of its values that does.
#[derive(Clone, Copy, Debug, PartialEq, Eq)]
pub struct HwField {
    /// The register that has the field.
    pub reg: SysReg,
    /// The field's place in the table of the register.
    pub index: usize,
    /// The least value.
    pub min: i64,
}

impl Default for HwField {
    fn default() -> HwField {
        HwField {
            reg: SysReg::MidrEl1,
            index: 0,
            min: 0,
        }
    }
}

/// A hwcap: what the table says of it.
///
/// Source: Linux, arch/arm64/include/uapi/asm/hwcap.h for the names and bits; the fields' least values after
/// arch/arm64/kernel/cpufeature.c, `arm64_elf_hwcaps`.
#[derive(Drop)]
pub struct HwRow {
    /// Its name in texts.
    pub name: &'static str,
    /// Whether it stands in the second word.
    pub second: bool,
    /// Its bit in the word.
    pub bit: u32,
    /// Whether every machine has it.
    pub always: bool,
    /// The fields that show it: one is enough.
    pub fields: ArrayVec<HwField, 3>,
}

//! The fields that capabilities and hwcaps ask for, by the names that Linux has for them.

use armcaps_enc::SysReg;

/// Where a field stands: its register, and its place in that register's table, from 0.
///
/// Source: Linux, arch/arm64/tools/sysreg, for the names of the fields.
#[derive(Clone, Copy)]
pub struct FieldPlace {
    /// The register.
    pub reg: SysReg,
    /// The field's place in the register's table.
    pub index: usize,
}

// The field at a place of a register.
macro_rules! at {
    ($reg:ident $index:literal) => {
        FieldPlace {
            reg: SysReg::$reg,
            index: $index,
        }
    };
}

/// FP of ID_AA64PFR0_EL1.
pub const ID_AA64PFR0_FP: FieldPlace = at!(IdAa64Pfr0El1 4);

/// ADVSIMD of ID_AA64PFR0_EL1.
pub const ID_AA64PFR0_ADVSIMD: FieldPlace = at!(IdAa64Pfr0El1 5);

/// RAS of ID_AA64PFR0_EL1.
pub const ID_AA64PFR0_RAS: FieldPlace = at!(IdAa64Pfr0El1 7);

/// SVE of ID_AA64PFR0_EL1.
pub const ID_AA64PFR0_SVE: FieldPlace = at!(IdAa64Pfr0El1 8);

/// DIT of ID_AA64PFR0_EL1.
pub const ID_AA64PFR0_DIT: FieldPlace = at!(IdAa64Pfr0El1 12);

/// BT of ID_AA64PFR1_EL1.
pub const ID_AA64PFR1_BT: FieldPlace = at!(IdAa64Pfr1El1 0);

/// SSBS of ID_AA64PFR1_EL1.
pub const ID_AA64PFR1_SSBS: FieldPlace = at!(IdAa64Pfr1El1 1);

/// MTE of ID_AA64PFR1_EL1.
pub const ID_AA64PFR1_MTE: FieldPlace = at!(IdAa64Pfr1El1 2);

/// SME of ID_AA64PFR1_EL1.
pub const ID_AA64PFR1_SME: FieldPlace = at!(IdAa64Pfr1El1 5);

/// SVEVER of ID_AA64ZFR0_EL1.
pub const ID_AA64ZFR0_SVEVER: FieldPlace = at!(IdAa64Zfr0El1 0);

/// AES of ID_AA64ZFR0_EL1.
pub const ID_AA64ZFR0_AES: FieldPlace = at!(IdAa64Zfr0El1 1);

/// BITPERM of ID_AA64ZFR0_EL1.
pub const ID_AA64ZFR0_BITPERM: FieldPlace = at!(IdAa64Zfr0El1 2);

/// BF16 of ID_AA64ZFR0_EL1.
pub const ID_AA64ZFR0_BF16: FieldPlace = at!(IdAa64Zfr0El1 3);

/// SHA3 of ID_AA64ZFR0_EL1.
pub const ID_AA64ZFR0_SHA3: FieldPlace = at!(IdAa64Zfr0El1 4);

/// SM4 of ID_AA64ZFR0_EL1.
pub const ID_AA64ZFR0_SM4: FieldPlace = at!(IdAa64Zfr0El1 5);

/// I8MM of ID_AA64ZFR0_EL1.
pub const ID_AA64ZFR0_I8MM: FieldPlace = at!(IdAa64Zfr0El1 6);

/// F32MM of ID_AA64ZFR0_EL1.
pub const ID_AA64ZFR0_F32MM: FieldPlace = at!(IdAa64Zfr0El1 7);

/// F64MM of ID_AA64ZFR0_EL1.
pub const ID_AA64ZFR0_F64MM: FieldPlace = at!(IdAa64Zfr0El1 8);

/// FA64 of ID_AA64SMFR0_EL1.
pub const ID_AA64SMFR0_FA64: FieldPlace = at!(IdAa64Smfr0El1 7);

/// AES of ID_AA64ISAR0_EL1.
pub const ID_AA64ISAR0_AES: FieldPlace = at!(IdAa64Isar0El1 0);

/// SHA1 of ID_AA64ISAR0_EL1.
pub const ID_AA64ISAR0_SHA1: FieldPlace = at!(IdAa64Isar0El1 1);

/// SHA2 of ID_AA64ISAR0_EL1.
pub const ID_AA64ISAR0_SHA2: FieldPlace = at!(IdAa64Isar0El1 2);

/// CRC32 of ID_AA64ISAR0_EL1.
pub const ID_AA64ISAR0_CRC32: FieldPlace = at!(IdAa64Isar0El1 3);

/// ATOMIC of ID_AA64ISAR0_EL1.
pub const ID_AA64ISAR0_ATOMIC: FieldPlace = at!(IdAa64Isar0El1 4);

/// RDM of ID_AA64ISAR0_EL1.
pub const ID_AA64ISAR0_RDM: FieldPlace = at!(IdAa64Isar0El1 5);

/// SHA3 of ID_AA64ISAR0_EL1.
pub const ID_AA64ISAR0_SHA3: FieldPlace = at!(IdAa64Isar0El1 6);

/// SM3 of ID_AA64ISAR0_EL1.
pub const ID_AA64ISAR0_SM3: FieldPlace = at!(IdAa64Isar0El1 7);

/// SM4 of ID_AA64ISAR0_EL1.
pub const ID_AA64ISAR0_SM4: FieldPlace = at!(IdAa64Isar0El1 8);

/// DP of ID_AA64ISAR0_EL1.
pub const ID_AA64ISAR0_DP: FieldPlace = at!(IdAa64Isar0El1 9);

/// FHM of ID_AA64ISAR0_EL1.
pub const ID_AA64ISAR0_FHM: FieldPlace = at!(IdAa64Isar0El1 10);

/// TS of ID_AA64ISAR0_EL1.
pub const ID_AA64ISAR0_TS: FieldPlace = at!(IdAa64Isar0El1 11);

/// TLB of ID_AA64ISAR0_EL1.
pub const ID_AA64ISAR0_TLB: FieldPlace = at!(IdAa64Isar0El1 12);

/// RNDR of ID_AA64ISAR0_EL1.
pub const ID_AA64ISAR0_RNDR: FieldPlace = at!(IdAa64Isar0El1 13);

/// DPB of ID_AA64ISAR1_EL1.
pub const ID_AA64ISAR1_DPB: FieldPlace = at!(IdAa64Isar1El1 0);

/// APA of ID_AA64ISAR1_EL1.
pub const ID_AA64ISAR1_APA: FieldPlace = at!(IdAa64Isar1El1 1);

/// API of ID_AA64ISAR1_EL1.
pub const ID_AA64ISAR1_API: FieldPlace = at!(IdAa64Isar1El1 2);

/// JSCVT of ID_AA64ISAR1_EL1.
pub const ID_AA64ISAR1_JSCVT: FieldPlace = at!(IdAa64Isar1El1 3);

/// FCMA of ID_AA64ISAR1_EL1.
pub const ID_AA64ISAR1_FCMA: FieldPlace = at!(IdAa64Isar1El1 4);

/// LRCPC of ID_AA64ISAR1_EL1.
pub const ID_AA64ISAR1_LRCPC: FieldPlace = at!(IdAa64Isar1El1 5);

/// GPA of ID_AA64ISAR1_EL1.
pub const ID_AA64ISAR1_GPA: FieldPlace = at!(IdAa64Isar1El1 6);

/// GPI of ID_AA64ISAR1_EL1.
pub const ID_AA64ISAR1_GPI: FieldPlace = at!(IdAa64Isar1El1 7);

/// FRINTTS of ID_AA64ISAR1_EL1.
pub const ID_AA64ISAR1_FRINTTS: FieldPlace = at!(IdAa64Isar1El1 8);

/// SB of ID_AA64ISAR1_EL1.
pub const ID_AA64ISAR1_SB: FieldPlace = at!(IdAa64Isar1El1 9);

/// BF16 of ID_AA64ISAR1_EL1.
pub const ID_AA64ISAR1_BF16: FieldPlace = at!(IdAa64Isar1El1 11);

/// DGH of ID_AA64ISAR1_EL1.
pub const ID_AA64ISAR1_DGH: FieldPlace = at!(IdAa64Isar1El1 12);

/// I8MM of ID_AA64ISAR1_EL1.
pub const ID_AA64ISAR1_I8MM: FieldPlace = at!(IdAa64Isar1El1 13);

/// WFXT of ID_AA64ISAR2_EL1.
pub const ID_AA64ISAR2_WFXT: FieldPlace = at!(IdAa64Isar2El1 0);

/// RPRES of ID_AA64ISAR2_EL1.
pub const ID_AA64ISAR2_RPRES: FieldPlace = at!(IdAa64Isar2El1 1);

/// GPA3 of ID_AA64ISAR2_EL1.
pub const ID_AA64ISAR2_GPA3: FieldPlace = at!(IdAa64Isar2El1 2);

/// APA3 of ID_AA64ISAR2_EL1.
pub const ID_AA64ISAR2_APA3: FieldPlace = at!(IdAa64Isar2El1 3);

/// MOPS of ID_AA64ISAR2_EL1.
pub const ID_AA64ISAR2_MOPS: FieldPlace = at!(IdAa64Isar2El1 4);

/// FGT of ID_AA64MMFR0_EL1.
pub const ID_AA64MMFR0_FGT: FieldPlace = at!(IdAa64Mmfr0El1 8);

/// ECV of ID_AA64MMFR0_EL1.
pub const ID_AA64MMFR0_ECV: FieldPlace = at!(IdAa64Mmfr0El1 9);

/// HAFDBS of ID_AA64MMFR1_EL1.
pub const ID_AA64MMFR1_HAFDBS: FieldPlace = at!(IdAa64Mmfr1El1 0);

/// PAN of ID_AA64MMFR1_EL1.
pub const ID_AA64MMFR1_PAN: FieldPlace = at!(IdAa64Mmfr1El1 5);

/// HCX of ID_AA64MMFR1_EL1.
pub const ID_AA64MMFR1_HCX: FieldPlace = at!(IdAa64Mmfr1El1 8);

/// AFP of ID_AA64MMFR1_EL1.
pub const ID_AA64MMFR1_AFP: FieldPlace = at!(IdAa64Mmfr1El1 9);

/// TIDCP1 of ID_AA64MMFR1_EL1.
pub const ID_AA64MMFR1_TIDCP1: FieldPlace = at!(IdAa64Mmfr1El1 10);

/// CNP of ID_AA64MMFR2_EL1.
pub const ID_AA64MMFR2_CNP: FieldPlace = at!(IdAa64Mmfr2El1 0);

/// AT of ID_AA64MMFR2_EL1.
pub const ID_AA64MMFR2_AT: FieldPlace = at!(IdAa64Mmfr2El1 4);

/// FWB of ID_AA64MMFR2_EL1.
pub const ID_AA64MMFR2_FWB: FieldPlace = at!(IdAa64Mmfr2El1 5);

/// TTL of ID_AA64MMFR2_EL1.
pub const ID_AA64MMFR2_TTL: FieldPlace = at!(IdAa64Mmfr2El1 6);

/// EVT of ID_AA64MMFR2_EL1.
pub const ID_AA64MMFR2_EVT: FieldPlace = at!(IdAa64Mmfr2El1 7);

/// E0PD of ID_AA64MMFR2_EL1.
pub const ID_AA64MMFR2_E0PD: FieldPlace = at!(IdAa64Mmfr2El1 8);

/// TCRX of ID_AA64MMFR3_EL1.
pub const ID_AA64MMFR3_TCRX: FieldPlace = at!(IdAa64Mmfr3El1 0);

/// S1PIE of ID_AA64MMFR3_EL1.
pub const ID_AA64MMFR3_S1PIE: FieldPlace = at!(IdAa64Mmfr3El1 1);

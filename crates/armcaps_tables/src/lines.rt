//! The fields of the tracked registers, one line each, in the manual's order.

// Reads a field's line: whether users see the field, its name and its lowest bit, and then what is not as usual.
// `$write` gets what it was given, and then visible, name, lowest bit, width, signed, rule, safe value and strict.
macro_rules! field_line {
    ($write:ident $with:tt visible($($line:tt)*)) => {
        field_line!($write $with true $($line)*)
    };
    ($write:ident $with:tt hidden($($line:tt)*)) => {
        field_line!($write $with false $($line)*)
    };
    ($write:ident $with:tt $visible:tt $name:literal, $shift:literal $($more:tt)*) => {
        field_line!($write $with [$visible $name $shift] [4 false Lower 0 true] $($more)*)
    };
    ($write:ident $with:tt $at:tt
     [$width:tt $signed:tt $rule:tt $safe:literal $strict:tt], width $bits:tt $($more:tt)*) => {
        field_line!($write $with $at [$bits $signed $rule $safe $strict] $($more)*)
    };
    ($write:ident $with:tt $at:tt
     [$width:tt $signed:tt $rule:tt $safe:literal $strict:tt], signed $($more:tt)*) => {
        field_line!($write $with $at [$width true $rule $safe $strict] $($more)*)
    };
    ($write:ident $with:tt $at:tt
     [$width:tt $signed:tt $rule:tt $safe:literal $strict:tt], safe $value:literal $($more:tt)*) => {
        field_line!($write $with $at [$width $signed $rule $value $strict] $($more)*)
    };
    ($write:ident $with:tt $at:tt
     [$width:tt $signed:tt $rule:tt $safe:literal $strict:tt], exact $value:literal $($more:tt)*) => {
        field_line!($write $with $at [$width $signed Exact $value $strict] $($more)*)
    };
    ($write:ident $with:tt $at:tt
     [$width:tt $signed:tt $rule:tt $safe:literal $strict:tt], higher $($more:tt)*) => {
        field_line!($write $with $at [$width $signed Higher $safe $strict] $($more)*)
    };
    ($write:ident $with:tt $at:tt
     [$width:tt $signed:tt $rule:tt $safe:literal $strict:tt], higher_or_zero $($more:tt)*) => {
        field_line!($write $with $at [$width $signed HigherOrZero $safe $strict] $($more)*)
    };
    ($write:ident $with:tt $at:tt
     [$width:tt $signed:tt $rule:tt $safe:literal $strict:tt], may_differ $($more:tt)*) => {
        field_line!($write $with $at [$width $signed $rule $safe false] $($more)*)
    };
    ($write:ident $with:tt [$visible:tt $name:literal $shift:literal]
     [$width:tt $signed:tt $rule:tt $safe:literal $strict:tt]) => {
        $write!($with $visible $name $shift $width $signed $rule $safe $strict)
    };
}

// ID_AA64PFR0_EL1, AArch64 Processor Feature Register 0.
macro_rules! id_aa64pfr0 {
    ($write:ident $($with:tt)*) => {
        $write! { [$($with)*]
            0 => hidden("el0", 0, safe 1),
            1 => hidden("el1", 4, safe 1),
            2 => hidden("el2", 8),
            3 => hidden("el3", 12),
            4 => visible("fp", 16, signed, safe -1),
            5 => visible("advsimd", 20, signed, safe -1),
            6 => hidden("gic", 24),
            7 => hidden("ras", 28),
            8 => visible("sve", 32),
            9 => hidden("sel2", 36),
            10 => hidden("mpam", 40, may_differ),
            11 => hidden("amu", 44, may_differ),
            12 => visible("dit", 48),
            13 => hidden("rme", 52),
            14 => hidden("csv2", 56, may_differ),
            15 => hidden("csv3", 60, may_differ),
        }
    };
}

// ID_AA64PFR1_EL1, AArch64 Processor Feature Register 1.
macro_rules! id_aa64pfr1 {
    ($write:ident $($with:tt)*) => {
        $write! { [$($with)*]
            0 => visible("bt", 0),
            1 => visible("ssbs", 4, may_differ),
            2 => visible("mte", 8),
            3 => hidden("ras_frac", 12, may_differ),
            4 => hidden("mpam_frac", 16, may_differ),
            5 => visible("sme", 24),
        }
    };
}

// ID_AA64ZFR0_EL1, SVE Feature ID Register 0.
macro_rules! id_aa64zfr0 {
    ($write:ident $($with:tt)*) => {
        $write! { [$($with)*]
            0 => visible("svever", 0),
            1 => visible("aes", 4),
            2 => visible("bitperm", 16),
            3 => visible("bf16", 20),
            4 => visible("sha3", 32),
            5 => visible("sm4", 40),
            6 => visible("i8mm", 44),
            7 => visible("f32mm", 52),
            8 => visible("f64mm", 56),
        }
    };
}

// ID_AA64SMFR0_EL1, SME Feature ID Register 0.
macro_rules! id_aa64smfr0 {
    ($write:ident $($with:tt)*) => {
        $write! { [$($with)*]
            0 => visible("f32f32", 32, width 1, exact 0),
            1 => visible("b16f32", 34, width 1, exact 0),
            2 => visible("f16f32", 35, width 1, exact 0),
            3 => visible("i8i32", 36, exact 0),
            4 => visible("f64f64", 48, width 1, exact 0),
            5 => visible("i16i64", 52, exact 0),
            6 => visible("smever", 56, exact 0),
            7 => visible("fa64", 63, width 1, exact 0),
        }
    };
}

// ID_AA64DFR0_EL1, AArch64 Debug Feature Register 0.
macro_rules! id_aa64dfr0 {
    ($write:ident $($with:tt)*) => {
        $write! { [$($with)*]
            0 => hidden("debugver", 0, exact 6),
            1 => hidden("pmuver", 8, exact 0, may_differ),
            2 => hidden("brps", 12),
            3 => hidden("wrps", 20),
            4 => hidden("ctx_cmps", 28),
            5 => hidden("pmsver", 32, may_differ),
            6 => hidden("doublelock", 36, signed),
        }
    };
}

// ID_AA64ISAR0_EL1, AArch64 Instruction Set Attribute Register 0.
macro_rules! id_aa64isar0 {
    ($write:ident $($with:tt)*) => {
        $write! { [$($with)*]
            0 => visible("aes", 4),
            1 => visible("sha1", 8),
            2 => visible("sha2", 12),
            3 => visible("crc32", 16),
            4 => visible("atomic", 20),
            5 => visible("rdm", 28),
            6 => visible("sha3", 32),
            7 => visible("sm3", 36),
            8 => visible("sm4", 40),
            9 => visible("dp", 44),
            10 => visible("fhm", 48),
            11 => visible("ts", 52),
            12 => hidden("tlb", 56),
            13 => visible("rndr", 60),
        }
    };
}

// ID_AA64ISAR1_EL1, AArch64 Instruction Set Attribute Register 1.
macro_rules! id_aa64isar1 {
    ($write:ident $($with:tt)*) => {
        $write! { [$($with)*]
            0 => visible("dpb", 0),
            1 => visible("apa", 4, exact 0),
            2 => visible("api", 8, exact 0),
            3 => visible("jscvt", 12),
            4 => visible("fcma", 16),
            5 => visible("lrcpc", 20),
            6 => visible("gpa", 24),
            7 => visible("gpi", 28),
            8 => visible("frintts", 32),
            9 => visible("sb", 36),
            10 => visible("specres", 40),
            11 => visible("bf16", 44),
            12 => visible("dgh", 48),
            13 => visible("i8mm", 52),
            14 => hidden("xs", 56),
            15 => hidden("ls64", 60),
        }
    };
}

// ID_AA64ISAR2_EL1, AArch64 Instruction Set Attribute Register 2.
macro_rules! id_aa64isar2 {
    ($write:ident $($with:tt)*) => {
        $write! { [$($with)*]
            0 => visible("wfxt", 0, may_differ),
            1 => visible("rpres", 4, may_differ),
            2 => visible("gpa3", 8),
            3 => visible("apa3", 12, exact 0),
            4 => visible("mops", 16),
        }
    };
}

// ID_AA64MMFR0_EL1, AArch64 Memory Model Feature Register 0.
macro_rules! id_aa64mmfr0 {
    ($write:ident $($with:tt)*) => {
        $write! { [$($with)*]
            0 => hidden("parange", 0),
            1 => hidden("asidbits", 4),
            2 => hidden("bigend", 8),
            3 => hidden("snsmem", 12),
            4 => hidden("bigendel0", 16),
            5 => hidden("tgran16", 20, may_differ),
            6 => hidden("tgran64", 24, signed, safe -1, may_differ),
            7 => hidden("tgran4", 28, signed, safe -1, may_differ),
            8 => hidden("fgt", 56, may_differ),
            9 => visible("ecv", 60),
        }
    };
}

// ID_AA64MMFR1_EL1, AArch64 Memory Model Feature Register 1.
macro_rules! id_aa64mmfr1 {
    ($write:ident $($with:tt)*) => {
        $write! { [$($with)*]
            0 => hidden("hafdbs", 0),
            1 => hidden("vmidbits", 4),
            2 => hidden("vh", 8),
            3 => hidden("hpds", 12),
            4 => hidden("lo", 16),
            5 => hidden("pan", 20),
            6 => hidden("specsei", 24, higher),
            7 => hidden("xnx", 28),
            8 => hidden("hcx", 40, may_differ),
            9 => visible("afp", 44, may_differ),
            10 => hidden("tidcp1", 52, may_differ),
        }
    };
}

// ID_AA64MMFR2_EL1, AArch64 Memory Model Feature Register 2.
macro_rules! id_aa64mmfr2 {
    ($write:ident $($with:tt)*) => {
        $write! { [$($with)*]
            0 => hidden("cnp", 0),
            1 => hidden("uao", 4),
            2 => hidden("iesb", 12),
            3 => hidden("varange", 16),
            4 => visible("at", 32),
            5 => hidden("fwb", 40),
            6 => hidden("ttl", 48),
            7 => hidden("evt", 56, may_differ),
            8 => hidden("e0pd", 60, may_differ),
        }
    };
}

// ID_AA64MMFR3_EL1, AArch64 Memory Model Feature Register 3.
macro_rules! id_aa64mmfr3 {
    ($write:ident $($with:tt)*) => {
        $write! { [$($with)*]
            0 => hidden("tcrx", 0),
            1 => hidden("s1pie", 8),
        }
    };
}

// CTR_EL0, Cache Type Register.
macro_rules! ctr {
    ($write:ident $($with:tt)*) => {
        $write! { [$($with)*]
            0 => visible("iminline", 0),
            1 => visible("l1ip", 14, width 2, exact 2, may_differ),
            2 => visible("dminline", 16),
            3 => visible("erg", 20, higher_or_zero),
            4 => visible("cwg", 24, higher_or_zero),
            5 => visible("idc", 28, width 1),
            6 => visible("dic", 29, width 1),
            7 => visible("res1", 31, width 1, exact 1),
        }
    };
}

// DCZID_EL0, Data Cache Zero ID Register.
macro_rules! dczid {
    ($write:ident $($with:tt)*) => {
        $write! { [$($with)*]
            0 => visible("bs", 0),
            1 => visible("dzp", 4, width 1, exact 1),
        }
    };
}

pub(crate) use ctr;
pub(crate) use dczid;
pub(crate) use field_line;
pub(crate) use id_aa64dfr0;
pub(crate) use id_aa64isar0;
pub(crate) use id_aa64isar1;
pub(crate) use id_aa64isar2;
pub(crate) use id_aa64mmfr0;
pub(crate) use id_aa64mmfr1;
pub(crate) use id_aa64mmfr2;
pub(crate) use id_aa64mmfr3;
pub(crate) use id_aa64pfr0;
pub(crate) use id_aa64pfr1;
pub(crate) use id_aa64smfr0;
pub(crate) use id_aa64zfr0;

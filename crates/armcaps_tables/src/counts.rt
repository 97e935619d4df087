//! How many fields the tables have.
#![tactic(auto, unfolding(crate::specs::Rows::id_aa64pfr0_rows, crate::specs::Rows::id_aa64pfr1_rows, crate::specs::Rows::id_aa64zfr0_rows, crate::specs::Rows::id_aa64smfr0_rows, crate::specs::Rows::id_aa64dfr0_rows, crate::specs::Rows::id_aa64isar0_rows, crate::specs::Rows::id_aa64isar1_rows, crate::specs::Rows::id_aa64isar2_rows, crate::specs::Rows::id_aa64mmfr0_rows, crate::specs::Rows::id_aa64mmfr1_rows, crate::specs::Rows::id_aa64mmfr2_rows, crate::specs::Rows::id_aa64mmfr3_rows, crate::specs::Rows::ctr_rows, crate::specs::Rows::dczid_rows))]

ghost use Rattle.std.specs.Prelude.{◌≡◌, ◌≤◌, length};
ghost use Rattle.armcaps_tables.specs.Rows.{rows_of};

use crate::lines::{
    ctr, dczid, id_aa64dfr0, id_aa64isar0, id_aa64isar1, id_aa64isar2, id_aa64mmfr0, id_aa64mmfr1,
    id_aa64mmfr2, id_aa64mmfr3, id_aa64pfr0, id_aa64pfr1, id_aa64smfr0, id_aa64zfr0,
};
use armcaps_enc::SysReg;

// How many lines a register has.
macro_rules! line_count {
    ([] $($place:literal => $show:ident $line:tt,)*) => {
        [$($place),*].len()
    };
}

/// The number of a register's fields in its table: 0 for the registers that are not tracked.
pub fn count(reg: SysReg) -> usize
    ensures count { result ≡ length (rows_of reg) }
    ensures bound { result ≤ 16 }
{
    match reg {
        SysReg::MidrEl1 | SysReg::MpidrEl1 | SysReg::RevidrEl1 => 0,
        SysReg::IdAa64Pfr0El1 => id_aa64pfr0!(line_count),
        SysReg::IdAa64Pfr1El1 => id_aa64pfr1!(line_count),
        SysReg::IdAa64Zfr0El1 => id_aa64zfr0!(line_count),
        SysReg::IdAa64Smfr0El1 => id_aa64smfr0!(line_count),
        SysReg::IdAa64Dfr0El1 => id_aa64dfr0!(line_count),
        SysReg::IdAa64Isar0El1 => id_aa64isar0!(line_count),
        SysReg::IdAa64Isar1El1 => id_aa64isar1!(line_count),
        SysReg::IdAa64Isar2El1 => id_aa64isar2!(line_count),
        SysReg::IdAa64Mmfr0El1 => id_aa64mmfr0!(line_count),
        SysReg::IdAa64Mmfr1El1 => id_aa64mmfr1!(line_count),
        SysReg::IdAa64Mmfr2El1 => id_aa64mmfr2!(line_count),
        SysReg::IdAa64Mmfr3El1 => id_aa64mmfr3!(line_count),
        SysReg::CtrEl0 => ctr!(line_count),
        SysReg::DczidEl0 => dczid!(line_count),
    }
}

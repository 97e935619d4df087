//! The row at each place of each register's table.

ghost use Rattle.std.specs.Prelude.{◌≡◌, IfSome, slice_get};
ghost use Rattle.std.specs.Option.{option_map};
ghost use Rattle.armcaps_enc.specs.declared.register.SysReg.TheVariants.{IdAa64Pfr0El1, IdAa64Pfr1El1, IdAa64Zfr0El1, IdAa64Smfr0El1, IdAa64Dfr0El1, IdAa64Isar0El1, IdAa64Isar1El1, IdAa64Isar2El1, IdAa64Mmfr0El1, IdAa64Mmfr1El1, IdAa64Mmfr2El1, IdAa64Mmfr3El1, CtrEl0, DczidEl0};
ghost use Rattle.armcaps_tables.specs.RowOf.{row_of};
ghost use Rattle.armcaps_tables.specs.Rows.{id_aa64pfr0_rows, id_aa64pfr1_rows, id_aa64zfr0_rows, id_aa64smfr0_rows, id_aa64dfr0_rows, id_aa64isar0_rows, id_aa64isar1_rows, id_aa64isar2_rows, id_aa64mmfr0_rows, id_aa64mmfr1_rows, id_aa64mmfr2_rows, id_aa64mmfr3_rows, ctr_rows, dczid_rows};

use crate::field_row::FieldRow;
use crate::lines::{
    ctr, dczid, field_line, id_aa64dfr0, id_aa64isar0, id_aa64isar1, id_aa64isar2, id_aa64mmfr0,
    id_aa64mmfr1, id_aa64mmfr2, id_aa64mmfr3, id_aa64pfr0, id_aa64pfr1, id_aa64smfr0, id_aa64zfr0,
};
use armcaps_bits::Span;
use armcaps_enc::SysReg;
use armcaps_rule::Rule;

// The row that a line says.
macro_rules! field_row {
    ([$reg:ident] $visible:tt $name:tt $shift:tt $width:tt $signed:tt $rule:tt $safe:literal $strict:tt) => {
        FieldRow {
            reg: SysReg::$reg,
            name: $name,
            span: Span {
                shift: $shift,
                width: $width,
                signed: $signed,
            },
            rule: Rule::$rule,
            safe: $safe,
            visible: $visible,
            strict: $strict,
        }
    };
}

// The row at a place of a register.
macro_rules! row_at {
    ([$reg:ident $index:ident] $($place:literal => $show:ident $line:tt,)*) => {
        match $index {
            $($place => Some(field_line!(field_row [$reg] $show $line)),)*
            _ => None,
        }
    };
}

#[tactic(auto, unfolding(crate::specs::Rows::id_aa64pfr0_rows))]
pub(crate) fn id_aa64pfr0_row(index: usize) -> Option<FieldRow>
    ensures row { option_map row_of result ≡ slice_get id_aa64pfr0_rows index }
    ensures reg { IfSome result (λ row. row.reg ≡ IdAa64Pfr0El1) }
{
    id_aa64pfr0!(row_at IdAa64Pfr0El1 index)
}

#[tactic(auto, unfolding(crate::specs::Rows::id_aa64pfr1_rows))]
pub(crate) fn id_aa64pfr1_row(index: usize) -> Option<FieldRow>
    ensures row { option_map row_of result ≡ slice_get id_aa64pfr1_rows index }
    ensures reg { IfSome result (λ row. row.reg ≡ IdAa64Pfr1El1) }
{
    id_aa64pfr1!(row_at IdAa64Pfr1El1 index)
}

#[tactic(auto, unfolding(crate::specs::Rows::id_aa64zfr0_rows))]
pub(crate) fn id_aa64zfr0_row(index: usize) -> Option<FieldRow>
    ensures row { option_map row_of result ≡ slice_get id_aa64zfr0_rows index }
    ensures reg { IfSome result (λ row. row.reg ≡ IdAa64Zfr0El1) }
{
    id_aa64zfr0!(row_at IdAa64Zfr0El1 index)
}

#[tactic(auto, unfolding(crate::specs::Rows::id_aa64smfr0_rows))]
pub(crate) fn id_aa64smfr0_row(index: usize) -> Option<FieldRow>
    ensures row { option_map row_of result ≡ slice_get id_aa64smfr0_rows index }
    ensures reg { IfSome result (λ row. row.reg ≡ IdAa64Smfr0El1) }
{
    id_aa64smfr0!(row_at IdAa64Smfr0El1 index)
}

#[tactic(auto, unfolding(crate::specs::Rows::id_aa64dfr0_rows))]
pub(crate) fn id_aa64dfr0_row(index: usize) -> Option<FieldRow>
    ensures row { option_map row_of result ≡ slice_get id_aa64dfr0_rows index }
    ensures reg { IfSome result (λ row. row.reg ≡ IdAa64Dfr0El1) }
{
    id_aa64dfr0!(row_at IdAa64Dfr0El1 index)
}

#[tactic(auto, unfolding(crate::specs::Rows::id_aa64isar0_rows))]
pub(crate) fn id_aa64isar0_row(index: usize) -> Option<FieldRow>
    ensures row { option_map row_of result ≡ slice_get id_aa64isar0_rows index }
    ensures reg { IfSome result (λ row. row.reg ≡ IdAa64Isar0El1) }
{
    id_aa64isar0!(row_at IdAa64Isar0El1 index)
}

#[tactic(auto, unfolding(crate::specs::Rows::id_aa64isar1_rows))]
pub(crate) fn id_aa64isar1_row(index: usize) -> Option<FieldRow>
    ensures row { option_map row_of result ≡ slice_get id_aa64isar1_rows index }
    ensures reg { IfSome result (λ row. row.reg ≡ IdAa64Isar1El1) }
{
    id_aa64isar1!(row_at IdAa64Isar1El1 index)
}

#[tactic(auto, unfolding(crate::specs::Rows::id_aa64isar2_rows))]
pub(crate) fn id_aa64isar2_row(index: usize) -> Option<FieldRow>
    ensures row { option_map row_of result ≡ slice_get id_aa64isar2_rows index }
    ensures reg { IfSome result (λ row. row.reg ≡ IdAa64Isar2El1) }
{
    id_aa64isar2!(row_at IdAa64Isar2El1 index)
}

#[tactic(auto, unfolding(crate::specs::Rows::id_aa64mmfr0_rows))]
pub(crate) fn id_aa64mmfr0_row(index: usize) -> Option<FieldRow>
    ensures row { option_map row_of result ≡ slice_get id_aa64mmfr0_rows index }
    ensures reg { IfSome result (λ row. row.reg ≡ IdAa64Mmfr0El1) }
{
    id_aa64mmfr0!(row_at IdAa64Mmfr0El1 index)
}

#[tactic(auto, unfolding(crate::specs::Rows::id_aa64mmfr1_rows))]
pub(crate) fn id_aa64mmfr1_row(index: usize) -> Option<FieldRow>
    ensures row { option_map row_of result ≡ slice_get id_aa64mmfr1_rows index }
    ensures reg { IfSome result (λ row. row.reg ≡ IdAa64Mmfr1El1) }
{
    id_aa64mmfr1!(row_at IdAa64Mmfr1El1 index)
}

#[tactic(auto, unfolding(crate::specs::Rows::id_aa64mmfr2_rows))]
pub(crate) fn id_aa64mmfr2_row(index: usize) -> Option<FieldRow>
    ensures row { option_map row_of result ≡ slice_get id_aa64mmfr2_rows index }
    ensures reg { IfSome result (λ row. row.reg ≡ IdAa64Mmfr2El1) }
{
    id_aa64mmfr2!(row_at IdAa64Mmfr2El1 index)
}

#[tactic(auto, unfolding(crate::specs::Rows::id_aa64mmfr3_rows))]
pub(crate) fn id_aa64mmfr3_row(index: usize) -> Option<FieldRow>
    ensures row { option_map row_of result ≡ slice_get id_aa64mmfr3_rows index }
    ensures reg { IfSome result (λ row. row.reg ≡ IdAa64Mmfr3El1) }
{
    id_aa64mmfr3!(row_at IdAa64Mmfr3El1 index)
}

#[tactic(auto, unfolding(crate::specs::Rows::ctr_rows))]
pub(crate) fn ctr_row(index: usize) -> Option<FieldRow>
    ensures row { option_map row_of result ≡ slice_get ctr_rows index }
    ensures reg { IfSome result (λ row. row.reg ≡ CtrEl0) }
{
    ctr!(row_at CtrEl0 index)
}

#[tactic(auto, unfolding(crate::specs::Rows::dczid_rows))]
pub(crate) fn dczid_row(index: usize) -> Option<FieldRow>
    ensures row { option_map row_of result ≡ slice_get dczid_rows index }
    ensures reg { IfSome result (λ row. row.reg ≡ DczidEl0) }
{
    dczid!(row_at DczidEl0 index)
}

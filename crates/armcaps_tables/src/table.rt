ghost use Rattle.std.specs.Prelude.{◌≡◌, ◌+◌, ◌<◌, ◌≤◌, ◌↔◌, IsTrue, IsSome, IfSome, length, sum_by, slice_get, slice_index_or, position, ℕ, false, Some};
ghost use Rattle.std.specs.Option.{option_map};
ghost use Rattle.armcaps_bits.specs.Field.{IsRange, field_fits};
ghost use Rattle.armcaps_rule.specs.declared.rule.Rule.TheVariants.{HigherOrZero};
ghost use Rattle.armcaps_enc.specs.declared.register.SysReg.{SysReg};
ghost use Rattle.armcaps_enc.specs.Registers.{registers};
ghost use Rattle.armcaps_tables.specs.Facts.{has_name, table_holds};
ghost use Rattle.armcaps_tables.specs.Row.{Row};
ghost use Rattle.armcaps_tables.specs.RowOf.{row_of};
ghost use Rattle.armcaps_tables.specs.Rows.{rows_of};

use crate::counts::count;
use crate::field_row::FieldRow;
use crate::rows;
use armcaps_enc::SysReg;

/// A register's field by its place in the table, from 0. None where the table has no such place.
pub fn row(reg: SysReg, index: usize) -> Option<FieldRow>
    ensures row { option_map row_of result ≡ slice_get (rows_of reg) index }
    ensures some { IsSome result ↔ (index < length (rows_of reg)) }
    ensures reg { IfSome result (λ row. row.reg ≡ reg) }
    ensures safe { IfSome result (λ row. IsTrue (field_fits row.span.signed row.span.width row.safe)) }
    ensures unsigned { IfSome result (λ row. row.rule ≡ HigherOrZero → row.span.signed ≡ false) }
{
    row_of_table(reg, index)
}

/// A register's field by its place in the table, from 0.
pub fn field(reg: SysReg, index: usize) -> FieldRow
    requires { index < length (rows_of reg) }
    ensures row { slice_get (rows_of reg) index ≡ Some (row_of result) }
    ensures reg { result.reg ≡ reg }
    ensures safe { IsTrue (field_fits result.span.signed result.span.width result.safe) }
    ensures unsigned { result.rule ≡ HigherOrZero → result.span.signed ≡ false }
{
    row(reg, index).unwrap()
}

// The row that the register's own table has.
fn row_of_table(reg: SysReg, index: usize) -> Option<FieldRow>
    ensures row { option_map row_of result ≡ slice_get (rows_of reg) index }
    ensures reg { IfSome result (λ row. row.reg ≡ reg) }
{
    match reg {
        SysReg::MidrEl1 | SysReg::MpidrEl1 | SysReg::RevidrEl1 => None,
        SysReg::IdAa64Pfr0El1 => rows::id_aa64pfr0_row(index),
        SysReg::IdAa64Pfr1El1 => rows::id_aa64pfr1_row(index),
        SysReg::IdAa64Zfr0El1 => rows::id_aa64zfr0_row(index),
        SysReg::IdAa64Smfr0El1 => rows::id_aa64smfr0_row(index),
        SysReg::IdAa64Dfr0El1 => rows::id_aa64dfr0_row(index),
        SysReg::IdAa64Isar0El1 => rows::id_aa64isar0_row(index),
        SysReg::IdAa64Isar1El1 => rows::id_aa64isar1_row(index),
        SysReg::IdAa64Isar2El1 => rows::id_aa64isar2_row(index),
        SysReg::IdAa64Mmfr0El1 => rows::id_aa64mmfr0_row(index),
        SysReg::IdAa64Mmfr1El1 => rows::id_aa64mmfr1_row(index),
        SysReg::IdAa64Mmfr2El1 => rows::id_aa64mmfr2_row(index),
        SysReg::IdAa64Mmfr3El1 => rows::id_aa64mmfr3_row(index),
        SysReg::CtrEl0 => rows::ctr_row(index),
        SysReg::DczidEl0 => rows::dczid_row(index),
    }
}

/// The place of a register's field in the table by its name. None exactly where no field of the register has the name.
pub fn find(reg: SysReg, name: &[u8]) -> Option<usize>
    ensures first { result ≡ position (has_name name.now) (rows_of reg) }
    ensures within { IfSome result (λ index. index < length (rows_of reg)) }
{
    for index in 0..count(reg) {
        if is_named(reg, index, name) {
            return Some(index);
        }
    }
    None
}

// Whether the field at a place has the name.
fn is_named(reg: SysReg, index: usize, name: &[u8]) -> bool
    requires { index < length (rows_of reg) }
    ensures { (other : Row) → result ≡ has_name name.now (slice_index_or (rows_of reg) index other) }
{
    field(reg, index).name.as_bytes() == name
}

/// Of every table: the fields of a register stand in rising order, have no bit in common and lie within its 64 bits;
/// each safe value fits its field; a field for which 0 counts less than every other value is unsigned; and no two
/// fields of a register have one name. There are 123 fields. The first clause says the same in one test.
pub fn tables_hold()
    ensures holds { (reg : SysReg) → IsTrue (table_holds (rows_of reg)) }
    ensures apart { (reg : SysReg) (i j : ℕ) (one other : Row) → i < j
        → slice_get (rows_of reg) i ≡ Some one → slice_get (rows_of reg) j ≡ Some other
        → one.shift + one.width ≤ other.shift }
    ensures within { (reg : SysReg) (i : ℕ) (row : Row) → slice_get (rows_of reg) i ≡ Some row
        → IsRange row.shift row.width }
    ensures safe { (reg : SysReg) (i : ℕ) (row : Row) → slice_get (rows_of reg) i ≡ Some row
        → IsTrue (field_fits row.signed row.width row.safe) }
    ensures unsigned { (reg : SysReg) (i : ℕ) (row : Row) → slice_get (rows_of reg) i ≡ Some row
        → row.rule ≡ HigherOrZero → row.signed ≡ false }
    ensures names { (reg : SysReg) (i j : ℕ) (one other : Row)
        → slice_get (rows_of reg) i ≡ Some one → slice_get (rows_of reg) j ≡ Some other
        → one.name ≡ other.name → i ≡ j }
    ensures all { sum_by (λ reg. length (rows_of reg)) registers ≡ 123 }
{}

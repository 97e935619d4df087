//! Settings, written into the overrides.

ghost use Rattle.std.specs.Prelude.{◌≡◌, ◌%◌, ◌^◌, ◌<◌, Some, length, slice_get};
ghost use Rattle.std.specs.Option.{option_map};
ghost use Rattle.armcaps_tables.specs.Rows.{rows_of};
ghost use Rattle.armcaps_cmdline.specs.Assignments.{assigned, zeros_for, is_field, dependents, is_cut_to_zero, assignments_to};
ghost use Rattle.armcaps_cmdline.specs.Overrides.{Assigns};

use armcaps_enc::SysReg;
use armcaps_tables::{Overrides, count, field as row, find};

// The number for the row that has the name, if a row has it.
#[tactic(auto, using(crate::proofs::Assignments::assigns_one, crate::proofs::Assignments::assigns_nothing))]
fn set_field(overrides: &mut Overrides, register: SysReg, field: &[u8], number: u64)
    ensures { Assigns (assigned register field.now number) overrides.old overrides.new }
{
    if let Some(index) = find(register, field) {
        overrides.set(register, index, number);
    }
}

// 0 for each row of a register.
#[tactic(auto, using(crate::proofs::Assignments::zeros_more, crate::proofs::Assignments::assigns_nothing))]
fn zero_rows(overrides: &mut Overrides, register: SysReg)
    ensures { Assigns (zeros_for register) overrides.old overrides.new }
{
    for index in 0..count(register) {
        overrides.set(register, index, 0);
    }
}

fn is_field(register: SysReg, field: &[u8], other: SysReg, name: &[u8]) -> bool
    ensures { result ≡ is_field register field.now other name.now }
{
    register.place() == other.place() && field == name
}

// 0 for each row that a field at 0 sets to 0 as well.
#[tactic(auto, using(crate::proofs::Assignments::sve_dependents, crate::proofs::Assignments::assigns_nothing))]
fn zero_dependents(overrides: &mut Overrides, register: SysReg, field: &[u8])
    ensures { Assigns (dependents register field.now) overrides.old overrides.new }
{
    if is_field(register, field, SysReg::IdAa64Pfr0El1, b"sve") {
        zero_rows(overrides, SysReg::IdAa64Zfr0El1);
        set_field(overrides, SysReg::IdAa64Pfr1El1, b"sme", 0);
        zero_rows(overrides, SysReg::IdAa64Smfr0El1);
    } else if is_field(register, field, SysReg::IdAa64Pfr1El1, b"sme") {
        zero_rows(overrides, SysReg::IdAa64Smfr0El1);
    }
}

// How many bits a row has.
fn width_of(register: SysReg, index: usize) -> u32
    requires { index < length (rows_of register) }
    ensures width { option_map (λ row. row.width) (slice_get (rows_of register) index) ≡ Some result }
    ensures small { result < 64 }
{
    row(register, index).span.width
}

// A number cut to a width.
#[tactic(auto, using(crate::proofs::Assignments::low_bits))]
fn cut(number: u64, width: u32) -> u64
    requires { width < 64 }
    ensures { result ≡ number % 2 ^ width }
{
    number % (1 << width)
}

// Whether a number is 0 once it is cut to the width of the row that has the name.
#[tactic(auto, using(crate::proofs::Assignments::cut_at, crate::proofs::Assignments::cut_nowhere))]
fn is_cut_to_zero(register: SysReg, field: &[u8], number: u64) -> bool
    ensures { result ≡ is_cut_to_zero register field.now number }
{
    match find(register, field) {
        Some(index) => cut(number, width_of(register, index)) == 0,
        None => false,
    }
}

/// Sets a field to a number, and where that makes it 0 what depends on it too; nothing where no field has the name.
#[tactic(auto, using(crate::proofs::Assignments::setting_with_dependents))]
pub(crate) fn assign(overrides: &mut Overrides, register: SysReg, field: &[u8], number: u64)
    ensures { Assigns (assignments_to (record { register = register; field = field.now; number = number }))
        overrides.old overrides.new }
{
    set_field(overrides, register, field, number);
    if is_cut_to_zero(register, field, number) {
        zero_dependents(overrides, register, field);
    }
}

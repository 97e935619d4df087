//! What is written of the baseline of a pool.

ghost use Rattle.std.specs.Prelude.{◌≡◌, ◌<◌, ◌++◌, IfOk, OnOk, Some, length, slice_get, string_bytes};
ghost use Rattle.armcaps_tables.specs.Row.{Row};
ghost use Rattle.armcaps_tables.specs.RowOf.{row_of};
ghost use Rattle.armcaps_tables.specs.Rows.{rows_of};
ghost use Rattle.armcaps_report.specs.Pooled.{baseline_lines, field_limit, field_limits, limit_line, limit_lines, machines_line, pool_report_of};

use crate::registers::push_register;
use armcaps_baseline::Baseline;
use armcaps_enc::SysReg;
use armcaps_tables::{FieldRow, count, field};
use std::alloc::{AllocError, Global};
use std::fmt::Write;

/// What is written of a pool's baseline: the number of its machines, the word of each tracked register, and for each
/// field the machine that limits it, counted from 0. An `Err` is want of memory.
#[tactic(auto, unfolding(crate::specs::Pooled::pool_report_of))]
pub fn pool_report(alloc: Global, baseline: &Baseline) -> Result<String, AllocError>
    ensures { IfOk result (λ text. string_bytes text ≡ pool_report_of baseline.now) }
{
    let mut text = String::new(alloc);
    text.push_str("armcaps pool 1\n")?;
    push_machines(&mut text, baseline)?;
    push_words(&mut text, baseline)?;
    push_limits(&mut text, baseline)?;
    text.push_str("end\n")?;
    Ok(text)
}

// Adds how many machines there are.
fn push_machines(text: &mut String, baseline: &Baseline) -> Result<(), AllocError>
    ensures { OnOk result (string_bytes text.new ≡ string_bytes text.old ++ machines_line baseline.now) }
{
    let machines = baseline.count();
    write!(text, "machines {machines}\n")
}

// Adds the lines of the baseline's registers.
fn push_words(text: &mut String, baseline: &Baseline) -> Result<(), AllocError>
    ensures { OnOk result (string_bytes text.new ≡ string_bytes text.old ++ baseline_lines baseline.now) }
{
    for register in SysReg::TRACKED {
        push_register(text, register, baseline.word(register))?;
    }
    Ok(())
}

// Adds the lines of all fields.
fn push_limits(text: &mut String, baseline: &Baseline) -> Result<(), AllocError>
    ensures { OnOk result (string_bytes text.new ≡ string_bytes text.old ++ limit_lines baseline.now) }
{
    for register in SysReg::TRACKED {
        push_limits_of(text, baseline, register)?;
    }
    Ok(())
}

// Adds the lines of a register's fields.
fn push_limits_of(
    text: &mut String,
    baseline: &Baseline,
    register: SysReg,
) -> Result<(), AllocError>
    ensures { OnOk result (string_bytes text.new ≡ string_bytes text.old ++ field_limits baseline.now register) }
{
    for index in 0..count(register) {
        push_limit_at(text, baseline, register, index)?;
    }
    Ok(())
}

// Adds the line of the field at an index of a register's table.
fn push_limit_at(
    text: &mut String,
    baseline: &Baseline,
    register: SysReg,
    index: usize,
) -> Result<(), AllocError>
    requires { index < length (rows_of register) }
    ensures { OnOk result ((row : Row) → slice_get (rows_of register) index ≡ Some row
        → string_bytes text.new ≡ string_bytes text.old ++ field_limit baseline.now register row) }
{
    let machine = baseline.limit(register, index);
    push_limit(text, &field(register, index), machine)
}

// Adds the line of a field, by the machine that limits it.
fn push_limit(text: &mut String, row: &FieldRow, machine: u32) -> Result<(), AllocError>
    ensures { OnOk result (string_bytes text.new ≡ string_bytes text.old
        ++ limit_line row.now.reg (row_of row.now) machine) }
{
    let register = row.reg.short_name();
    let name = row.name;
    write!(text, "limit {register}.{name} {machine}\n")
}

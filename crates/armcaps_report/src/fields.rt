//! The group of overrides: what each came to on the boot core.

ghost use Rattle.std.specs.Prelude.{◌≡◌, ◌<◌, ◌++◌, OnOk, length, string_bytes};
ghost use Rattle.armcaps_tables.specs.RowOf.{row_of};
ghost use Rattle.armcaps_tables.specs.Rows.{rows_of};
ghost use Rattle.armcaps_board.specs.Board.{boot_core};
ghost use Rattle.armcaps_boot.specs.Findings.{findings_of};
ghost use Rattle.armcaps_report.specs.Lines.{note_line};
ghost use Rattle.armcaps_report.specs.Report.{all_note_lines, note_line_at, note_lines};

use crate::varying::boot_core;
use armcaps_boot::Boot;
use armcaps_enc::SysReg;
use armcaps_sanit::{Note, note};
use armcaps_tables::{FieldRow, count, field};
use std::alloc::AllocError;
use std::fmt::Write;

/// Adds the lines of all fields that have an override.
pub(crate) fn push_notes(text: &mut String, boot: &Boot) -> Result<(), AllocError>
    ensures { OnOk result (string_bytes text.new ≡ string_bytes text.old ++ all_note_lines (findings_of boot.now)) }
{
    for register in SysReg::TRACKED {
        push_notes_of(text, boot, register)?;
    }
    Ok(())
}

// Adds the lines of a register's fields.
fn push_notes_of(text: &mut String, boot: &Boot, register: SysReg) -> Result<(), AllocError>
    ensures { OnOk result (string_bytes text.new ≡ string_bytes text.old
        ++ note_lines boot.now.board.overrides (boot_core boot.now.board) register) }
{
    for index in 0..count(register) {
        push_note_at(text, boot, register, index)?;
    }
    Ok(())
}

// Adds the line of the field at an index of a register's table.
#[tactic(auto, unfolding(crate::specs::Report::note_line_at))]
fn push_note_at(
    text: &mut String,
    boot: &Boot,
    register: SysReg,
    index: usize,
) -> Result<(), AllocError>
    requires { index < length (rows_of register) }
    ensures { OnOk result (string_bytes text.new ≡ string_bytes text.old
        ++ note_line_at boot.now.board.overrides (boot_core boot.now.board) register index) }
{
    let row = field(register, index);
    let note = note(boot_core(boot), boot.overrides(), register, index);
    push_note(text, &row, note)
}

// Adds a field's line, where it has an override.
fn push_note(text: &mut String, row: &FieldRow, note: Note) -> Result<(), AllocError>
    ensures { OnOk result (string_bytes text.new ≡ string_bytes text.old
        ++ note_line row.now.reg (row_of row.now) note) }
{
    let register = row.reg.short_name();
    let name = row.name;
    match note {
        Note::None => Ok(()),
        Note::Forced => write!(text, "note {register}.{name} forced\n"),
        Note::Ignored => write!(text, "note {register}.{name} ignored\n"),
        Note::Already => write!(text, "note {register}.{name} already\n"),
    }
}

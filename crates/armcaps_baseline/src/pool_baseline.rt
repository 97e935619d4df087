//! What is told of a baseline: its words, its fields, and the machine that limits each field.

ghost use Rattle.std.specs.Prelude.{◌≡◌, ◌<◌, ◌≤◌, Some, length, slice_get};
ghost use Rattle.std.specs.Option.{option_map};
ghost use Rattle.armcaps_tables.specs.Row.{Row};
ghost use Rattle.armcaps_tables.specs.RowOf.{row_of};
ghost use Rattle.armcaps_tables.specs.Rows.{rows_of};
ghost use Rattle.armcaps_baseline.specs.Baselines.{baseline_field, baseline_word, limiting_machine};

use armcaps_enc::SysReg;
use armcaps_rule::merge;
use armcaps_sanit::System;
use armcaps_tables::{FieldRow, field};
use std::marker::Model;

/// The baseline of some machines: what a guest may be shown that moves among them. Contracts see the machines, each by
/// the words of its registers, in their order.
#[derive(Drop)]
pub struct Baseline {
    pub(crate) machines: Vec<System>,
    // what they have in common
    pub(crate) whole: System,
}

impl Model for Baseline {
    ghost use Rattle.std.specs.Prelude.{List, ℕ};

    ghost Value = { List (List ℕ) };

    ghost use Rattle.armcaps_baseline.specs.Baselines.{IsOf};

    ghost view = { λ baseline. baseline.machines.items };

    ghost invariant = { λ baseline. IsOf baseline.machines.items baseline.whole };
}

impl Baseline {
    /// How many machines it stands for.
    pub fn count(&self) -> u32
        ensures { result ≡ length self.now }
    {
        self.machines.len() as u32
    }

    /// A register's word: the baseline's fields at their places, and 0 in all other bits.
    pub fn word(&self, reg: SysReg) -> u64
        ensures { result ≡ baseline_word self.now reg }
    {
        self.whole.word(reg)
    }

    /// A field's value. `index` is its place in the register's table.
    pub fn field(&self, reg: SysReg, index: usize) -> i64
        requires { index < length (rows_of reg) }
        ensures { option_map (baseline_field self.now reg) (slice_get (rows_of reg) index) ≡ Some result }
    {
        self.whole.field(reg, index)
    }

    /// The machine that limits a field, counted from 0: the first one that, with those before it, gives the field the
    /// value that all of them give it. `index` is the field's place in the register's table.
    pub fn limit(&self, reg: SysReg, index: usize) -> u32
        requires { index < length (rows_of reg) }
        ensures { (row : Row) → slice_get (rows_of reg) index ≡ Some row
            → limiting_machine self.now reg row ≡ Some result }
    {
        let row = field(reg, index);
        let whole = self.whole.field(reg, index);
        limit_in(&self.machines, &row, index, whole)
    }
}

// The machine that limits a field of this row, whose value over all machines is `whole`.
fn limit_in(machines: &[System], row: &FieldRow, index: usize, whole: i64) -> u32
    requires row { slice_get (rows_of row.now.reg) index ≡ Some (row_of row.now) }
    requires some { 0 < length machines.now }
    requires few { length machines.now ≤ 64 }
    requires whole { whole ≡ baseline_field machines.now row.now.reg (row_of row.now) }
    ensures { limiting_machine machines.now row.now.reg (row_of row.now) ≡ Some result }
{
    let mut so_far = machines[0].field(row.reg, index);
    for number in 1..machines.len() {
        if so_far == whole {
            return number as u32 - 1;
        }
        so_far = merge(
            row.rule,
            row.safe,
            so_far,
            machines[number].field(row.reg, index),
        );
    }
    machines.len() as u32 - 1
}

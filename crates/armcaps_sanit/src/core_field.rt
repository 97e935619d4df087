//! A field of one core: the value that it counts as, and what its override comes to.

ghost use Rattle.std.specs.Prelude.{◌≡◌, ◌<◌, Some, length, slice_get};
ghost use Rattle.std.specs.Option.{option_map};
ghost use Rattle.armcaps_tables.specs.Rows.{rows_of};
ghost use Rattle.armcaps_sanit.specs.Notes.{field_note};
ghost use Rattle.armcaps_sanit.specs.System.{local_field};

use crate::noted::Note;
use armcaps_enc::SysReg;
use armcaps_rule::{forced, merge};
use armcaps_tables::{CoreRegs, Overrides, field};

/// The value that a core's field counts as: what the core has, under the override of the field.
/// `index` is the field's place in the register's table.
pub fn local(overrides: &Overrides, core: &CoreRegs, reg: SysReg, index: usize) -> i64
    requires { index < length (rows_of reg) }
    ensures { option_map (local_field overrides.now core.now reg index) (slice_get (rows_of reg) index)
        ≡ Some result }
{
    let field = field(reg, index);
    let value = field.span.value(core.get(reg));
    forced(field.rule, field.safe, overrides.get(reg, index), &[value])
}

/// What the override of a field comes to on the boot core (Linux, `init_cpu_ftr_reg`).
/// `index` is the field's place in the register's table.
pub fn note(boot: &CoreRegs, overrides: &Overrides, reg: SysReg, index: usize) -> Note
    requires { index < length (rows_of reg) }
    ensures { option_map (field_note overrides.now boot.now reg index) (slice_get (rows_of reg) index)
        ≡ Some result }
{
    let Some(override_) = overrides.get(reg, index) else {
        return Note::None;
    };
    let field = field(reg, index);
    let value = field.span.value(boot.get(reg));
    if merge(field.rule, field.safe, override_, value) != override_ {
        Note::Ignored
    } else if value == override_ {
        Note::Already
    } else {
        Note::Forced
    }
}

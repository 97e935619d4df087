ghost use Rattle.std.specs.Prelude.{◌≡◌, ◌<◌, List};
ghost use Rattle.std.specs.List.{list_any};
ghost use Rattle.armcaps_tables.specs.Core.{Core};
ghost use Rattle.armcaps_sanit.specs.Reaching.{word_values};
ghost use Rattle.armcaps_tables.specs.Overriding.{FieldOverrides};
ghost use Rattle.armcaps_sanit.specs.System.{local_field, IsSystemOf};
ghost use Rattle.armcaps_hwcap.specs.Hwcaps.{core_has_hwcap, shows, system_has_hwcap};
ghost use Rattle.armcaps_hwcap.specs.Rows.{hwcap_count};
ghost use Rattle.armcaps_hwcap.specs.Words.{hwcap2_word, hwcap_word, IsAdvertised};

use crate::hw_set::{HwSet, with_row};
use crate::row::HwField;
use crate::table::{HWCAPS, line_at};
use armcaps_sanit::{System, local};
use armcaps_tables::{CoreRegs, Overrides, row};

/// Whether a core has the hwcap at this place of the table. Of each field the core's own value counts, under the
/// overrides.
#[tactic(auto, unfolding(crate::specs::Hwcaps::hwcap_shows))]
pub fn core_has(index: usize, overrides: &Overrides, core: &CoreRegs) -> bool
    requires { index < hwcap_count }
    ensures { result ≡ core_has_hwcap overrides.now core.now index }
{
    let line = line_at(index);
    line.always || one_shows_on_core(line.fields, overrides, core)
}

// Whether one of the fields shows a hwcap on a core.
fn one_shows_on_core(fields: &[HwField], overrides: &Overrides, core: &CoreRegs) -> bool
    ensures { result ≡ list_any (shows (local_field overrides.now core.now)) fields.now }
{
    fields
        .iter()
        .any(|field| shows_on_core(field, overrides, core))
}

// Whether a core's field shows a hwcap to users.
fn shows_on_core(field: &HwField, overrides: &Overrides, core: &CoreRegs) -> bool
    ensures { result ≡ shows (local_field overrides.now core.now) field.now }
{
    match row(field.reg, field.index) {
        Some(row) if row.visible => local(overrides, core, field.reg, field.index) >= field.min,
        _ => false,
    }
}

/// The hwcaps that are advertised to programs of users, by what all cores that the system stands for have in common.
pub fn of_system(system: &System) -> HwSet
    ensures hwcap { result.hwcap ≡ hwcap_word (system_has_hwcap system.now) }
    ensures hwcap2 { result.hwcap2 ≡ hwcap2_word (system_has_hwcap system.now) }
    ensures stands { (overrides : FieldOverrides) (cores : List Core) → IsSystemOf overrides cores system.now
        → IsAdvertised overrides cores result }
{
    let mut set = HwSet {
        hwcap: 0,
        hwcap2: 0,
    };
    for index in 0..HWCAPS {
        if system_has(index, system) {
            set = with_row(set, index);
        }
    }
    set
}

// Whether the hwcap at this place of the table is advertised.
#[tactic(auto, unfolding(crate::specs::Hwcaps::hwcap_shows))]
fn system_has(index: usize, system: &System) -> bool
    requires { index < hwcap_count }
    ensures { result ≡ system_has_hwcap system.now index }
{
    let line = line_at(index);
    line.always || one_shows(line.fields, system)
}

// Whether one of the system's fields shows a hwcap.
fn one_shows(fields: &[HwField], system: &System) -> bool
    ensures { result ≡ list_any (shows (word_values system.now)) fields.now }
{
    fields.iter().any(|field| shows_of_system(field, system))
}

// Whether a field of the system shows a hwcap to users.
fn shows_of_system(field: &HwField, system: &System) -> bool
    ensures { result ≡ shows (word_values system.now) field.now }
{
    match row(field.reg, field.index) {
        Some(row) if row.visible => system.field(field.reg, field.index) >= field.min,
        _ => false,
    }
}

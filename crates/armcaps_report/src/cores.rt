//! The group of cores.

ghost use Rattle.std.specs.Prelude.{◌≡◌, ◌++◌, ◌==◌, OnOk, codes, if◌then◌else◌, string_bytes};
ghost use Rattle.armcaps_boot.specs.Findings.{findings_of};
ghost use Rattle.armcaps_boot.specs.World.{state_at};
ghost use Rattle.armcaps_report.specs.Lines.{core_line, state_text, time_text};
ghost use Rattle.armcaps_report.specs.Report.{core_lines};

use crate::causes::push_cause;
use armcaps_boot::{Boot, CoreState};
use std::alloc::AllocError;
use std::fmt::Write;

/// Adds the lines of the cores.
pub(crate) fn push_cores(text: &mut String, boot: &Boot) -> Result<(), AllocError>
    ensures { OnOk result (string_bytes text.new ≡ string_bytes text.old ++ core_lines (findings_of boot.now)) }
{
    for number in 0..boot.count() {
        push_core(text, boot, number)?;
    }
    Ok(())
}

// Adds the line of a core.
#[tactic(auto, unfolding(crate::specs::Lines::core_line))]
fn push_core(text: &mut String, boot: &Boot, number: u32) -> Result<(), AllocError>
    ensures { OnOk result (string_bytes text.new ≡ string_bytes text.old
        ++ core_line boot.now.board.boot number (state_at boot.now.states number)) }
{
    write!(text, "core {number} ")?;
    push_standing(text, boot, number)?;
    text.push_str("\n")
}

// Adds that a core is the boot core, or else what became of it.
fn push_standing(text: &mut String, boot: &Boot, number: u32) -> Result<(), AllocError>
    ensures { OnOk result (string_bytes text.new ≡ string_bytes text.old
        ++ (if number == boot.now.board.boot then codes "boot" else state_text (state_at boot.now.states number))) }
{
    if number == boot.boot_core() {
        text.push_str("boot")
    } else {
        push_state(text, state(boot, number))
    }
}

// The state of a core, and that of one that is absent where there is no such core.
pub(crate) fn state(boot: &Boot, number: u32) -> CoreState
    ensures { result ≡ state_at boot.now.states number }
{
    boot.state(number).unwrap_or(CoreState::Absent)
}

// Adds what became of a core.
#[tactic(auto, unfolding(crate::specs::Lines::state_text))]
fn push_state(text: &mut String, state: CoreState) -> Result<(), AllocError>
    ensures { OnOk result (string_bytes text.new ≡ string_bytes text.old ++ state_text state) }
{
    match state {
        CoreState::Absent => text.push_str("absent"),
        CoreState::Admitted { late } => text.push_str(time(late)),
        CoreState::Offline { late } => {
            let time = time(late);
            write!(text, "{time} offline")
        }
        CoreState::Parked(cause) => {
            text.push_str("parked ")?;
            push_cause(text, cause)
        }
        CoreState::Checked(_) | CoreState::Updated(_) | CoreState::Panicked(_) => Ok(()),
    }
}

// Whether a core first came after finalisation or before it.
fn time(late: bool) -> &'static str
    ensures { result.now ≡ time_text late }
{
    if late { "late" } else { "early" }
}

//! The group of capabilities.

ghost use Rattle.std.specs.Prelude.{◌≡◌, ◌<◌, ◌++◌, OnOk, string_bytes, true};
ghost use Rattle.armcaps_boot.specs.Findings.{findings_of};
ghost use Rattle.armcaps_report.specs.Lines.{capability_line};
ghost use Rattle.armcaps_report.specs.Report.{capability_lines};

use crate::causes::push_capability;
use armcaps_boot::Boot;
use armcaps_caps::CAPABILITIES;
use std::alloc::AllocError;

/// Adds the lines of the capabilities that are enabled.
#[tactic(auto, unfolding(crate::specs::Report::capability_lines))]
pub(crate) fn push_capabilities(text: &mut String, boot: &Boot) -> Result<(), AllocError>
    requires { boot.now.final ≡ true }
    ensures { OnOk result (string_bytes text.new ≡ string_bytes text.old ++ capability_lines (findings_of boot.now)) }
{
    for number in 0..CAPABILITIES {
        push_where_enabled(text, boot.enabled(number), number)?;
    }
    Ok(())
}

// Adds the line of a capability, where it is enabled.
fn push_where_enabled(text: &mut String, enabled: bool, number: u16) -> Result<(), AllocError>
    ensures { OnOk result (string_bytes text.new ≡ string_bytes text.old ++ capability_line enabled number) }
{
    if enabled {
        push_capability(text, number)?;
        text.push_str("\n")
    } else {
        Ok(())
    }
}

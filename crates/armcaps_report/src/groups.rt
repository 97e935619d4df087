//! One group of a report.

ghost use Rattle.std.specs.Prelude.{◌≡◌, ◌++◌, OnOk, string_bytes, true};
ghost use Rattle.armcaps_boot.specs.Findings.{findings_of};
ghost use Rattle.armcaps_report.specs.Report.{group_text};

use crate::capabilities::push_capabilities;
use crate::cores::push_cores;
use crate::fields::push_notes;
use crate::group::Group;
use crate::hwcaps::push_hwcaps;
use crate::lengths::push_lengths;
use crate::registers::{push_registers, push_user_words, push_variations};
use armcaps_boot::Boot;
use std::alloc::AllocError;

/// Adds a group.
#[tactic(auto, unfolding(crate::specs::Report::group_text))]
pub(crate) fn push_group(text: &mut String, boot: &Boot, group: Group) -> Result<(), AllocError>
    requires { boot.now.final ≡ true }
    ensures { OnOk result (string_bytes text.new ≡ string_bytes text.old ++ group_text (findings_of boot.now) group) }
{
    match group {
        Group::Header => text.push_str("armcaps report 1\n"),
        Group::Cores => push_cores(text, boot),
        Group::Registers => push_registers(text, boot),
        Group::UserWords => push_user_words(text, boot),
        Group::Variations => push_variations(text, boot),
        Group::Notes => push_notes(text, boot),
        Group::Capabilities => push_capabilities(text, boot),
        Group::Hwcaps => push_hwcaps(text, boot),
        Group::VectorLengths => push_lengths(text, boot),
        Group::End => text.push_str("end\n"),
    }
}

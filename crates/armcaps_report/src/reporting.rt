//! The whole report.

ghost use Rattle.std.specs.Prelude.{◌≡◌, IfOk, string_bytes, true};
ghost use Rattle.armcaps_boot.specs.Findings.{findings_of};
ghost use Rattle.armcaps_report.specs.Report.{report_of};
ghost use Rattle.armcaps_report.specs.Settled.{AreSettled};

use crate::group::Group;
use crate::groups::push_group;
use armcaps_boot::Boot;
use std::alloc::{AllocError, Global};

/// The report of a machine after finalisation. No core of it is on its way up, and none has stopped it. An `Err` is
/// want of memory.
#[tactic(auto, unfolding(crate::specs::Report::report_of))]
pub fn report(alloc: Global, boot: &Boot) -> Result<String, AllocError>
    requires finalised { boot.now.final ≡ true }
    requires settled { AreSettled boot.now.states }
    ensures { IfOk result (λ text. string_bytes text ≡ report_of (findings_of boot.now)) }
{
    let mut text = String::new(alloc);
    for group in Group::ALL {
        push_group(&mut text, boot, group)?;
    }
    Ok(text)
}

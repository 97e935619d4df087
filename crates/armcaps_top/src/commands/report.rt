//! `report`: the report of the machine.

ghost use Rattle.std.specs.Prelude.{string_bytes};
ghost use Rattle.armcaps_text.specs.Document.{reading_of};
ghost use Rattle.armcaps_top.specs.Inside.{Answers, IsReady, as_bytes};
ghost use Rattle.armcaps_top.specs.declared.commands.Command.TheVariants as Command;
ghost use Rattle.armcaps_top.specs.declared.commands.Query.TheVariants as Query;

use crate::bringing::{bring, only};
use crate::ending::Ending;
use armcaps_boot::Boot;
use armcaps_report::report;
use armcaps_text::Machine;
use std::alloc::Global;

/// Brings the machine up, and reports.
pub fn report_output(
    alloc: Global,
    machine: Machine,
    machines: &mut Vec<Boot>,
) -> Result<String, Ending>
    requires { IsReady (reading_of machine) machines.old.items }
    ensures { Answers (Command.Ask Query.Report) (reading_of machine) machines.new.items
        (as_bytes string_bytes result) }
{
    bring(alloc, machine, machines)?;
    match report(alloc, only(machines)) {
        Ok(text) => Ok(text),
        Err(_) => Err(Ending::Memory),
    }
}

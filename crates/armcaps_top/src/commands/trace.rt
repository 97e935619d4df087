//! `trace`: what came of each step, and the system registers that it changed.

ghost use Rattle.std.specs.Prelude.{string_bytes};
ghost use Rattle.armcaps_text.specs.Document.{reading_of};
ghost use Rattle.armcaps_top.specs.Inside.{Answers, IsReady, as_bytes};
ghost use Rattle.armcaps_top.specs.declared.commands.Command.TheVariants as Command;
ghost use Rattle.armcaps_top.specs.declared.commands.Query.TheVariants as Query;

use crate::bringing::{begin, leave};
use crate::ending::Ending;
use armcaps_boot::Boot;
use armcaps_report::trace;
use armcaps_text::Machine;
use std::alloc::Global;

/// Brings the machine up, and traces its steps.
pub fn trace_output(
    alloc: Global,
    machine: Machine,
    machines: &mut Vec<Boot>,
) -> Result<String, Ending>
    requires { IsReady (reading_of machine) machines.old.items }
    ensures { Answers (Command.Ask Query.Trace) (reading_of machine) machines.new.items (as_bytes string_bytes result) }
{
    let Ok((mut boot, events, _)) = begin(alloc, machine) else {
        return Err(Ending::Memory);
    };
    let mut text = String::new(alloc);
    let Ok(halt) = trace(&mut text, &mut boot, &events) else {
        return Err(Ending::Memory);
    };
    boot.facts_hold();
    leave(machines, boot, halt)?;
    Ok(text)
}

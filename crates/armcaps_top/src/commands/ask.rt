//! What is asked of a machine alone: `report`, `mrs CORE WORD` and `trace`.

ghost use Rattle.std.specs.Prelude.{◌≡◌, ◌≤◌, [], length, string_bytes};
ghost use Rattle.armcaps_text.specs.Document.{reading_of};
ghost use Rattle.armcaps_text.specs.Formats.{format_of};
ghost use Rattle.armcaps_top.specs.Answer.{answer_of};
ghost use Rattle.armcaps_top.specs.Inside.{Answers, Comes, IsReady, as_bytes};
ghost use Rattle.armcaps_top.specs.declared.commands.Command.TheVariants as Command;

use crate::commands::Query;
use crate::commands::mrs::read_output;
use crate::commands::report::report_output;
use crate::commands::trace::trace_output;
use crate::document::machine_of;
use crate::ending::Ending;
use armcaps_boot::Boot;
use armcaps_text::Machine;
use std::alloc::Global;

// Makes what is asked of the machine of a document.
fn output(
    alloc: Global,
    query: Query,
    machine: Machine,
    machines: &mut Vec<Boot>,
) -> Result<String, Ending>
    requires { IsReady (reading_of machine) machines.old.items }
    ensures { Answers (Command.Ask query) (reading_of machine) machines.new.items (as_bytes string_bytes result) }
{
    match query {
        Query::Report => report_output(alloc, machine, machines),
        Query::Mrs { core, word } => read_output(alloc, core, word, machine, machines),
        Query::Trace => trace_output(alloc, machine, machines),
    }
}

/// Makes what is asked of the machine of a document, which it leaves in `machines`, or says how the run ends.
pub fn ask(
    alloc: Global,
    query: Query,
    bytes: &[u8],
    machines: &mut Vec<Boot>,
) -> Result<String, Ending>
    requires within { length bytes.now ≤ (format_of bytes.now).input }
    requires none { machines.old.items ≡ [] }
    ensures { Comes (answer_of (Command.Ask query) bytes.now) machines.new.items (as_bytes string_bytes result) }
{
    let (machine, _) = machine_of(alloc, bytes)?;
    output(alloc, query, machine, machines)
}

//! `mrs CORE WORD`: what a program on the core reads by the instruction.

ghost use Rattle.std.specs.Prelude.{◌≡◌, string_bytes};
ghost use Rattle.armcaps_text.specs.Document.{reading_of};
ghost use Rattle.armcaps_top.specs.Inside.{Answers, IsReady, as_bytes};
ghost use Rattle.armcaps_top.specs.Mrs.{read_refused_of};
ghost use Rattle.armcaps_top.specs.declared.commands.Command.TheVariants as Command;
ghost use Rattle.armcaps_top.specs.declared.commands.Query.TheVariants as Query;

use crate::bringing::{bring, only};
use crate::ending::Ending;
use crate::reason::Reason;
use armcaps_boot::Boot;
use armcaps_mrs::{UserRefused, read_user};
use armcaps_report::{ReadRefused, read_line};
use armcaps_text::Machine;
use std::alloc::Global;

// Why nothing is read of this core by this word.
fn read_refused_of(core: u32, word: u32, refused: UserRefused) -> ReadRefused
    ensures { result ≡ read_refused_of core word refused }
{
    match refused {
        UserRefused::NotAdmitted { .. } => ReadRefused::NotAdmitted { core },
        UserRefused::Undefined => ReadRefused::Undefined { word },
    }
}

/// Brings the machine up, and reads.
pub fn read_output(
    alloc: Global,
    core: u32,
    word: u32,
    machine: Machine,
    machines: &mut Vec<Boot>,
) -> Result<String, Ending>
    requires { IsReady (reading_of machine) machines.old.items }
    ensures { Answers (Command.Ask (Query.Mrs core word)) (reading_of machine) machines.new.items
        (as_bytes string_bytes result) }
{
    bring(alloc, machine, machines)?;
    match read_user(only(machines), core, word) {
        Ok(read) => match read_line(alloc, read.rt, read.value) {
            Ok(text) => Ok(text),
            Err(_) => Err(Ending::Memory),
        },
        Err(refused) => Err(Ending::NoOutput(Reason::NotRead(read_refused_of(
            core, word, refused,
        )))),
    }
}

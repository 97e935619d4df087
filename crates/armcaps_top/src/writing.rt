//! Writing a text that was made.

ghost use Rattle.std.specs.Prelude.{List, string_bytes};
ghost use Rattle.armcaps_boot.specs.World.{World};
ghost use Rattle.armcaps_top.specs.Answer.{Answer};
ghost use Rattle.armcaps_top.specs.Inside.{Comes, Ends, as_bytes};
ghost use Rattle.armcaps_top.specs.Run.{change};
ghost use Rattle.armcaps_top.specs.declared.commands.Command.{Command};

use crate::ending::Ending;
use armcaps_io::{Sink, write_whole};

/// Writes a text that was made, or ends so.
pub fn write_text<O: Sink>(out: &mut O, made: Result<String, Ending>) -> Ending
    ensures { (command : Command) (answer : Answer) (machines : List World) → Comes answer machines
        (as_bytes string_bytes made)
        → Ends command answer (change O.held O.faults out.old out.new) machines result }
{
    match made {
        Ok(text) => match write_whole(out, text.as_bytes()) {
            Ok(()) => Ending::Done,
            Err(_) => Ending::WriteFault,
        },
        Err(ending) => ending,
    }
}

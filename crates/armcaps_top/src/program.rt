//! The program's one call.

ghost use Rattle.std.specs.Prelude.{◌≡◌, ◌≤◌, [], Some, false, length, map, string_bytes};
ghost use Rattle.armcaps_top.specs.Commands.{command_of};
ghost use Rattle.armcaps_top.specs.Answer.{answer_of};
ghost use Rattle.armcaps_top.specs.Inside.{AreCoresGiven, Ends, Performs, limit_of};
ghost use Rattle.armcaps_top.specs.Run.{Promises, change, reads_input};

use crate::commands::Command;
use crate::commands::ask::ask;
use crate::commands::audit::audit;
use crate::commands::demo::demo;
use crate::commands::elf::elf;
use crate::commands::jump::jump;
use crate::commands::patch::patch;
use crate::commands::pool::pool;
use crate::ending::Ending;
use crate::error_lines::tell;
use crate::reading::read_for;
use crate::reason::Reason;
use crate::writing::write_text;
use armcaps_boot::Boot;
use armcaps_io::{Sink, Source};
use std::alloc::Global;

// Makes what a command makes of the bytes of its input, leaves the machines in `machines`, and writes the output.
fn answer<O: Sink>(
    alloc: Global,
    command: Command,
    bytes: &[u8],
    out: &mut O,
    machines: &mut Vec<Boot>,
) -> Ending
    requires cores { AreCoresGiven (Some command) }
    requires none { machines.old.items ≡ [] }
    requires within { length bytes.now ≤ limit_of command bytes.now }
    ensures { Ends command (answer_of command bytes.now)
        (change O.held O.faults out.old out.new) machines.new.items result }
{
    match command {
        Command::Ask(query) => write_text(out, ask(alloc, query, bytes, machines)),
        Command::Patch => patch(alloc, bytes, out, machines),
        Command::Elf => elf(alloc, bytes, out, machines),
        Command::Pool => write_text(out, pool(alloc, bytes, machines)),
        Command::Audit => write_text(out, audit(alloc, bytes, machines)),
        Command::Jump { table, count } => jump(alloc, table, count, bytes, out, machines),
        Command::Demo { seed, cores } => write_text(out, demo(alloc, seed, cores, machines)),
    }
}

// Reads the input of a command, if it has one, and answers it.
fn perform<S: Source, O: Sink>(
    alloc: Global,
    command: Command,
    input: &mut S,
    out: &mut O,
    machines: &mut Vec<Boot>,
) -> Ending
    requires cores { AreCoresGiven (Some command) }
    requires none { machines.old.items ≡ [] }
    ensures untouched { reads_input (Some command) ≡ false → input.new ≡ input.old }
    ensures performs { Performs command (change S.left S.faults input.old input.new)
        (change O.held O.faults out.old out.new)
        machines.new.items result }
{
    match read_for(alloc, command, input) {
        Ok(bytes) => answer(alloc, command, &bytes, out, machines),
        Err(ending) => ending,
    }
}

/// Runs the program: `words` is the command line without the program's name. Where they are `report`, `patch`, `mrs
/// CORE WORD`, `trace`, `elf`, `jump OFFSET COUNT` or `audit`, reads a document from `input`, makes its steps and
/// writes to `out` the report, the image patched for the machine, what a program on the core reads by the instruction,
/// the trace of the steps, the ELF file that the image is, patched for the machine, the patched image with the jump
/// labels of its table applied, or whether a second image behind the first is the patched one.
///
/// Where they are `pool`, reads 1 to 64 texts without an image, one after the other, makes the steps of each, and
/// writes the best register set that all machines accept, and the machine that limits each field. Where they are
/// `demo SEED CORES`, reads nothing, makes a machine and its image from the seed, and writes what comes of both: only
/// the statuses 0, 5 and 6 come.
///
/// Every other status than 0 has a line on `err`. `machines` has to be empty, and gets the machine that was brought
/// up: one in the statuses 0, 5 and 7 to 12, and none in 2 to 4; under `pool` in 0, 5 and 7 those of all texts, up to
/// the first that a step stops. Of no input more than 537,919,489 bytes are read.
///
/// - 0: done.
/// - 2: the words are no form. They are judged without memory, and nothing is read.
/// - 3: the input is no document: a line of its text is refused, it has more bytes than its format allows (135,266,304,
///   or 537,919,488 in format 2; in both under `pool` 67,108,864 and under `audit` 269,484,032), or fewer or more bytes
///   follow the text than the image has, or under `audit` than two images have; or under `pool` a text has an image, or
///   bytes follow the 64th text. Of an input that is too long exactly one byte more than the limit is read.
/// - 4: `input` failed.
/// - 5: `out` failed, and has a first part of the output.
/// - 6: there was no memory, before the first byte to `out`.
/// - 7: a step stops the machine, or under `pool` one of them.
/// - 8: an entry of the table of alternatives is refused.
/// - 9: the core of `mrs` is not admitted, or its word reads no register.
/// - 10: the image of `elf` is refused as an ELF file of a kernel, or an entry that is selected isn't loaded.
/// - 11: the table of jump labels does not lie within the image, or an entry of it is refused.
/// - 12: the second image of `audit` is not the patched one.
///
/// # Examples
///
/// ```
/// let words = ["report".to_string(alloc)?];
/// let mut input = SureSource::new(text, 4096);
/// let mut out = MemSink::new(alloc, 200_000, 4096, Vec::new(alloc))?;
/// let mut err = MemSink::new(alloc, 200_000, 4096, Vec::new(alloc))?;
/// let mut machines = Vec::new(alloc);
/// let status = run(alloc, &words, &mut input, &mut out, &mut err, &mut machines);
/// assert_eq!(rt; status, 0);
/// ```
pub fn run<S: Source, O: Sink, E: Sink>(
    alloc: Global,
    words: &[String],
    input: &mut S,
    out: &mut O,
    err: &mut E,
    machines: &mut Vec<Boot>,
) -> u8
    requires { machines.old.items ≡ [] }
    ensures untouched { reads_input (command_of (map string_bytes words.now)) ≡ false → input.new ≡ input.old }
    ensures promises { Promises (command_of (map string_bytes words.now)) (change S.left S.faults input.old input.new)
        (change O.held O.faults out.old out.new) (change E.held E.faults err.old err.new) machines.new.items result }
{
    let ending = match Command::of(words) {
        Some(command) => perform(alloc, command, input, out, machines),
        None => Ending::NoOutput(Reason::Usage),
    };
    tell(err, ending);
    ending.status()
}

//! armcaps: what a machine of unequal arm64 cores may use. The work is done by `armcaps_top::run`;
//! this file hands it the command line and the standard streams.
#![tactic(auto)]

ghost use Rattle.std.specs.Prelude.{◌≡◌, [], IfOk, drop, false, map, string_bytes};
ghost use Rattle.std.specs.Vec.Iter.{into_iter_items};
ghost use Rattle.std.specs.Process.{exit_status};
ghost use Rattle.armcaps_top.specs.Commands.{command_of};
ghost use Rattle.armcaps_top.specs.Run.{Promises, change, reads_input};

use armcaps_boot::Boot;
use armcaps_io::{RealSink, RealSource, Sink, Source};
use armcaps_top::run;
use std::alloc::{AllocError, Global};
use std::env::{self, Args};
use std::process::ExitCode;

// The words of a command line, whose first argument is the program's name.
fn words_of(alloc: Global, arguments: Args) -> Result<Vec<String>, AllocError>
    ensures { IfOk result (λ words. words.items ≡ drop 1 (into_iter_items arguments)) }
{
    arguments.skip(1).collect(alloc)
}

// Runs the program, and hands on its status.
fn exit<S: Source, O: Sink, E: Sink>(
    alloc: Global,
    words: &[String],
    input: &mut S,
    out: &mut O,
    err: &mut E,
    machines: &mut Vec<Boot>,
) -> ExitCode
    requires { machines.old.items ≡ [] }
    ensures untouched { reads_input (command_of (map string_bytes words.now)) ≡ false → input.new ≡ input.old }
    ensures promises { Promises (command_of (map string_bytes words.now)) (change S.left S.faults input.old input.new)
        (change O.held O.faults out.old out.new) (change E.held E.faults err.old err.new) machines.new.items
        (exit_status result) }
{
    ExitCode::from(run(alloc, words, input, out, err, machines))
}

/// Ends with the status of `run`, and with 1 where the command line is no text or there is no memory for it.
fn main(rt: HostRuntime) -> ExitCode {
    let Ok(arguments) = env::args(&rt) else {
        return ExitCode::FAILURE;
    };
    let Ok(words) = words_of(rt.alloc(), arguments) else {
        return ExitCode::FAILURE;
    };
    let mut input = RealSource::new(rt.stdin());
    let mut out = RealSink::new(rt.stdout());
    let mut err = RealSink::new(rt.stderr());
    let mut machines = Vec::new(rt.alloc());
    exit(
        rt.alloc(),
        &words,
        &mut input,
        &mut out,
        &mut err,
        &mut machines,
    )
}

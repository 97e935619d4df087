//! A run of the program in memory.

ghost use Rattle.std.specs.Prelude.{◌≡◌, IfSome, map, string_bytes};
ghost use Rattle.armcaps_top.specs.Answer.{answer_for};
ghost use Rattle.armcaps_top.specs.Commands.{command_of};
ghost use Rattle.armcaps_c.specs.Outcome.{Came};

use crate::growing_sink::GrowingSink;
use crate::slice_source::SliceSource;
use armcaps_top::run;
use std::alloc::Global;

/// What a run came to: its status, what it wrote, and its line.
#[derive(Drop)]
pub struct Outcome {
    pub status: u8,
    pub output: Vec<u8>,
    pub line: Vec<u8>,
}

/// Runs the program over bytes in memory; `None` where there was no memory for what it wrote.
pub fn outcome_of(alloc: Global, words: &[String], input: &[u8]) -> Option<Outcome>
    ensures { IfSome result (λ outcome. Came (answer_for (command_of (map string_bytes words.now)) input.now)
        outcome.status outcome.output.items outcome.line.items) }
{
    let mut source = SliceSource::new(input);
    let mut out = GrowingSink::new(alloc);
    let mut err = GrowingSink::new(alloc);
    let mut machines = Vec::new(alloc);
    let status = run(alloc, words, &mut source, &mut out, &mut err, &mut machines);
    let output = out.into_bytes()?;
    let line = err.into_bytes()?;
    Some(Outcome {
        status,
        output,
        line,
    })
}

//! armcaps as a static library for C: one call over bytes in memory.
#![tactic(auto)]

mod buffer;
mod growing_sink;
mod outcome;
mod slice_source;
#[cfg(test)]
mod tests;
mod words;

ghost use Rattle.std.specs.Prelude.{◌≡◌, ◌≢◌, ◌<◌, ◌≤◌, if◌then◌else◌, length};
ghost use Rattle.armcaps_c.specs.Call.{Answers, Buffer, IsGiven};
ghost use Rattle.armcaps_c.specs.Outcome.{IsHanded};
ghost use Rattle.armcaps_top.specs.ErrorLines.{ending_line};
ghost use Rattle.armcaps_top.specs.declared.ending.Ending.TheVariants.{Memory};

use crate::buffer::copy_into;
use crate::outcome::{Outcome, outcome_of};
use crate::words::words_of;
use std::alloc::Global;

// Ends for want of memory, which has its line without any.
#[tactic(auto, unfolding(armcaps_top::specs::ErrorLines::ending_text))]
fn no_memory(err: &mut [u8], err_len: &mut usize) -> u8
    ensures status { result ≡ 6 }
    ensures told { IsGiven (ending_line Memory) (record { old = err.old; new = err.new; count = err_len.new }) }
{
    *err_len = copy_into(b"armcaps: want of memory\n", err);
    6
}

// Hands what a run came to to the caller: its line, and its output if the buffer has room for it.
fn hand_over(
    outcome: &Outcome,
    out: &mut [u8],
    out_len: &mut usize,
    err: &mut [u8],
    err_len: &mut usize,
) -> u8
    requires { out_len.old ≡ 0 }
    ensures { IsHanded outcome.now.status outcome.now.output.items outcome.now.line.items
        (record { old = out.old; new = out.new; count = out_len.new })
        (record { old = err.old; new = err.new; count = err_len.new }) result }
{
    *err_len = copy_into(&outcome.line, err);
    if outcome.status != 0 {
        return outcome.status;
    }
    *out_len = outcome.output.len();
    if outcome.output.len() > out.len() {
        return 5;
    }
    copy_into(&outcome.output, out);
    0
}

/// The call for C: runs the command that `line` has, cut at spaces, over `input`, as `armcaps_top::run` would. The
/// output goes to `out` and its length to `out_len`, the line of the error stream to `err`, as much of it as there is
/// room for, and its whole length to `err_len`. `library/armcaps.h` says what C owes for the pointers.
///
/// # Errors
///
/// Each status but 0 leaves `out` as it was.
///
/// - 1: a word of the line is not UTF-8; both lengths are 0.
/// - 5: `out` has too little room, and `out_len` says how much is wanted.
/// - 6: there was no memory.
/// - 2, 3 and 7 to 12: those of the program. 4 never comes.
///
/// # Example
///
/// ```text
/// let status = armcaps_run(alloc, b"report", text, &mut out, &mut out_len, &mut err, &mut err_len);
/// if status == 0 { /* out[..out_len] is the report */ }
/// ```
#[unsafe(no_mangle)]
pub extern "C" fn armcaps_run(
    alloc: Global,
    line: &[u8],
    input: &[u8],
    out: &mut [u8],
    out_len: &mut usize,
    err: &mut [u8],
    err_len: &mut usize,
) -> u8
    ensures { Answers line.now input.now (record { old = out.old; new = out.new; count = out_len.new })
        (record { old = err.old; new = err.new; count = err_len.new }) result }
{
    *out_len = 0;
    *err_len = 0;
    let words = match words_of(alloc, line) {
        Ok(Some(words)) => words,
        Ok(None) => return 1,
        Err(_) => return no_memory(err, err_len),
    };
    match outcome_of(alloc, &words, input) {
        Some(outcome) => hand_over(&outcome, out, out_len, err, err_len),
        None => no_memory(err, err_len),
    }
}

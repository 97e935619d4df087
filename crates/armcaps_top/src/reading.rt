//! Reading the input, up to the limit of its format.

ghost use Rattle.std.specs.Prelude.{◌≡◌, ◌≤◌, ◌<◌, ◌+◌, ◌^◌, ℕ, [], IfOk, IfErr, Ok, Err, Some, true, false, length};
ghost use Rattle.armcaps_io.specs.Causes.{Rose};
ghost use Rattle.armcaps_io.specs.Streams.{GivesAll, GivesAtMost, GivesCount, IsAtEnd, Moves};
ghost use Rattle.armcaps_text.specs.Formats.{format_of};
ghost use Rattle.armcaps_top.specs.Inside.{IsFailure, IsNotRead, IsRead, IsUnread, IsUnreadPast, limit_of};
ghost use Rattle.armcaps_top.specs.Run.{change, most_read, reads_input};

use crate::commands::Command;
use crate::ending::Ending;
use crate::reason::Reason;
use crate::refusal::Refusal;
use armcaps_io::{InFault, Source, read_on};
use armcaps_text::Format;
use std::alloc::Global;

// Reads on until the input has ended, or until there is one byte more than the limit, which answers false.
fn read_past<S: Source>(source: &mut S, bytes: &mut Vec<u8>, limit: usize) -> Result<bool, Ending>
    requires within { length bytes.old.items ≤ limit + 1 }
    requires small { limit < 2 ^ 32 }
    ensures moved { Moves (S.left source.old) (S.left source.new) bytes.old.items bytes.new.items }
    ensures bounded { length bytes.new.items ≤ limit + 1 }
    ensures ended { result ≡ Ok true → IsAtEnd (S.left source.new) }
    ensures within { result ≡ Ok true → length bytes.new.items ≤ limit }
    ensures full { result ≡ Ok false → length bytes.new.items ≡ limit + 1 }
    ensures failure { IfErr result (IsFailure (S.faults source.old) (S.faults source.new)) }
    ensures never_falls { S.faults source.old ≤ S.faults source.new }
{
    match read_on(source, bytes, limit + 1) {
        Ok(ended) => Ok(ended),
        Err(InFault::Read) => Err(Ending::ReadFault),
        Err(_) => Err(Ending::Memory),
    }
}

// All bytes of an input that has no more of them than its format allows, or else why it was not read. Of an input
// that is refused for its length one byte more than the limit is read, and of none more than one byte past the
// greatest limit of a format.
fn read_input<S: Source>(alloc: Global, source: &mut S) -> Result<Vec<u8>, Ending>
    ensures whole { IfOk result (λ bytes. GivesAll (S.left source.old) (S.left source.new) bytes.items) }
    ensures within { IfOk result (λ bytes. length bytes.items ≤ (format_of bytes.items).input) }
    ensures unread { IfErr result (IsUnread (S.left source.old) (S.faults source.old) (S.faults source.new)) }
    ensures one_more { (limit : ℕ) → result ≡ Err (Ending.NoOutput (Reason.Refused (Refusal.TooLong limit))) →
        GivesCount (S.left source.old) (S.left source.new) (limit + 1) }
    ensures at_most { GivesAtMost (S.left source.old) (S.left source.new) 537919489 }
    ensures never_falls { S.faults source.old ≤ S.faults source.new }
{
    let mut bytes = Vec::new(alloc);
    let first_limit = Format::one().input;
    let ended = read_past(source, &mut bytes, first_limit)?;
    if ended {
        return Ok(bytes);
    }
    let limit = Format::of(&bytes).input;
    if limit == first_limit {
        return Err(Ending::NoOutput(Reason::Refused(Refusal::TooLong { limit })));
    }
    let ended_further = read_past(source, &mut bytes, limit)?;
    if ended_further {
        Ok(bytes)
    } else {
        Err(Ending::NoOutput(Reason::Refused(Refusal::TooLong { limit })))
    }
}

// All bytes of an input that has no more than a limit, or else why it was not read. Of a longer one one byte more than
// the limit is read.
fn read_within<S: Source>(alloc: Global, source: &mut S, limit: usize) -> Result<Vec<u8>, Ending>
    requires { limit < 2 ^ 32 }
    ensures whole { IfOk result (λ bytes. GivesAll (S.left source.old) (S.left source.new) bytes.items) }
    ensures within { IfOk result (λ bytes. length bytes.items ≤ limit) }
    ensures unread { IfErr result (IsUnreadPast limit (S.left source.old) (S.faults source.old) (S.faults source.new)) }
    ensures one_more { (most : ℕ) → result ≡ Err (Ending.NoOutput (Reason.Refused (Refusal.TooLong most))) →
        GivesCount (S.left source.old) (S.left source.new) (most + 1) }
    ensures at_most { GivesAtMost (S.left source.old) (S.left source.new) (limit + 1) }
{
    let mut bytes = Vec::new(alloc);
    let ended = read_past(source, &mut bytes, limit)?;
    if ended {
        Ok(bytes)
    } else {
        Err(Ending::NoOutput(Reason::Refused(Refusal::TooLong { limit })))
    }
}

/// The input of a command that reads it, up to its limit, and nothing for `demo`, or else why it was not read.
pub fn read_for<S: Source>(
    alloc: Global,
    command: Command,
    source: &mut S,
) -> Result<Vec<u8>, Ending>
    ensures read { IfOk result (λ bytes. IsRead command (change S.left S.faults source.old source.new) bytes.items) }
    ensures within { IfOk result (λ bytes. length bytes.items ≤ limit_of command bytes.items) }
    ensures not_read { IfErr result (IsNotRead command (change S.left S.faults source.old source.new)) }
    ensures one_more { (limit : ℕ) → result ≡ Err (Ending.NoOutput (Reason.Refused (Refusal.TooLong limit))) →
        GivesCount (S.left source.old) (S.left source.new) (limit + 1) }
    ensures at_most { GivesAtMost (S.left source.old) (S.left source.new) (most_read (Some command)) }
    ensures untouched { reads_input (Some command) ≡ false → source.new ≡ source.old }
{
    match command {
        Command::Ask(_) | Command::Patch | Command::Elf | Command::Jump { .. } => {
            read_input(alloc, source)
        }
        Command::Pool => read_within(alloc, source, 67_108_864),
        Command::Audit => read_within(alloc, source, 269_484_032),
        Command::Demo { .. } => Ok(Vec::new(alloc)),
    }
}

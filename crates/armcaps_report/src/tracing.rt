//! The trace of a machine's steps: what came of each, and the system registers that it changed.

ghost use Rattle.std.specs.Prelude.{◌≡◌, ◌<◌, ◌+◌, ◌++◌, List, Ok, None, IsOk, IfOk, OnOk, codes, length, reverse, slice_index_or, string_bytes};
ghost use Rattle.armcaps_tables.specs.Core.{Core};
ghost use Rattle.armcaps_tables.specs.Overriding.{FieldOverrides};
ghost use Rattle.armcaps_sanit.specs.System.{IsSystemOf};
ghost use Rattle.armcaps_board.specs.declared.event.Event.TheVariants as Event;
ghost use Rattle.armcaps_boot.specs.ParkOrPanic.{halt_of, steps_made};
ghost use Rattle.armcaps_boot.specs.After.{IsAfter};
ghost use Rattle.armcaps_boot.specs.StepByStep.{IsAt, steps_before};
ghost use Rattle.armcaps_report.specs.Trace.{changed_line, changed_lines, reply_text, step_line, step_lines, step_text, trace_of};

use crate::causes::push_cause;
use crate::registers::push_register;
use crate::text::{push_after, push_between};
use armcaps_boot::laws::sets_are_those_of_the_steps;
use armcaps_boot::{Boot, Event, Halt, Reply, make_step};
use armcaps_enc::SysReg;
use armcaps_sanit::System;
use std::alloc::AllocError;

// Adds a step.
fn push_event(text: &mut String, event: Event) -> Result<(), AllocError>
    ensures { OnOk result (string_bytes text.new ≡ string_bytes text.old ++ step_text event) }
{
    match event {
        Event::Check(core) => push_after(text, "check ", u64::from(core)),
        Event::Local(core) => push_after(text, "local ", u64::from(core)),
        Event::Store(core) => push_after(text, "store ", u64::from(core)),
        Event::Offline(core) => push_after(text, "offline ", u64::from(core)),
        Event::Finalise => text.push_str("finalise"),
    }
}

// Adds a reply at the end of a line.
fn push_reply(text: &mut String, reply: Reply) -> Result<(), AllocError>
    ensures { OnOk result (string_bytes text.new ≡ string_bytes text.old ++ codes " " ++ reply_text reply ++ codes "\n") }
{
    match reply {
        Reply::Done => text.push_str(" done\n"),
        Reply::Skipped => text.push_str(" skipped\n"),
        Reply::Parked(cause) => {
            text.push_str(" parked ")?;
            push_cause(text, cause)?;
            text.push_str("\n")
        }
        Reply::Panicked(cause) => {
            text.push_str(" panicked ")?;
            push_cause(text, cause)?;
            text.push_str("\n")
        }
    }
}

// Adds the line of a step.
fn push_step(text: &mut String, number: usize, event: Event, reply: Reply) -> Result<(), AllocError>
    ensures { OnOk result (string_bytes text.new ≡ string_bytes text.old ++ step_line number event reply) }
{
    push_between(text, "step ", number as u64, " ")?;
    push_event(text, event)?;
    push_reply(text, reply)
}

// Adds a register's line where its word changes.
fn push_change(
    text: &mut String,
    register: SysReg,
    before: u64,
    after: u64,
) -> Result<(), AllocError>
    ensures { OnOk result (string_bytes text.new ≡ string_bytes text.old ++ changed_line register before after) }
{
    if before == after {
        Ok(())
    } else {
        push_register(text, register, after)
    }
}

// Adds the lines of the registers whose words differ between two systems.
fn push_changes(text: &mut String, before: &System, after: &System) -> Result<(), AllocError>
    ensures { OnOk result ((overrides : FieldOverrides) (old new : List Core) → IsSystemOf overrides old before.now
        → IsSystemOf overrides new after.now → string_bytes text.new ≡ string_bytes text.old
        ++ changed_lines overrides old new) }
{
    for register in SysReg::TRACKED {
        push_change(text, register, before.word(register), after.word(register))?;
    }
    Ok(())
}

// Makes the step at an index, and adds its lines where it does not stop the machine.
#[tactic(auto, unfolding(crate::specs::Trace::step_lines))]
fn trace_step(
    text: &mut String,
    boot: &mut Boot,
    events: &[Event],
    index: usize,
) -> Result<Option<Halt>, AllocError>
    requires inside { index < length events.now }
    requires at { IsAt index events.now boot.old.board boot.old }
    ensures after { IsAfter boot.old.board (steps_before (index + 1) events.now) boot.new }
    ensures halt { IfOk result (λ halt. halt ≡ halt_of boot.old.board (steps_before (index + 1) events.now)) }
    ensures lines { result ≡ Ok None → string_bytes text.new ≡ string_bytes text.old
        ++ step_lines boot.old.board (reverse events.now) (steps_before index events.now)
        (slice_index_or events.now index (Event.Check 0)) }
{
    let before = *boot.system();
    let reply = make_step(boot, events, index);
    if let Some(halt) = boot.halted() {
        return Ok(Some(halt));
    }
    sets_are_those_of_the_steps();
    push_step(text, index + 1, events[index], reply)?;
    push_changes(text, &before, boot.system())?;
    Ok(None)
}

/// Makes steps in their order, up to one that stops the machine, adds their trace, and says what stopped the machine.
/// Where a step stops it, the text that was added is no trace. An `Err` says that memory ran out.
#[tactic(auto, unfolding(crate::specs::Trace::trace_of))]
pub fn trace(
    text: &mut String,
    boot: &mut Boot,
    events: &[Event],
) -> Result<Option<Halt>, AllocError>
    requires { IsAt 0 events.now boot.old.board boot.old }
    ensures halt { IfOk result (λ halt. halt ≡ halt_of boot.old.board (reverse events.now)) }
    ensures machine { IsOk result → IsAfter boot.old.board (steps_made boot.old.board (reverse events.now)) boot.new }
    ensures text { result ≡ Ok None → string_bytes text.new ≡ string_bytes text.old ++ trace_of boot.old.board
        (reverse events.now) }
{
    text.push_str("armcaps trace 1\n")?;
    for index in 0..events.len() {
        let halt = trace_step(text, boot, events, index)?;
        if halt.is_some() {
            return Ok(halt);
        }
    }
    text.push_str("end\n")?;
    Ok(None)
}

//! A machine is brought up.

ghost use Rattle.std.specs.Prelude.{◌≡◌, ◌≢◌, ◌++◌, ◌∷◌, [], IfOk, IfErr, Err, length};
ghost use Rattle.armcaps_text.specs.Document.{reading_of};
ghost use Rattle.armcaps_text.specs.Sound.{IsSound};
ghost use Rattle.armcaps_top.specs.Bringing.{IsBegun};
ghost use Rattle.armcaps_top.specs.Inside.{IsHaltOf, IsNotUp, IsUp};

use crate::ending::Ending;
use crate::reason::Reason;
use armcaps_alt::Names;
use armcaps_boot::laws::{documents_are_safe, machines_begin_with_no_step};
use armcaps_boot::{Boot, Event, Halt, bring_up, events_of};
use armcaps_text::Machine;
use std::alloc::{AllocError, Global};

/// The machine of a document before its first step, its steps in their order, and its names.
pub fn begin(alloc: Global, machine: Machine) -> Result<(Boot, Vec<Event>, Names), AllocError>
    requires { IsSound (reading_of machine) }
    ensures begun { IfOk result (λ made. IsBegun (reading_of machine) made.1.items made.0) }
    ensures names { IfOk result (λ made. made.2 ≡ machine.names) }
{
    let events = events_of(alloc, &machine.steps)?;
    let Ok(boot) = Boot::new(
        alloc,
        machine.board.cores,
        machine.board.boot,
        machine.board.overrides,
    ) else {
        return Err(AllocError);
    };
    machines_begin_with_no_step();
    documents_are_safe();
    Ok((boot, events, machine.names))
}

/// Leaves a machine in `machines`, and says how the run ends where a step stopped it.
pub fn leave(machines: &mut Vec<Boot>, boot: Boot, halt: Option<Halt>) -> Result<(), Ending>
    ensures left { result ≢ Err Ending.Memory → machines.new.items ≡ machines.old.items ++ boot ∷ [] }
    ensures halt { IsHaltOf halt result }
{
    if machines.push(boot).is_err() {
        return Err(Ending::Memory);
    }
    match halt {
        None => Ok(()),
        Some(halt) => Err(Ending::NoOutput(Reason::Panicked(halt))),
    }
}

/// Brings up the machine of a document, leaves it in `machines` after those that are there, and answers its names, or
/// says how the run ends.
pub fn bring(alloc: Global, machine: Machine, machines: &mut Vec<Boot>) -> Result<Names, Ending>
    requires { IsSound (reading_of machine) }
    ensures up { IfOk result (λ names. IsUp (reading_of machine) machines.old.items machines.new.items) }
    ensures names { IfOk result (λ names. names ≡ machine.names) }
    ensures not_up { IfErr result (IsNotUp (reading_of machine) machines.old.items machines.new.items) }
{
    let Ok((mut boot, events, names)) = begin(alloc, machine) else {
        return Err(Ending::Memory);
    };
    let halt = bring_up(&mut boot, &events);
    boot.facts_hold();
    leave(machines, boot, halt)?;
    Ok(names)
}

/// The machine of a run that brings up one.
pub fn only(machines: &Vec<Boot>) -> &Boot
    requires { length machines.now.items ≡ 1 }
    ensures { machines.now.items ≡ result.now ∷ [] }
{
    &machines[0]
}

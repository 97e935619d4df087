//! `pool`: the best register set that each of several machines accepts.

ghost use Rattle.std.specs.Prelude.{◌≡◌, ◌<◌, ◌≤◌, [], IfErr, IfOk, Err, Ok, length, map, string_bytes};
ghost use Rattle.std.specs.List.{All};
ghost use Rattle.armcaps_boot.specs.Findings.{findings_of};
ghost use Rattle.armcaps_text.specs.Document.{reading_of};
ghost use Rattle.armcaps_text.specs.Sound.{IsSound};
ghost use Rattle.armcaps_top.specs.Answer.{answer_of, of_documents};
ghost use Rattle.armcaps_top.specs.Document.{documents_after};
ghost use Rattle.armcaps_top.specs.Inside.{AreThrough, Comes, as_bytes, ending_of_machine};
ghost use Rattle.armcaps_top.specs.Pool.{pool_output, words_found};
ghost use Rattle.armcaps_top.specs.declared.commands.Command.TheVariants as Command;

use crate::bringing::bring;
use crate::document::machines_of;
use crate::ending::Ending;
use crate::reason::Reason;
use armcaps_baseline::baseline;
use armcaps_boot::Boot;
use armcaps_report::pool_report;
use armcaps_sanit::System;
use armcaps_text::Machine;
use std::alloc::{AllocError, Global};

// How a run ends where the machine of this number was not brought up, and would end so if it were the only one.
fn numbered(machine: u32, ending: Ending) -> Ending
    ensures { result ≡ ending_of_machine machine ending }
{
    match ending {
        Ending::NoOutput(Reason::Panicked(halt)) => {
            Ending::NoOutput(Reason::MachinePanicked { machine, halt })
        }
        other => other,
    }
}

// Brings up the machines in their order, up to the first that a step stops, and leaves them in `machines`.
fn bring_each(alloc: Global, read: Vec<Machine>, machines: &mut Vec<Boot>) -> Result<(), Ending>
    requires few { length read.items ≤ 64 }
    requires sound { All (λ machine. IsSound (reading_of machine)) read.items }
    requires none { machines.old.items ≡ [] }
    ensures through { IfOk result (λ done. AreThrough (map reading_of read.items) machines.new.items) }
    ensures stopped { IfErr result (λ ending.
        Comes (of_documents (documents_after (Ok (map reading_of read.items)))) machines.new.items (Err ending)) }
{
    for machine in read {
        let number = machines.len() as u32;
        if let Err(ending) = bring(alloc, machine, machines) {
            return Err(numbered(number, ending));
        }
    }
    Ok(())
}

// The system registers of machines, in their order.
fn systems_of(alloc: Global, machines: &[Boot]) -> Result<Vec<System>, AllocError>
    ensures { IfOk result (λ systems. systems.items ≡ map (λ world. words_found (findings_of world)) machines.now) }
{
    let mut systems = Vec::new(alloc);
    for boot in machines {
        systems.push(*boot.system())?;
    }
    Ok(systems)
}

// The report of the baseline of machines.
fn pool_text(alloc: Global, machines: &[Boot]) -> Result<String, AllocError>
    requires some { 0 < length machines.now }
    requires few { length machines.now ≤ 64 }
    ensures { IfOk result (λ text. string_bytes text ≡ pool_output (map findings_of machines.now)) }
{
    let systems = systems_of(alloc, machines)?;
    let common = baseline(alloc, &systems)?;
    pool_report(alloc, &common)
}

/// Brings up the machines of texts that stand one after the other, leaves them in `machines`, and reports their
/// baseline, or says how the run ends.
pub fn pool(alloc: Global, bytes: &[u8], machines: &mut Vec<Boot>) -> Result<String, Ending>
    requires within { length bytes.now ≤ 67108864 }
    requires none { machines.old.items ≡ [] }
    ensures { Comes (answer_of Command.Pool bytes.now) machines.new.items (as_bytes string_bytes result) }
{
    let read = machines_of(alloc, bytes)?;
    bring_each(alloc, read, machines)?;
    match pool_text(alloc, machines) {
        Ok(text) => Ok(text),
        Err(_) => Err(Ending::Memory),
    }
}

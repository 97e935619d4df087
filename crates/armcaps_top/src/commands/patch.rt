//! `patch`: the image, patched for the machine.

ghost use Rattle.std.specs.Prelude.{◌≡◌, ◌+◌, ◌*◌, ◌≤◌, ◌^◌, IfErr, IfOk, [], length, true};
ghost use Rattle.armcaps_alt.specs.Entries.{Features};
ghost use Rattle.armcaps_alt.specs.Patched.{patched_image};
ghost use Rattle.armcaps_alt.specs.declared.table_place.Layout.{Layout as Place};
ghost use Rattle.armcaps_board.specs.Steps.{history};
ghost use Rattle.armcaps_boot.specs.Findings.{findings_after};
ghost use Rattle.armcaps_patch.specs.Features.{features_of, features_of_findings};
ghost use Rattle.armcaps_patch.specs.Kept.{StandsFor};
ghost use Rattle.armcaps_text.specs.Document.{reading_of};
ghost use Rattle.armcaps_text.specs.Formats.{format_of};
ghost use Rattle.armcaps_text.specs.Sound.{IsSound};
ghost use Rattle.armcaps_top.specs.Answer.{answer_of, of_document};
ghost use Rattle.armcaps_top.specs.Inside.{Comes, Ends, IsWhy, as_bytes};
ghost use Rattle.armcaps_top.specs.Patch.{image_for, refused_entry};
ghost use Rattle.armcaps_top.specs.Run.{change};
ghost use Rattle.armcaps_top.specs.declared.commands.Command.TheVariants as Command;

use crate::bringing::{bring, only};
use crate::document::machine_of;
use crate::ending::Ending;
use crate::kept_bytes::KeptBytes;
use crate::reason::Reason;
use armcaps_alt::{Layout, Names};
use armcaps_boot::Boot;
use armcaps_io::Sink;
use armcaps_patch::{PatchRefused, Plan};
use armcaps_text::{Machine, bytes_from};
use std::alloc::{AllocError, Global};

/// Plans the patched image, or says why there is none.
pub fn check(
    alloc: Global,
    image: &[u8],
    layout: Layout,
    names: &Names,
    boot: &Boot,
) -> Result<Plan, Ending>
    requires size { length image.now ≤ 2 ^ 29 }
    requires table { layout.table + 12 * layout.count ≤ length image.now }
    requires finalised { boot.now.final ≡ true }
    ensures stands { IfOk result (λ plan. StandsFor plan (features_of boot.now names.now) image.now layout) }
    ensures refused { IfErr result (IsWhy (refused_entry (features_of boot.now names.now) image.now layout)) }
{
    match Plan::check(alloc, image, layout, names, boot) {
        Ok(plan) => Ok(plan),
        Err(PatchRefused::Entry { entry, kind }) => {
            Err(Ending::NoOutput(Reason::NotPatched { entry, kind }))
        }
        Err(PatchRefused::Memory) => Err(Ending::Memory),
    }
}

/// Brings the machine up, and plans its patched image.
pub fn plan_of(
    alloc: Global,
    machine: Machine,
    image: &[u8],
    machines: &mut Vec<Boot>,
) -> Result<Plan, Ending>
    requires sound { IsSound (reading_of machine) }
    requires none { machines.old.items ≡ [] }
    requires image { length image.now ≡ machine.image }
    ensures plan { IfOk result (λ plan. StandsFor plan (features_of_findings (findings_after (reading_of machine).board
        (history machine.steps.items)) machine.names) image.now machine.layout) }
    ensures comes { let reading = reading_of machine in
        Comes (of_document Command.Patch (Ok (record { reading = reading; image = image.now }))) machines.new.items
        (as_bytes (λ plan. image_for reading.board (history machine.steps.items) reading image.now) result) }
{
    let layout = machine.layout;
    let names = bring(alloc, machine, machines)?;
    check(alloc, image, layout, &names, only(machines))
}

/// The image that a plan makes.
pub fn patched(alloc: Global, plan: &Plan, image: &[u8]) -> Result<Vec<u8>, AllocError>
    requires { length image.now ≡ plan.now.size }
    ensures { (features : Features) (layout : Place) → StandsFor plan.now features image.now layout
        → IfOk result (λ bytes. bytes.items ≡ patched_image features image.now layout) }
{
    let mut sink = KeptBytes {
        bytes: Vec::with_capacity(alloc, image.len())?,
        faults: 0,
    };
    match plan.write(image, &mut sink) {
        Ok(()) => Ok(sink.bytes),
        Err(_) => Err(AllocError),
    }
}

/// Brings the machine of a document up, leaves it in `machines`, and writes the image, patched for the machine.
pub fn patch<O: Sink>(alloc: Global, bytes: &[u8], out: &mut O, machines: &mut Vec<Boot>) -> Ending
    requires within { length bytes.now ≤ (format_of bytes.now).input }
    requires none { machines.old.items ≡ [] }
    ensures { Ends Command.Patch (answer_of Command.Patch bytes.now)
        (change O.held O.faults out.old out.new) machines.new.items result }
{
    let (machine, place) = match machine_of(alloc, bytes) {
        Ok(read) => read,
        Err(ending) => return ending,
    };
    let image = bytes_from(bytes, place);
    let plan = match plan_of(alloc, machine, image, machines) {
        Ok(plan) => plan,
        Err(ending) => return ending,
    };
    match plan.write(image, out) {
        Ok(()) => Ending::Done,
        Err(_) => Ending::WriteFault,
    }
}

//! `jump OFFSET COUNT`: the image, patched for the machine, with the jump labels of its table applied.

ghost use Rattle.std.specs.Prelude.{◌≡◌, ◌≤◌, ◌^◌, IfOk, IfErr, Ok, [], length};
ghost use Rattle.std.specs.Cow.{cow_slice_items};
ghost use Rattle.armcaps_alt.specs.Entries.{Features};
ghost use Rattle.armcaps_alt.specs.Patched.{patched_image};
ghost use Rattle.armcaps_alt.specs.declared.table_place.Layout.{Layout};
ghost use Rattle.armcaps_jump.specs.Jumped.{jump_image};
ghost use Rattle.armcaps_jump.specs.Standing.{StandsFor};
ghost use Rattle.armcaps_patch.specs.Kept.{StandsFor as IsPlanOf};
ghost use Rattle.armcaps_text.specs.Document.{reading_of};
ghost use Rattle.armcaps_text.specs.Formats.{format_of};
ghost use Rattle.armcaps_text.specs.Sound.{IsSound};
ghost use Rattle.armcaps_top.specs.Answer.{answer_of, of_document};
ghost use Rattle.armcaps_top.specs.Inside.{Comes, Ends, IsInstead, as_bytes};
ghost use Rattle.armcaps_top.specs.Jump.{labelled};
ghost use Rattle.armcaps_top.specs.Run.{change};
ghost use Rattle.armcaps_top.specs.declared.commands.Command.TheVariants as Command;

use crate::commands::patch::{patched, plan_of};
use crate::document::machine_of;
use crate::ending::Ending;
use crate::reason::Reason;
use armcaps_boot::Boot;
use armcaps_io::Sink;
use armcaps_jump::{JumpRefused, Jumps};
use armcaps_patch::Plan;
use armcaps_text::{Machine, bytes_from};
use std::alloc::{AllocError, Global};
use std::borrow::CowSlice;

/// Why no jump labels are applied to a patched image.
#[derive(Clone, Copy)]
pub enum LabelsRefused {
    /// The table does not lie within the image.
    TableOutside,
    /// This entry of the table, by its number from 0 on, is the first that is refused, for this kind: 1, its code is no
    /// word of the image; 2, its key does not lie within the image; 3, it jumps and no B has its target.
    Entry { entry: u32, kind: u8 },
}

// The image that a plan makes: the image as it is where no entry is selected, of which no copy is made.
fn patched_or_same<'a>(
    alloc: Global,
    plan: &Plan,
    image: &'a [u8],
) -> Result<CowSlice<'a, u8>, AllocError>
    requires { length image.now ≡ plan.now.size }
    ensures { (features : Features) (layout : Layout) → IsPlanOf plan.now features image.now layout
        → IfOk result (λ made. cow_slice_items made ≡ patched_image features image.now layout) }
{
    if plan.count_entries() == 0 {
        return Ok(CowSlice::Borrowed(image));
    }
    let bytes = patched(alloc, plan, image)?;
    Ok(CowSlice::Owned(bytes))
}

// Brings the machine up, and makes its patched image.
fn patched_for<'a>(
    alloc: Global,
    machine: Machine,
    image: &'a [u8],
    machines: &mut Vec<Boot>,
) -> Result<CowSlice<'a, u8>, Ending>
    requires sound { IsSound (reading_of machine) }
    requires none { machines.old.items ≡ [] }
    requires image { length image.now ≡ machine.image }
    ensures comes { Comes (of_document Command.Patch (Ok (record { reading = reading_of machine; image = image.now })))
        machines.new.items (as_bytes (λ made. cow_slice_items made) result) }
    ensures size { IfOk result (λ made. length (cow_slice_items made) ≤ 2 ^ 29) }
{
    let plan = plan_of(alloc, machine, image, machines)?;
    match patched_or_same(alloc, &plan, image) {
        Ok(made) => Ok(made),
        Err(_) => Err(Ending::Memory),
    }
}

// The jump labels of an image, or how the run ends where there are none.
fn labels_of(alloc: Global, table: u32, count: u32, image: &[u8]) -> Result<Jumps, Ending>
    requires { length image.now ≤ 2 ^ 29 }
    ensures stands { IfOk result (λ jumps. StandsFor jumps image.now table count) }
    ensures instead { IfErr result (IsInstead (labelled table count image.now)) }
{
    match Jumps::check(alloc, image, table, count) {
        Ok(jumps) => Ok(jumps),
        Err(JumpRefused::Table) => Err(Ending::NoOutput(Reason::NotJumped(
            LabelsRefused::TableOutside,
        ))),
        Err(JumpRefused::Entry { entry, kind }) => Err(Ending::NoOutput(Reason::NotJumped(
            LabelsRefused::Entry { entry, kind },
        ))),
        Err(JumpRefused::Memory) => Err(Ending::Memory),
    }
}

// The patched image of a document, whose machine is brought up and left in `machines`, and the image's jump labels.
fn patched_and_labels<'a>(
    alloc: Global,
    table: u32,
    count: u32,
    bytes: &'a [u8],
    machines: &mut Vec<Boot>,
) -> Result<(CowSlice<'a, u8>, Jumps), Ending>
    requires within { length bytes.now ≤ (format_of bytes.now).input }
    requires none { machines.old.items ≡ [] }
    ensures stands { IfOk result (λ made. StandsFor made.1 (cow_slice_items made.0) table count) }
    ensures comes { Comes (answer_of (Command.Jump table count) bytes.now) machines.new.items
        (as_bytes (λ made. jump_image (cow_slice_items made.0) table count) result) }
{
    let (machine, place) = machine_of(alloc, bytes)?;
    let image = patched_for(alloc, machine, bytes_from(bytes, place), machines)?;
    let jumps = labels_of(alloc, table, count, image.as_slice())?;
    Ok((image, jumps))
}

/// Brings the machine of a document up, leaves it in `machines`, and writes the image, patched for the machine,
/// with the jump labels of the table of so many entries at a place of it applied.
pub fn jump<O: Sink>(
    alloc: Global,
    table: u32,
    count: u32,
    bytes: &[u8],
    out: &mut O,
    machines: &mut Vec<Boot>,
) -> Ending
    requires within { length bytes.now ≤ (format_of bytes.now).input }
    requires none { machines.old.items ≡ [] }
    ensures { Ends (Command.Jump table count) (answer_of (Command.Jump table count) bytes.now)
        (change O.held O.faults out.old out.new) machines.new.items result }
{
    let (image, jumps) = match patched_and_labels(alloc, table, count, bytes, machines) {
        Ok(made) => made,
        Err(ending) => return ending,
    };
    match jumps.write(image.as_slice(), out) {
        Ok(()) => Ending::Done,
        Err(_) => Ending::WriteFault,
    }
}

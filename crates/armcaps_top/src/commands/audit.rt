//! `audit`: whether a second image is the document's own, patched for the machine.

ghost use Rattle.std.specs.Prelude.{◌≡◌, ◌+◌, ◌*◌, ◌≤◌, ◌^◌, [], IfErr, IfOk, None, Ok, length, string_bytes, true};
ghost use Rattle.std.specs.List.{All};
ghost use Rattle.armcaps_alt.specs.Names.{IsKnown};
ghost use Rattle.armcaps_alt.specs.Patched.{patched_image};
ghost use Rattle.armcaps_alt.specs.Refusals.{first_refusal};
ghost use Rattle.armcaps_patch.specs.Features.{features_of};
ghost use Rattle.armcaps_pool.specs.Audits.{first_difference, named_place};
ghost use Rattle.armcaps_text.specs.Document.{reading_of};
ghost use Rattle.armcaps_text.specs.Sound.{IsSound};
ghost use Rattle.armcaps_top.specs.Answer.{answer_of, of_document};
ghost use Rattle.armcaps_top.specs.Audit.{audit_reason, yes_line};
ghost use Rattle.armcaps_top.specs.Inside.{Comes, IsWhy, as_bytes};
ghost use Rattle.armcaps_top.specs.declared.commands.Command.TheVariants as Command;

use crate::bringing::{bring, only};
use crate::commands::patch::check;
use crate::document::machine_of_pair;
use crate::ending::Ending;
use crate::reason::Reason;
use armcaps_alt::{Layout, Names, known_capabilities_decide};
use armcaps_boot::Boot;
use armcaps_patch::enabled_on;
use armcaps_pool::{Verdict, audit as audit_image};
use armcaps_text::{Machine, bytes_from};
use std::alloc::{AllocError, Global};

// Whether an image is another one, patched for the machine.
fn verdict_on(
    alloc: Global,
    image: &[u8],
    judged: &[u8],
    layout: Layout,
    names: &Names,
    boot: &Boot,
) -> Result<Verdict, AllocError>
    requires same { length judged.now ≡ length image.now }
    requires size { length image.now ≤ 2 ^ 29 }
    requires table { layout.table + 12 * layout.count ≤ length image.now }
    requires finalised { boot.now.final ≡ true }
    requires known { All (λ e. IsKnown e.1) names.now.numbers }
    requires accepted { first_refusal (features_of boot.now names.now) image.now layout ≡ None }
    ensures { IfOk result (λ verdict. named_place verdict
        ≡ first_difference judged.now (patched_image (features_of boot.now names.now) image.now layout)) }
{
    known_capabilities_decide();
    boot.facts_hold();
    let enabled = enabled_on(boot);
    audit_image(
        alloc,
        image,
        judged,
        layout.table,
        layout.count,
        names,
        &enabled,
        boot.final_ctr(),
    )
}

// The line of an image that is another one, patched for the machine, or why it is not taken.
fn judge(
    alloc: Global,
    image: &[u8],
    judged: &[u8],
    layout: Layout,
    names: &Names,
    boot: &Boot,
) -> Result<String, Ending>
    requires same { length judged.now ≡ length image.now }
    requires size { length image.now ≤ 2 ^ 29 }
    requires table { layout.table + 12 * layout.count ≤ length image.now }
    requires finalised { boot.now.final ≡ true }
    requires known { All (λ e. IsKnown e.1) names.now.numbers }
    ensures line { IfOk result (λ text. string_bytes text ≡ yes_line) }
    ensures taken { IfOk result (λ text. audit_reason (features_of boot.now names.now) layout image.now judged.now
        ≡ None) }
    ensures refused { IfErr result (IsWhy (audit_reason (features_of boot.now names.now) layout image.now judged.now)) }
{
    check(alloc, image, layout, names, boot)?;
    let Ok(verdict) = verdict_on(alloc, image, judged, layout, names, boot) else {
        return Err(Ending::Memory);
    };
    match verdict {
        Verdict::Yes => match "yes\n".to_string(alloc) {
            Ok(text) => Ok(text),
            Err(_) => Err(Ending::Memory),
        },
        Verdict::No { place } => Err(Ending::NoOutput(Reason::Differs { place })),
    }
}

// Brings the machine up, and judges the second of two images by the first.
fn audit_for(
    alloc: Global,
    machine: Machine,
    images: &[u8],
    machines: &mut Vec<Boot>,
) -> Result<String, Ending>
    requires sound { IsSound (reading_of machine) }
    requires none { machines.old.items ≡ [] }
    requires known { All (λ e. IsKnown e.1) machine.names.numbers }
    requires images { length images.now ≡ 2 * machine.image }
    ensures { Comes (of_document Command.Audit (Ok (record { reading = reading_of machine; image = images.now })))
        machines.new.items (as_bytes string_bytes result) }
{
    let layout = machine.layout;
    let size = machine.image as usize;
    let names = bring(alloc, machine, machines)?;
    judge(
        alloc,
        &images[..size],
        &images[size..],
        layout,
        &names,
        only(machines),
    )
}

/// Brings the machine of a document up, leaves it in `machines`, and says whether the image that follows the document's
/// own is that one, patched for the machine, or how the run ends.
pub fn audit(alloc: Global, bytes: &[u8], machines: &mut Vec<Boot>) -> Result<String, Ending>
    requires within { length bytes.now ≤ 269484032 }
    requires none { machines.old.items ≡ [] }
    ensures { Comes (answer_of Command.Audit bytes.now) machines.new.items (as_bytes string_bytes result) }
{
    let (machine, place) = machine_of_pair(alloc, bytes)?;
    audit_for(alloc, machine, bytes_from(bytes, place), machines)
}

//! `demo SEED CORES`: what comes of a machine and its image that are made from a number.

ghost use Rattle.std.specs.Prelude.{◌≡◌, ◌+◌, ◌*◌, ◌≤◌, ◌^◌, [], cond, true, IfOk, length, string_bytes};
ghost use Rattle.armcaps_alt.specs.Entries.{Features};
ghost use Rattle.armcaps_alt.specs.Patched.{patched_image};
ghost use Rattle.armcaps_alt.specs.declared.table_place.Layout.{Layout as Place};
ghost use Rattle.armcaps_boot.specs.Findings.{findings_of};
ghost use Rattle.armcaps_patch.specs.Features.{features_of};
ghost use Rattle.armcaps_patch.specs.Kept.{StandsFor};
ghost use Rattle.armcaps_top.specs.Answer.{answer_of};
ghost use Rattle.armcaps_top.specs.Demo.{counts_of, is_changed, sum_of_words, words_changed};
ghost use Rattle.armcaps_top.specs.Inside.{Comes, IsCountable, as_bytes};

use crate::bringing::{bring, only};
use crate::commands::Command;
use crate::commands::patch::patched;
use crate::ending::Ending;
use armcaps_alt::{Layout, Names};
use armcaps_boot::Boot;
use armcaps_image::word;
use armcaps_patch::{PatchRefused, Plan};
use armcaps_report::{Counts, count_cores, demo_lines};
use armcaps_text::generate;
use armcaps_text::laws::{generated_images_are_not_refused, generated_machines_are_sound};
use std::alloc::{AllocError, Global};

// One where the word at an index differs in two images, and else none.
fn changed(image: &[u8], patched: &[u8], index: usize) -> u32
    requires image { 4 * index + 4 ≤ length image.now }
    requires patched { 4 * index + 4 ≤ length patched.now }
    ensures { result ≡ cond (is_changed image.now patched.now index) 1 0 }
{
    if word(patched, 4 * index) == word(image, 4 * index) {
        0
    } else {
        1
    }
}

// How many words differ in two images, and the sum of the second one's.
fn compare(image: &[u8], patched: &[u8]) -> (u32, u64)
    requires size { length image.now ≤ 2 ^ 29 }
    requires same { length patched.now ≡ length image.now }
    ensures changed { result.0 ≡ words_changed image.now patched.now }
    ensures sum { result.1 ≡ sum_of_words patched.now }
{
    let mut different = 0;
    let mut sum = 0;
    for index in 0..image.len() / 4 {
        different += changed(image, patched, index);
        sum += u64::from(word(patched, 4 * index));
    }
    (different, sum)
}

// The plan of an image.
fn plan_of(
    alloc: Global,
    boot: &Boot,
    names: &Names,
    image: &[u8],
    layout: Layout,
) -> Result<Plan, AllocError>
    requires finalised { boot.now.final ≡ true }
    requires countable { IsCountable (features_of boot.now names.now) image.now layout }
    ensures { IfOk result (λ plan. StandsFor plan (features_of boot.now names.now) image.now layout) }
{
    match Plan::check(alloc, image, layout, names, boot) {
        Ok(plan) => Ok(plan),
        Err(PatchRefused::Memory) => Err(AllocError),
        Err(PatchRefused::Entry { .. }) => unreachable!(),
    }
}

// What is counted of a machine and its image.
#[tactic(auto, unfolding(crate::specs::Demo::counts_of))]
fn counts_of(
    alloc: Global,
    boot: &Boot,
    names: &Names,
    image: &[u8],
    layout: Layout,
) -> Result<Counts, AllocError>
    requires finalised { boot.now.final ≡ true }
    requires countable { IsCountable (features_of boot.now names.now) image.now layout }
    ensures { IfOk result (λ counts. counts ≡ counts_of (findings_of boot.now)
        (features_of boot.now names.now) image.now layout) }
{
    let plan = plan_of(alloc, boot, names, image, layout)?;
    let new = patched(alloc, &plan, image)?;
    let (admitted, parked) = count_cores(boot);
    let (changed, sum) = compare(image, &new);
    Ok(Counts {
        admitted,
        parked,
        selected: plan.count_entries(),
        covered: plan.count_words(),
        changed,
        sum,
    })
}

/// Makes a machine with so many cores and its image from a seed, brings the machine up and leaves it in `machines`,
/// patches the image, and makes what is written of both.
pub fn demo(
    alloc: Global,
    seed: u32,
    cores: u32,
    machines: &mut Vec<Boot>,
) -> Result<String, Ending>
    requires some { 1 ≤ cores }
    requires few { cores ≤ 64 }
    requires none { machines.old.items ≡ [] }
    ensures { Comes (answer_of (Command.Demo seed cores) []) machines.new.items (as_bytes string_bytes result) }
{
    let Ok((machine, image)) = generate(alloc, seed, cores) else {
        return Err(Ending::Memory);
    };
    let layout = machine.layout;
    generated_machines_are_sound();
    generated_images_are_not_refused();
    let names = bring(alloc, machine, machines)?;
    let Ok(counts) = counts_of(alloc, only(machines), &names, &image, layout) else {
        return Err(Ending::Memory);
    };
    match demo_lines(alloc, seed, cores, &counts) {
        Ok(text) => Ok(text),
        Err(_) => Err(Ending::Memory),
    }
}

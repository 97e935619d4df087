//! The check of an image and its table, entry by entry.

ghost use Rattle.std.specs.Prelude.{◌≡◌, ◌+◌, ◌*◌, ◌<◌, ◌≤◌, ◌^◌, ◌++◌, ◌∷◌, [], ℕ, true, None, Some, Err, IfErr, IfOk, IfSome, if◌then◌else◌, length, map, unwrap_or, false};
ghost use Rattle.std.specs.List.{All};
ghost use Rattle.std.specs.Option.{option_to_list};
ghost use Rattle.armcaps_alt.specs.declared.patch_kind.PatchKind.{PatchKind};
ghost use Rattle.armcaps_alt.specs.Entries.{entry_at, selected_of};
ghost use Rattle.armcaps_alt.specs.Names.{callback_named};
ghost use Rattle.armcaps_alt.specs.Refusals.{first_refusal, refusal_by};
ghost use Rattle.armcaps_patch.specs.Features.{features_of};
ghost use Rattle.armcaps_patch.specs.Kept.{IsKept, StandsFor, kept_of};

use crate::accepting::accept;
use crate::callbacks::{first_asked, kind_of};
use crate::choosing::{choose, none_yet};
use crate::kept::Kept;
use crate::planning::Plan;
use crate::refused::PatchRefused;
use crate::selecting::enabled_on;
use armcaps_alt::{CallbackKind, Entry, Layout, Names, PatchKind};
use armcaps_boot::Boot;
use std::alloc::{AllocError, Global};

impl Plan {
    /// A plan of the patched image: the entries of its table are asked in their order, and the first one that is
    /// refused ends it. The table lies in the image, and the machine's capabilities are final.
    ///
    /// # Errors
    ///
    /// `PatchRefused::Entry` with the first entry that is refused and the least kind for which it is, and
    /// `PatchRefused::Memory` where there is no memory.
    ///
    /// # Examples
    ///
    /// ```
    /// let layout = Layout { table: 64, count: 2 };
    /// let plan = Plan::check(rt.alloc(), image, layout, &names, &boot)?;
    /// plan.write(image, &mut out)?;
    /// ```
    pub fn check(
        alloc: Global,
        image: &[u8],
        layout: Layout,
        names: &Names,
        boot: &Boot,
    ) -> Result<Plan, PatchRefused>
        requires size { length image.now ≤ 2 ^ 29 }
        requires table { layout.table + 12 * layout.count ≤ length image.now }
        requires finalised { boot.now.final ≡ true }
        ensures stands { IfOk result (λ plan. StandsFor plan (features_of boot.now names.now) image.now layout) }
        ensures refused { (entry : ℕ) (kind : PatchKind) → result ≡ Err (PatchRefused.Entry entry kind)
            → first_refusal (features_of boot.now names.now) image.now layout
            ≡ Some (record { entry = entry; kind = kind }) }
    {
        let kept = keep_all(alloc, image, layout, names, boot)?;
        let plan = Plan::of(
            alloc,
            kept,
            image.len() as u32,
            final_ctr(boot, names),
            names.conduit(),
        )?;
        Ok(plan)
    }
}

// The word of CTR_EL0 over the cores that came early.
fn final_ctr(boot: &Boot, names: &Names) -> u64
    requires { boot.now.final ≡ true }
    ensures { result ≡ (features_of boot.now names.now).ctr }
{
    boot.facts_hold();
    boot.final_ctr()
}

// What is kept of the entries of the table, all of which are asked in their order.
fn keep_all(
    alloc: Global,
    image: &[u8],
    layout: Layout,
    names: &Names,
    boot: &Boot,
) -> Result<Vec<Kept>, PatchRefused>
    requires size { length image.now ≤ 2 ^ 29 }
    requires table { layout.table + 12 * layout.count ≤ length image.now }
    requires finalised { boot.now.final ≡ true }
    ensures accepted { IfOk result (λ kept. first_refusal (features_of boot.now names.now) image.now layout ≡ None) }
    ensures kept { IfOk result (λ kept. kept.items
        ≡ map (kept_of names.now) (selected_of (features_of boot.now names.now) image.now layout)) }
    ensures each { IfOk result (λ kept. All (IsKept (length image.now)) kept.items) }
    ensures few { IfOk result (λ kept. length kept.items ≤ layout.count) }
    ensures refused { (entry : ℕ) (kind : PatchKind) → result ≡ Err (PatchRefused.Entry entry kind)
        → first_refusal (features_of boot.now names.now) image.now layout
        ≡ Some (record { entry = entry; kind = kind }) }
{
    let enabled = enabled_on(boot);
    let mut choices = none_yet(alloc)?;
    let mut asked = first_asked(alloc, names)?;
    let mut kept = Vec::with_capacity(alloc, layout.count as usize)?;
    for index in 0..layout.count {
        let entry = entry_at(image, layout, index);
        let is_selected = choose(&mut choices, &entry, names, &enabled);
        let callback = kind_of(&mut asked, &entry, names);
        match keep(is_selected, &entry, callback, image, names) {
            Ok(found) => add(&mut kept, found)?,
            Err(kind) => return Err(PatchRefused::Entry { entry: index, kind }),
        }
    }
    Ok(kept)
}

// Adds what is kept of an entry, if it is something.
fn add(kept: &mut Vec<Kept>, found: Option<Kept>) -> Result<(), AllocError>
    ensures { IfOk result (λ done. kept.new.items ≡ kept.old.items ++ option_to_list found) }
{
    match found {
        Some(entry) => kept.push(entry)?,
        None => {}
    }
    Ok(())
}

/// The entry of the table that has this number.
pub fn entry_at(image: &[u8], layout: Layout, index: u32) -> Entry
    requires size { length image.now ≤ 2 ^ 29 }
    requires table { layout.table + 12 * layout.count ≤ length image.now }
    requires index { index < layout.count }
    ensures { result ≡ entry_at image.now layout index }
{
    let place = layout.table as usize + 12 * index as usize;
    Entry::read(&image[place..], place as u64)
}

// What is kept of an entry by whether it is selected and its callback's kind: nothing if it isn't, or the least kind that holds of it.
fn keep(
    selected: Option<bool>,
    entry: &Entry,
    callback: Option<CallbackKind>,
    image: &[u8],
    names: &Names,
) -> Result<Option<Kept>, PatchKind>
    requires size { length image.now ≤ 2 ^ 29 }
    requires callback { entry.now.callback ≡ true → callback ≡ callback_named names.now entry.now.repl }
    ensures refused { IfErr result (λ kind. refusal_by selected names.now image.now entry.now ≡ Some kind) }
    ensures accepted { IfOk result (λ kept. refusal_by selected names.now image.now entry.now ≡ None) }
    ensures kept { IfOk result (λ kept. kept
        ≡ (if unwrap_or selected false then Some (kept_of names.now entry.now) else None)) }
    ensures each { IfOk result (λ kept. IfSome kept (IsKept (length image.now))) }
{
    match selected {
        None => Err(PatchKind::UnknownCap),
        Some(false) => Ok(None),
        Some(true) => match accept(entry, callback, image, names) {
            Ok(kept) => Ok(Some(kept)),
            Err(kind) => Err(kind),
        },
    }
}

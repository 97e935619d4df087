//! What is kept of a selected entry, or why it is refused.

ghost use Rattle.std.specs.Prelude.{◌≡◌, ◌+◌, ◌≤◌, ◌^◌, nat_le, true, false, None, Some, IfErr, IfOk, if◌then◌else◌, length};
ghost use Rattle.armcaps_image.specs.Places.{as_place, is_within};
ghost use Rattle.armcaps_alt.specs.Names.{callback_named};
ghost use Rattle.armcaps_alt.specs.Refusals.{first_kind, has_other_length, is_unaligned, makes_other_length, tests_of};
ghost use Rattle.armcaps_patch.specs.Replaced.{word_tests};
ghost use Rattle.armcaps_patch.specs.Accepting.{IsPlaced, KeepsOrRefuses};
ghost use Rattle.armcaps_patch.specs.Kept.{IsKept, kept_of};

use crate::kept::Kept;
use crate::words::{moved, takes_addresses};
use armcaps_alt::{CallbackKind, Entry, Names, PatchKind};
use armcaps_image::{place_within, word};
use armcaps_insn::{FixRefused, takes_address};

// What is kept of a selected entry, or the least kind that holds of it.
pub(crate) fn accept(
    entry: &Entry,
    callback: Option<CallbackKind>,
    image: &[u8],
    names: &Names,
) -> Result<Kept, PatchKind>
    requires size { length image.now ≤ 2 ^ 29 }
    requires callback { entry.now.callback ≡ true → callback ≡ callback_named names.now entry.now.repl }
    ensures { KeepsOrRefuses names.now image.now entry.now result }
{
    if is_unaligned(entry) {
        return Err(PatchKind::Unaligned);
    }
    let Some(site) = place_within(image.len(), entry.site, entry.orig_len) else {
        return Err(PatchKind::SiteOutside);
    };
    if has_other_length(entry) {
        return Err(PatchKind::Length);
    }
    if entry.callback {
        accept_callback(entry, callback, site, image, names)
    } else {
        accept_replacement(entry, site, image, names)
    }
}

// The same of an entry with a callback, of which no kind before UnknownCallback holds.
fn accept_callback(
    entry: &Entry,
    named: Option<CallbackKind>,
    site: u32,
    image: &[u8],
    names: &Names,
) -> Result<Kept, PatchKind>
    requires callback { entry.now.callback ≡ true }
    requires named { named ≡ callback_named names.now entry.now.repl }
    requires placed { IsPlaced (length image.now) entry.now site }
    ensures { KeepsOrRefuses names.now image.now entry.now result }
{
    let Some(kind) = named else {
        return Err(PatchKind::UnknownCallback);
    };
    if makes_other_length(kind, entry.orig_len) {
        return Err(PatchKind::CallbackLength);
    }
    Ok(Kept {
        site,
        repl: 0,
        len: entry.orig_len,
        callback: Some(kind),
    })
}

// The same of an entry without a callback, of which no kind before ReplacementOutside holds.
fn accept_replacement(
    entry: &Entry,
    site: u32,
    image: &[u8],
    names: &Names,
) -> Result<Kept, PatchKind>
    requires callback { entry.now.callback ≡ false }
    requires size { length image.now ≤ 2 ^ 29 }
    requires placed { IsPlaced (length image.now) entry.now site }
    ensures { KeepsOrRefuses names.now image.now entry.now result }
{
    let Some(repl) = place_within(image.len(), entry.repl, entry.orig_len) else {
        return Err(PatchKind::ReplacementOutside);
    };
    let kept = Kept {
        site,
        repl,
        len: entry.orig_len,
        callback: None,
    };
    match refused_word(&kept, image) {
        Some(kind) => Err(kind),
        None => Ok(kept),
    }
}

// Whether the site, its length, or without a callback the replacement is no multiple of four bytes.
fn is_unaligned(entry: &Entry) -> bool
    ensures { result ≡ is_unaligned entry.now }
{
    entry.site % 4 != 0 || entry.orig_len % 4 != 0 || !entry.callback && entry.repl % 4 != 0
}

// Whether the replacement's length isn't the site's, or with a callback isn't 0.
fn has_other_length(entry: &Entry) -> bool
    ensures { result ≡ has_other_length entry.now }
{
    if entry.callback {
        entry.alt_len != 0
    } else {
        entry.alt_len != entry.orig_len
    }
}

// Whether a callback of this kind makes another number of bytes.
fn makes_other_length(kind: CallbackKind, len: u8) -> bool
    ensures { result ≡ makes_other_length kind len }
{
    match kind {
        CallbackKind::FinalCtr => len != 16,
        CallbackKind::Conduit => len != 4,
        CallbackKind::Nops | CallbackKind::Keep => false,
    }
}

// Why a word of a replacement can't move to the site, if there is one: the least kind. Where no word takes an address,
// all can.
#[tactic(auto, using(crate::proofs::Addresses::none_refused))]
fn refused_word(kept: &Kept, image: &[u8]) -> Option<PatchKind>
    requires kept { IsKept (length image.now) kept.now }
    requires replacement { kept.now.callback ≡ None }
    requires size { length image.now ≤ 2 ^ 29 }
    ensures { result ≡ first_kind (word_tests image.now kept.now) }
{
    if takes_addresses(image, kept.repl as usize, kept.len as usize / 4) {
        refused_by_words(kept, image)
    } else {
        None
    }
}

// The same, word by word.
fn refused_by_words(kept: &Kept, image: &[u8]) -> Option<PatchKind>
    requires kept { IsKept (length image.now) kept.now }
    requires replacement { kept.now.callback ≡ None }
    requires size { length image.now ≤ 2 ^ 29 }
    ensures { result ≡ first_kind (word_tests image.now kept.now) }
{
    let mut is_out_of_range = false;
    for index in 0..u32::from(kept.len / 4) {
        if takes_address(word(image, kept.repl as usize + 4 * index as usize)) {
            match moved(kept, index, image) {
                Ok(_) => {}
                Err(FixRefused::Literal { .. }) => return Some(PatchKind::Literal),
                Err(FixRefused::Range { .. }) => is_out_of_range = true,
            }
        }
    }
    if is_out_of_range {
        Some(PatchKind::Range)
    } else {
        None
    }
}

//! The words of an entry's site, each judged by the word that belongs there.

ghost use Rattle.std.specs.Prelude.{◌≡◌, ◌==◌, ◌&&◌, ◌||◌, ◌+◌, ◌-◌, ◌*◌, ◌/◌, ◌%◌, ◌<◌, ◌≤◌, ◌^◌, ℕ, Ok, false, true, length, not, pos};
ghost use Rattle.armcaps_image.specs.Places.{as_place};
ghost use Rattle.armcaps_alt.specs.Accepted.{IsAccepted};
ghost use Rattle.armcaps_alt.specs.Names.{NameLists};
ghost use Rattle.armcaps_alt.specs.Words.{new_word, replacement_word};
ghost use Rattle.armcaps_pool.specs.Judging.{AreImages, IsFirst, IsJudged, features_by, is_marked, is_other, is_wrong_by};

use crate::differing::differing_byte;
use crate::marks::{is_marked, mark};
use crate::right_word::right_word;
use armcaps_alt::{Entry, Names, callback_word};
use armcaps_image::word;

// Judges the words of an entry's site that are not marked yet, and marks them: the first byte that is not the one that
// the entry makes; the size where there is none.
pub(crate) fn judge_site(
    marks: &mut [u64],
    entry: &Entry,
    image: &[u8],
    patched: &[u8],
    names: &Names,
    ctr: u64,
) -> usize
    requires accepted { IsAccepted names.now image.now entry.now }
    requires images { AreImages image.now patched.now }
    requires marks { length image.now / 4 < 64 * length marks.old }
    ensures { IsJudged (features_by names.now ctr) image.now patched.now marks.old entry.now (entry.now.orig_len / 4)
        marks.new result }
{
    let mut first = image.len();
    for index in 0..u32::from(entry.orig_len) / 4 {
        first = first.min(judge_word(marks, entry, index, image, patched, names, ctr));
    }
    first
}

// Judges a word of an entry's site that is not marked yet, and marks it.
fn judge_word(
    marks: &mut [u64],
    entry: &Entry,
    index: u32,
    image: &[u8],
    patched: &[u8],
    names: &Names,
    ctr: u64,
) -> usize
    requires accepted { IsAccepted names.now image.now entry.now }
    requires images { AreImages image.now patched.now }
    requires marks { length image.now / 4 < 64 * length marks.old }
    requires index { 4 * index < entry.now.orig_len }
    ensures marked { (number : ℕ) → is_marked marks.new number
        ≡ (is_marked marks.old number || number == as_place entry.now.site / 4 + index) }
    ensures first { IsFirst (λ place. (place / 4 == as_place entry.now.site / 4 + index)
        && is_wrong_by (features_by names.now ctr) image.now patched.now marks.old entry.now place)
        (length image.now) result }
{
    let number = site_of(entry) / 4 + index as usize;
    if is_marked(marks, number) {
        return image.len();
    }
    mark(marks, number);
    first_other(entry, index, image, patched, names, ctr)
}

// The first byte of a word of an entry's site that is not the one that the entry makes; the size where there is none.
fn first_other(
    entry: &Entry,
    index: u32,
    image: &[u8],
    patched: &[u8],
    names: &Names,
    ctr: u64,
) -> usize
    requires accepted { IsAccepted names.now image.now entry.now }
    requires images { AreImages image.now patched.now }
    requires index { 4 * index < entry.now.orig_len }
    ensures { IsFirst (λ place. (place / 4 == as_place entry.now.site / 4 + index)
        && is_other (features_by names.now ctr) image.now patched.now entry.now place) (length image.now) result }
{
    let place = site_of(entry) + 4 * index as usize;
    let byte = differing_byte(
        word(patched, place),
        site_word(entry, index, image, patched, names, ctr),
    );
    if byte < 4 { place + byte } else { image.len() }
}

// The word that belongs at an index of an entry's site.
fn site_word(
    entry: &Entry,
    index: u32,
    image: &[u8],
    patched: &[u8],
    names: &Names,
    ctr: u64,
) -> u32
    requires accepted { IsAccepted names.now image.now entry.now }
    requires images { AreImages image.now patched.now }
    requires index { 4 * index < entry.now.orig_len }
    ensures { result ≡ new_word (features_by names.now ctr) image.now entry.now index }
{
    if entry.callback {
        called_word(entry, index, image, names, ctr)
    } else {
        replaced_word(entry, index, image, patched)
    }
}

// The word that an entry's callback makes.
fn called_word(entry: &Entry, index: u32, image: &[u8], names: &Names, ctr: u64) -> u32
    requires callback { entry.now.callback ≡ true }
    requires accepted { IsAccepted names.now image.now entry.now }
    requires size { length image.now ≤ 2 ^ 29 }
    requires index { 4 * index < entry.now.orig_len }
    ensures { result ≡ new_word (features_by names.now ctr) image.now entry.now index }
{
    let site = site_of(entry);
    let original = word(image, site + 4 * index as usize);
    match names.callback(entry.repl) {
        Some(kind) => callback_word(
            kind,
            index,
            ctr,
            names.conduit(),
            word(image, site),
            original,
        ),
        None => original,
    }
}

// The word of an entry's replacement, at the site's place.
fn replaced_word(entry: &Entry, index: u32, image: &[u8], patched: &[u8]) -> u32
    requires replacement { entry.now.callback ≡ false }
    requires accepted { (names : NameLists) × IsAccepted names image.now entry.now }
    requires images { AreImages image.now patched.now }
    requires index { 4 * index < entry.now.orig_len }
    ensures { replacement_word image.now entry.now index ≡ Ok result }
{
    let low = replacement_of(entry);
    let from = low + 4 * index as usize;
    let to = site_of(entry) + 4 * index as usize;
    right_word(
        word(image, from),
        word(patched, to),
        from as u64,
        to as u64,
        low as u64,
        low as u64 + u64::from(entry.orig_len),
    )
}

// Where an entry's site begins.
fn site_of(entry: &Entry) -> usize
    requires { entry.now.site ≡ pos (as_place entry.now.site) }
    ensures { result ≡ as_place entry.now.site }
{
    entry.site as usize
}

// Where an entry's replacement begins.
fn replacement_of(entry: &Entry) -> usize
    requires { entry.now.repl ≡ pos (as_place entry.now.repl) }
    ensures { result ≡ as_place entry.now.repl }
{
    entry.repl as usize
}

//! The entries of a table, judged from the last to the first.

ghost use Rattle.std.specs.Prelude.{◌≡◌, ◌+◌, ◌-◌, ◌*◌, ◌/◌, ◌<◌, ◌≤◌, ◌^◌, ℕ, List, false, true, length, min};
ghost use Rattle.armcaps_alt.specs.declared.table_entry.Entry.{Entry};
ghost use Rattle.armcaps_alt.specs.Accepted.{IsAccepted};
ghost use Rattle.armcaps_alt.specs.Entries.{entry_at, is_selected};
ghost use Rattle.armcaps_pool.specs.Audits.{features_of};
ghost use Rattle.armcaps_pool.specs.Judging.{AreAccepted, AreImages, AreJudged, is_marked, last_of, with_entry};

use crate::sites::judge_site;
use armcaps_alt::{Entry, Layout, Names, selected};
use armcaps_caps::CapSet;

// Judges the sites of all selected entries of a table, from the last entry to the first, so that each word is judged by
// the last entry whose site covers it, and marks their words: the first wrong byte; the size where there is none.
pub(crate) fn judge_sites(
    marks: &mut [u64],
    image: &[u8],
    patched: &[u8],
    layout: Layout,
    names: &Names,
    enabled: &CapSet,
    ctr: u64,
) -> usize
    requires none { (number : ℕ) → is_marked marks.old number ≡ false }
    requires images { AreImages image.now patched.now }
    requires marks { length image.now / 4 < 64 * length marks.old }
    requires table { layout.table + 12 * layout.count ≤ length image.now }
    requires accepted { AreAccepted (features_of names.now enabled.now ctr) image.now layout }
    ensures size { length marks.new ≡ length marks.old }
    ensures judged { AreJudged (features_of names.now enabled.now ctr) image.now patched.now
        (last_of (features_of names.now enabled.now ctr) image.now layout layout.count) marks.new result }
{
    let mut first = image.len();
    for done in 0..layout.count {
        let entry = entry_at(image, layout, layout.count - 1 - done);
        first = first.min(judge_entry(marks, &entry, image, patched, names, enabled, ctr));
    }
    first
}

// The entry of a table that has this number.
fn entry_at(image: &[u8], layout: Layout, number: u32) -> Entry
    requires size { length image.now ≤ 2 ^ 29 }
    requires table { layout.table + 12 * layout.count ≤ length image.now }
    requires number { number < layout.count }
    ensures { result ≡ entry_at image.now layout number }
{
    let place = layout.table as usize + 12 * number as usize;
    Entry::read(&image[place..], place as u64)
}

// Judges an entry's site, if it is selected, where the entries behind it are judged: the first wrong byte of the words
// that none of them covers; the size where there is none.
fn judge_entry(
    marks: &mut [u64],
    entry: &Entry,
    image: &[u8],
    patched: &[u8],
    names: &Names,
    enabled: &CapSet,
    ctr: u64,
) -> usize
    requires images { AreImages image.now patched.now }
    requires marks { length image.now / 4 < 64 * length marks.old }
    requires accepted { is_selected (features_of names.now enabled.now ctr) entry.now ≡ true
        → IsAccepted names.now image.now entry.now }
    ensures size { length marks.new ≡ length marks.old }
    ensures judged { (entries : List Entry) (first : ℕ)
        → AreJudged (features_of names.now enabled.now ctr) image.now patched.now entries marks.old first
        → AreJudged (features_of names.now enabled.now ctr) image.now patched.now
        (with_entry (features_of names.now enabled.now ctr) entry.now entries) marks.new (min first result) }
{
    if selected(entry, names, enabled).unwrap_or(false) {
        judge_site(marks, entry, image, patched, names, ctr)
    } else {
        image.len()
    }
}

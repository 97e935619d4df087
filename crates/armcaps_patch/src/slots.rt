//! The stamps on the places of a piece.

ghost use Rattle.std.specs.Prelude.{◌≡◌, ◌+◌, ◌*◌, ◌%◌, ◌<◌, ◌≤◌, ◌^◌, ◌&&◌, ℕ, if◌then◌else◌, length, max, nat_le, nat_lt, slice_index, take};
ghost use Rattle.std.specs.List.{All};
ghost use Rattle.armcaps_patch.specs.Buckets.{site_of, sites_at};
ghost use Rattle.armcaps_patch.specs.Index.{IsSite, last_at, stamp_at};

use crate::kept::Kept;
use crate::site::Site;

// How many sites are fetched at once: they stand anywhere in memory, and none waits for the one before.
const FETCHED: usize = 64;

// Puts the stamps of the kept entries of these numbers on the places that their sites cover: slot k is for the place
// `from + 4 k`.
pub(crate) fn mark_all(slots: &mut [u32], from: u32, numbers: &[u32], kept: &[Kept])
    requires aligned { from % 4 ≡ 0 }
    requires from { from ≤ 2 ^ 29 }
    requires known { All (λ number. number < length kept.now) numbers.now }
    requires few { length kept.now ≤ 2 ^ 26 }
    requires sites { All (λ entry. IsSite (site_of 0 entry)) kept.now }
    ensures { (k : ℕ) → k < length slots.new → slice_index slots.new k
        ≡ max (slice_index slots.old k) (last_at (from + 4 * k) (sites_at kept.now numbers.now)) }
{
    let mut sites = [Site {
        place: 0,
        words: 0,
        number: 0,
    }; FETCHED];
    for part in 0..numbers.len().div_ceil(FETCHED) {
        let end = numbers.len().min(FETCHED * part + FETCHED);
        let some = &numbers[FETCHED * part..end];
        fetch(&mut sites, some, kept);
        mark_sites(slots, from, &sites[..some.len()]);
    }
}

// Fetches the sites of the kept entries of these numbers.
fn fetch(sites: &mut [Site], numbers: &[u32], kept: &[Kept])
    requires room { length numbers.now ≤ length sites.old }
    requires known { All (λ number. number < length kept.now) numbers.now }
    ensures { take (length numbers.now) sites.new ≡ sites_at kept.now numbers.now }
{
    for (k, number) in numbers.iter().enumerate() {
        let entry = &kept[*number as usize];
        sites[k] = Site {
            place: entry.site,
            words: entry.len / 4,
            number: *number,
        };
    }
}

// Puts the sites' stamps on the places that they cover.
fn mark_sites(slots: &mut [u32], from: u32, sites: &[Site])
    requires aligned { from % 4 ≡ 0 }
    requires from { from ≤ 2 ^ 29 }
    requires sites { All IsSite sites.now }
    ensures { (k : ℕ) → k < length slots.new
        → slice_index slots.new k ≡ max (slice_index slots.old k) (last_at (from + 4 * k) sites.now) }
{
    for site in sites {
        mark(slots, from, *site);
    }
}

// Puts one site's stamp on the places that it covers.
fn mark(slots: &mut [u32], from: u32, site: Site)
    requires aligned { from % 4 ≡ 0 }
    requires from { from ≤ 2 ^ 29 }
    requires site { IsSite site }
    ensures { (k : ℕ) → k < length slots.new
        → slice_index slots.new k ≡ max (slice_index slots.old k) (stamp_at site (from + 4 * k)) }
{
    let begin = site.place.saturating_sub(from) as usize / 4;
    let end = (site.place + 4 * site.words as u32).saturating_sub(from) as usize / 4;
    let last = end.min(slots.len());
    if begin < last {
        stamp_range(slots, begin, last, site.number + 1);
    }
}

// Puts a stamp on the slots from one on to another.
fn stamp_range(slots: &mut [u32], begin: usize, end: usize, stamp: u32)
    requires order { begin ≤ end }
    requires within { end ≤ length slots.old }
    ensures { (k : ℕ) → slice_index slots.new k
        ≡ max (slice_index slots.old k) (if nat_le begin k && nat_lt k end then stamp else 0) }
{
    for k in begin..end {
        slots[k] = slots[k].max(stamp);
    }
}

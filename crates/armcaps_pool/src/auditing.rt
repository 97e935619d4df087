//! A second judge of a patched image.

ghost use Rattle.std.specs.Prelude.{◌≡◌, ◌+◌, ◌*◌, ◌/◌, ◌<◌, ◌≤◌, ◌^◌, ℕ, IfOk, None, Some, false, if◌then◌else◌, length, nat_eq};
ghost use Rattle.armcaps_alt.specs.declared.table_place.Layout.{Layout};
ghost use Rattle.armcaps_alt.specs.Patched.{patched_image};
ghost use Rattle.armcaps_alt.specs.Refusals.{first_refusal};
ghost use Rattle.armcaps_pool.specs.Audits.{differs_at, features_of, first_difference, named_place};
ghost use Rattle.armcaps_pool.specs.Judging.{AreImages, IsFirst, is_marked};

use crate::differing::first_changed;
use crate::judging::judge_sites;
use crate::verdict::Verdict;
use armcaps_alt::{Layout, Names};
use armcaps_caps::CapSet;
use std::alloc::{AllocError, Global};

/// Whether `patched` is the patched image of `image`, whose table of `count` entries begins at the byte `table`, on a
/// machine that has these names, these capabilities and this word of CTR_EL0; and else the first byte that differs from
/// the patched image's. No entry of the table is refused.
///
/// Each word of a site is judged by the last selected entry that covers it: it is the callback's, or the replacement's
/// word where that takes no address or jumps within its sequence, and else it has the replacement's class, other bits
/// and target. Every other byte is the original's. An error comes only where there is no memory for the marks: one bit
/// a word.
pub fn audit(
    alloc: Global,
    image: &[u8],
    patched: &[u8],
    table: u32,
    count: u32,
    names: &Names,
    enabled: &CapSet,
    ctr: u64,
) -> Result<Verdict, AllocError>
    requires same { length patched.now ≡ length image.now }
    requires size { length image.now ≤ 2 ^ 29 }
    requires table { table + 12 * count ≤ length image.now }
    requires accepted { first_refusal (features_of names.now enabled.now ctr) image.now
        (record { table = table; count = count }) ≡ None }
    ensures { IfOk result (λ verdict. named_place verdict
        ≡ first_difference patched.now (patched_image (features_of names.now enabled.now ctr) image.now
        (record { table = table; count = count }))) }
{
    let layout = Layout { table, count };
    let mut marks = Vec::from_elem(alloc, 0u64, image.len() / 256 + 1)?;
    let first = first_wrong(&mut marks, image, patched, layout, names, enabled, ctr);
    Ok(verdict_at(first, image.len()))
}

// The first byte that differs from the patched image's; the size where there is none. No word is marked yet.
fn first_wrong(
    marks: &mut [u64],
    image: &[u8],
    patched: &[u8],
    layout: Layout,
    names: &Names,
    enabled: &CapSet,
    ctr: u64,
) -> usize
    requires none { (number : ℕ) → is_marked marks.old number ≡ false }
    requires images { AreImages image.now patched.now }
    requires marks { length image.now / 4 < 64 * length marks.old }
    requires table { layout.table + 12 * layout.count ≤ length image.now }
    requires accepted { first_refusal (features_of names.now enabled.now ctr) image.now layout ≡ None }
    ensures { IsFirst (differs_at patched.now (patched_image (features_of names.now enabled.now ctr) image.now layout))
        (length image.now) result }
{
    let in_sites = judge_sites(marks, image, patched, layout, names, enabled, ctr);
    in_sites.min(first_changed(marks, patched, image))
}

// The verdict by the first byte that differs, which is the size where there is none.
fn verdict_at(first: usize, size: usize) -> Verdict
    ensures { named_place result ≡ (if nat_eq first size then None else Some first) }
{
    if first == size {
        Verdict::Yes
    } else {
        Verdict::No {
            place: first as u64,
        }
    }
}

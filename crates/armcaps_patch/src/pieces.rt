//! The words of one piece of a patched image.

ghost use Rattle.std.specs.Prelude.{◌≡◌, ◌+◌, ◌-◌, ◌*◌, ◌<◌, ◌≤◌, ◌&&◌, ℕ, if◌then◌else◌, length, nat_le, nat_lt, slice_index};
ghost use Rattle.armcaps_patch.specs.Index.{Tells};
ghost use Rattle.armcaps_patch.specs.Kept.{IsPiece, kept_covers, plan_of, planned_byte, planned_word};

use crate::kept::Kept;
use crate::words::new_word;
use armcaps_alt::Conduit;
use armcaps_image::{put_word, word};

// The word at a place by the stamp on it: the last kept entry that covers it is the one before the stamp's number.
fn stamped_word(
    kept: &[Kept],
    stamp: u32,
    place: u32,
    image: &[u8],
    ctr: u64,
    conduit: Conduit,
) -> u32
    requires piece { IsPiece image.now kept.now place 4 }
    requires stamp { Tells (kept_covers place) stamp 0 kept.now }
    ensures { result ≡ planned_word (plan_of kept.now image.now ctr conduit) image.now place }
{
    match stamp.checked_sub(1) {
        Some(number) => {
            let entry = &kept[number as usize];
            new_word(entry, (place - entry.site) / 4, image, ctr, conduit)
        }
        None => word(image, place as usize),
    }
}

// Puts the new words of a piece over its original bytes: slot k has the stamp on the place `from + 4 k`.
pub(crate) fn put_words(
    buffer: &mut [u8],
    from: u32,
    slots: &[u32],
    kept: &[Kept],
    image: &[u8],
    ctr: u64,
    conduit: Conduit,
)
    requires piece { IsPiece image.now kept.now from (length buffer.old) }
    requires slots { 4 * length slots.now ≤ length buffer.old }
    requires stamps { (k : ℕ) → k < length slots.now
        → Tells (kept_covers (from + 4 * k)) (slice_index slots.now k) 0 kept.now }
    requires original { (j : ℕ) → j < length buffer.old → slice_index buffer.old j ≡ slice_index image.now (from + j) }
    ensures new { (j : ℕ) → j < 4 * length slots.now
        → slice_index buffer.new j ≡ planned_byte (plan_of kept.now image.now ctr conduit) image.now (from + j) }
    ensures rest { (j : ℕ) → 4 * length slots.now ≤ j → slice_index buffer.new j ≡ slice_index buffer.old j }
{
    for (k, stamp) in slots.iter().enumerate() {
        put_stamped(buffer, k, *stamp, from, kept, image, ctr, conduit);
    }
}

// Puts the new word over the word at an index of a piece, where there is one.
fn put_stamped(
    buffer: &mut [u8],
    k: usize,
    stamp: u32,
    from: u32,
    kept: &[Kept],
    image: &[u8],
    ctr: u64,
    conduit: Conduit,
)
    requires piece { IsPiece image.now kept.now from (length buffer.old) }
    requires word { 4 * k + 4 ≤ length buffer.old }
    requires stamp { Tells (kept_covers (from + 4 * k)) stamp 0 kept.now }
    requires original { (i : ℕ) → i < 4
        → slice_index buffer.old (4 * k + i) ≡ slice_index image.now (from + 4 * k + i) }
    ensures new { (i : ℕ) → i < 4 → slice_index buffer.new (4 * k + i)
        ≡ planned_byte (plan_of kept.now image.now ctr conduit) image.now (from + 4 * k + i) }
    ensures before { (j : ℕ) → j < 4 * k → slice_index buffer.new j ≡ slice_index buffer.old j }
    ensures behind { (j : ℕ) → 4 * k + 4 ≤ j → slice_index buffer.new j ≡ slice_index buffer.old j }
{
    if stamp != 0 {
        put_word(
            buffer,
            4 * k,
            stamped_word(kept, stamp, from + 4 * k as u32, image, ctr, conduit),
        );
    }
}

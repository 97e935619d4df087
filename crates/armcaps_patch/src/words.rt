//! The words of an image, and what they become.

ghost use Rattle.std.specs.Prelude.{◌≡◌, ◌+◌, ◌*◌, ◌<◌, ◌≤◌, ◌^◌, ℕ, None, false, length, true};
ghost use Rattle.armcaps_alt.specs.Words.{ok_or_word};
ghost use Rattle.armcaps_image.specs.Bytes.{word_in};
ghost use Rattle.armcaps_insn.specs.declared.instruction_class.Class.TheVariants.{Other};
ghost use Rattle.armcaps_insn.specs.Encodings.{class_of};
ghost use Rattle.armcaps_patch.specs.Kept.{IsKept, kept_word, moved_word};

use crate::kept::Kept;
use armcaps_alt::{Conduit, callback_word};
use armcaps_image::word;
use armcaps_insn::{FixRefused, correct, takes_address};

// The new word of a kept entry's site at an index, in words from its begin.
pub(crate) fn new_word(kept: &Kept, index: u32, image: &[u8], ctr: u64, conduit: Conduit) -> u32
    requires kept { IsKept (length image.now) kept.now }
    requires size { length image.now ≤ 2 ^ 29 }
    requires index { 4 * index < kept.now.len }
    ensures { result ≡ kept_word ctr conduit image.now kept.now index }
{
    let site = kept.site as usize;
    let place = site + 4 * index as usize;
    let orig = word(image, place);
    match kept.callback {
        Some(kind) => callback_word(kind, index, ctr, conduit, word(image, site), orig),
        None => replaced(kept, index, image, orig),
    }
}

// The replacement's word at an index, moved to the site. An entry that was not refused has one.
fn replaced(kept: &Kept, index: u32, image: &[u8], orig: u32) -> u32
    requires kept { IsKept (length image.now) kept.now }
    requires replacement { kept.now.callback ≡ None }
    requires size { length image.now ≤ 2 ^ 29 }
    requires index { 4 * index < kept.now.len }
    ensures { result ≡ ok_or_word (moved_word image.now kept.now index) orig }
{
    match moved(kept, index, image) {
        Ok(word) => word,
        Err(_) => orig,
    }
}

// The replacement's word at an index, moved to the site, or why it can't move.
#[tactic(auto, using(crate::proofs::Addresses::told_moved))]
pub(crate) fn moved(kept: &Kept, index: u32, image: &[u8]) -> Result<u32, FixRefused>
    requires kept { IsKept (length image.now) kept.now }
    requires replacement { kept.now.callback ≡ None }
    requires size { length image.now ≤ 2 ^ 29 }
    requires index { 4 * index < kept.now.len }
    ensures { result ≡ moved_word image.now kept.now index }
{
    let low = kept.repl as u64;
    let from = low + 4 * index as u64;
    let word = word(image, from as usize);
    if takes_address(word) {
        let to = kept.site as u64 + 4 * index as u64;
        correct(word, from, to, low, low + kept.len as u64)
    } else {
        Ok(word)
    }
}

// Whether one of so many words takes an address from the place where it stands.
#[tactic(auto, using(crate::proofs::Addresses::plain))]
pub(crate) fn takes_addresses(image: &[u8], begin: usize, words: usize) -> bool
    requires { begin + 4 * words ≤ length image.now }
    ensures { result ≡ false
        → (index : ℕ) → index < words → class_of (word_in image.now (begin + 4 * index)) ≡ Other }
{
    let mut any = false;
    for index in 0..words {
        if takes_address(word(image, begin + 4 * index)) {
            any = true;
        }
    }
    any
}

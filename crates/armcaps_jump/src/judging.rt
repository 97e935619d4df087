//! What an entry puts at its code place, or why it is refused.

ghost use Rattle.std.specs.Prelude.{◌≡◌, ◌+◌, ◌&&◌, ◌≤◌, ◌≤ℤ◌, ◌^◌, None, Some, IfErr, IfOk, if◌then◌else◌, length, neg_ℤ, pos, true};
ghost use Rattle.armcaps_image.specs.Places.{as_place, is_aligned, is_within};
ghost use Rattle.armcaps_insn.specs.Moved.{IsPlace};
ghost use Rattle.armcaps_jump.specs.Refusals.{kind_of};
ghost use Rattle.armcaps_jump.specs.Standing.{IsSite};
ghost use Rattle.armcaps_jump.specs.Words.{does_jump, is_on, site_of, word_of};

use crate::jump_entry::JumpEntry;
use crate::site::Site;
use armcaps_image::{place_below, place_within, signed};
use armcaps_insn::{NOP, branch_word};

// The kinds of refusal, in the order in which they are asked.
const CODE: u8 = 1;

const KEY: u8 = 2;

const BRANCH: u8 = 3;

// What an entry puts at its code place, or the least kind that holds of it.
pub(crate) fn judge(entry: &JumpEntry, image: &[u8]) -> Result<Site, u8>
    requires size { length image.now ≤ 2 ^ 29 }
    requires low { neg_ℤ (pos (2 ^ 40)) ≤ℤ entry.now.target }
    requires high { entry.now.target ≤ℤ pos (2 ^ 41) }
    ensures refused { IfErr result (λ kind. kind_of image.now entry.now ≡ Some kind) }
    ensures accepted { IfOk result (λ site. kind_of image.now entry.now ≡ None) }
    ensures site { IfOk result (λ site. site ≡ site_of image.now entry.now) }
    ensures each { IfOk result (IsSite (length image.now)) }
{
    let Some(place) = code_place(entry.code, image.len()) else {
        return Err(CODE);
    };
    let Some(key) = key_place(entry.key, image.len()) else {
        return Err(KEY);
    };
    match word_of(entry, place, key, image) {
        Some(word) => Ok(Site { place, word }),
        None => Err(BRANCH),
    }
}

// The code place, if a word of an image of this size begins there.
fn code_place(code: i64, size: usize) -> Option<u32>
    requires { size ≤ 2 ^ 29 }
    ensures { result ≡ (if is_aligned code && is_within size code 4 then Some (as_place code) else None) }
{
    if code % 4 == 0 {
        place_within(size, code, 4)
    } else {
        None
    }
}

// The key's place, if the four bytes of its count lie within an image of this size.
fn key_place(key: i128, size: usize) -> Option<u32>
    requires { size ≤ 2 ^ 29 }
    ensures { result ≡ (if is_within size key 4 then Some (as_place key) else None) }
{
    match u64::try_from(key) {
        Ok(place) => place_below(size, place, 4),
        Err(_) => None,
    }
}

// The entry's word: the branch to its target, if there is one, or NOP.
fn word_of(entry: &JumpEntry, place: u32, key: u32, image: &[u8]) -> Option<u32>
    requires size { length image.now ≤ 2 ^ 29 }
    requires code { place ≡ as_place entry.now.code }
    requires place { IsPlace place }
    requires key { key ≡ as_place entry.now.key }
    requires within { key + 4 ≤ length image.now }
    requires low { neg_ℤ (pos (2 ^ 40)) ≤ℤ entry.now.target }
    requires high { entry.now.target ≤ℤ pos (2 ^ 41) }
    ensures { result ≡ word_of image.now entry.now }
{
    // asked of each entry: whether it jumps cannot be foreseen
    let branch = branch_word(u64::from(place), entry.target);
    if does_jump(entry, key, image) {
        branch
    } else {
        Some(NOP)
    }
}

// Whether the entry jumps: exactly one of its key and its branch flag is set.
fn does_jump(entry: &JumpEntry, key: u32, image: &[u8]) -> bool
    requires key { key ≡ as_place entry.now.key }
    requires within { key + 4 ≤ length image.now }
    ensures { result ≡ does_jump image.now entry.now }
{
    (signed(image, key as usize) > 0) != entry.branch
}

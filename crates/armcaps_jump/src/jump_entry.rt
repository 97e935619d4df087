ghost use Rattle.std.specs.Prelude.{◌≡◌, ◌+◌, ◌+ℤ◌, ◌*◌, ◌/◌, ◌<◌, ◌<ℤ◌, ◌≤◌, ◌≤ℤ◌, ◌^◌, length, neg_ℤ, pos};
ghost use Rattle.armcaps_image.specs.Bytes.{as_signed_quad};
ghost use Rattle.armcaps_jump.specs.Entries.{entry_at, entry_from};

use armcaps_image::{quad, signed};

/// An entry of a table of jump labels (Linux, include/linux/jump_label.h, `struct jump_entry` in its relative form).
///
/// It has sixteen bytes, little-endian: where its code is and where its target is, each in four bytes from that field's
/// own place, and in eight bytes where its key is, from that field's place, with two flags in the lowest bits.
#[derive(Clone, Copy, Debug, PartialEq, Eq)]
pub struct JumpEntry {
    /// The offset in bytes of the word that is a branch or a NOP, from the image's first byte.
    pub code: i64,
    /// The offset in bytes to which the branch goes, from the image's first byte.
    pub target: i64,
    /// The key's offset in bytes from the image's first byte.
    pub key: i128,
    /// Whether the word is a branch where the key is off, in place of where it is on (Linux, `jump_entry_is_branch`).
    pub branch: bool,
}

impl JumpEntry {
    /// The entry in the first sixteen of these bytes, which stand at `place` in the image.
    pub fn read(bytes: &[u8], place: u64) -> JumpEntry
        requires bytes { 16 ≤ length bytes.now }
        requires place { place < 2 ^ 40 }
        ensures value { result ≡ entry_from bytes.now place }
        ensures low { neg_ℤ (pos (2 ^ 40)) ≤ℤ result.target }
        ensures high { result.target ≤ℤ pos (2 ^ 41) }
    {
        let key = quad(bytes, 8);
        JumpEntry {
            code: led_to(place, signed(bytes, 0)),
            target: led_to(place + 4, signed(bytes, 4)),
            key: key_at(place + 8, key),
            branch: key % 2 == 1,
        }
    }
}

// The entry of the table that has this number.
pub(crate) fn entry_at(image: &[u8], table: u32, number: u32) -> JumpEntry
    requires size { length image.now ≤ 2 ^ 29 }
    requires within { table + 16 * number + 16 ≤ length image.now }
    ensures value { result ≡ entry_at image.now table number }
    ensures low { neg_ℤ (pos (2 ^ 40)) ≤ℤ result.target }
    ensures high { result.target ≤ℤ pos (2 ^ 41) }
{
    let place = table as usize + 16 * number as usize;
    JumpEntry::read(&image[place..], place as u64)
}

// What an offset leads to from a place.
fn led_to(place: u64, offset: i64) -> i64
    requires place { place < 2 ^ 40 + 8 }
    requires low { neg_ℤ (pos (2 ^ 31)) ≤ℤ offset }
    requires high { offset <ℤ pos (2 ^ 31) }
    ensures value { result ≡ pos place +ℤ offset }
    ensures not_before { neg_ℤ (pos (2 ^ 40)) ≤ℤ result }
    ensures not_behind { result ≤ℤ pos (2 ^ 41) }
{
    place as i64 + offset
}

// The key's place, of its field's place and the number in it.
fn key_at(place: u64, number: u64) -> i128
    requires { place < 2 ^ 40 + 8 }
    ensures { result ≡ pos place +ℤ as_signed_quad (number / 4 * 4) }
{
    i128::from(place) + i128::from(offset_of(number))
}

// The offset in a key's number: its two lowest bits are flags.
fn offset_of(number: u64) -> i64
    ensures { result ≡ as_signed_quad (number / 4 * 4) }
{
    (number / 4 * 4).cast_signed()
}

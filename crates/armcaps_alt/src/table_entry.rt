ghost use Rattle.std.specs.Prelude.{◌≡◌, ◌+◌, ◌+ℤ◌, ◌<◌, ◌<ℤ◌, ◌≤◌, ◌≤ℤ◌, ◌^◌, length, neg_ℤ, pos};
ghost use Rattle.armcaps_image.specs.Bytes.{half_in, signed_in};
ghost use Rattle.armcaps_alt.specs.Entries.{entry_from};

use armcaps_image::{half, signed};

/// An entry of the table of alternatives (Linux, arch/arm64/include/asm/alternative.h, `struct alt_instr`).
///
/// It has twelve bytes, little-endian: where its site is, where its replacement is, each in four bytes from that
/// field's own place, a number in two, and the lengths of site and replacement in one byte each.
#[derive(Clone, Copy, Debug, PartialEq, Eq)]
pub struct Entry {
    /// The site's offset in bytes from the image's first byte.
    pub site: i64,
    /// The replacement's offset in bytes from the image's first byte; of an entry with a callback, the callback's.
    pub repl: i64,
    /// The number of the capability, below 32768.
    pub number: u16,
    /// Whether a callback makes the site's words (Linux, `ARM64_CB_BIT`).
    pub callback: bool,
    /// The site's length in bytes.
    pub orig_len: u8,
    /// The replacement's length in bytes.
    pub alt_len: u8,
}

impl Entry {
    /// The entry in the first twelve of these bytes, which stand at `place` in the image.
    pub fn read(bytes: &[u8], place: u64) -> Entry
        requires bytes { 12 ≤ length bytes.now }
        requires place { place < 2 ^ 40 }
        ensures { result ≡ entry_from bytes.now place }
    {
        let number = half(bytes, 8);
        Entry {
            site: target(place, signed(bytes, 0)),
            repl: target(place + 4, signed(bytes, 4)),
            number: number % 0x8000,
            callback: number >= 0x8000,
            orig_len: bytes[10],
            alt_len: bytes[11],
        }
    }
}

// What an offset leads to from a place.
fn target(place: u64, offset: i64) -> i64
    requires place { place < 2 ^ 41 }
    requires low { neg_ℤ (pos (2 ^ 31)) ≤ℤ offset }
    requires high { offset <ℤ pos (2 ^ 31) }
    ensures { result ≡ pos place +ℤ offset }
{
    place as i64 + offset
}

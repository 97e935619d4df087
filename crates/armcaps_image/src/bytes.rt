ghost use Rattle.std.specs.Prelude.{◌≡◌, ◌+◌, ◌-◌, ◌<◌, ◌<ℤ◌, ◌≤◌, ◌≤ℤ◌, ◌^◌, ◌&&◌, ℕ, if◌then◌else◌, length, nat_le, nat_lt, neg_ℤ, pos, slice_index};
ghost use Rattle.armcaps_image.specs.Bytes.{byte_of, half_in, quad_in, signed_in, word_in};

use byteorder::{ByteOrder, LittleEndian};

/// The number in the two bytes at a place.
pub fn half(bytes: &[u8], place: usize) -> u16
    requires { place + 2 ≤ length bytes.now }
    ensures { result ≡ half_in bytes.now place }
{
    LittleEndian::read_u16(&bytes[place..])
}

/// The number in the four bytes at a place.
pub fn word(bytes: &[u8], place: usize) -> u32
    requires { place + 4 ≤ length bytes.now }
    ensures { result ≡ word_in bytes.now place }
{
    LittleEndian::read_u32(&bytes[place..])
}

/// The number in the eight bytes at a place.
pub fn quad(bytes: &[u8], place: usize) -> u64
    requires { place + 8 ≤ length bytes.now }
    ensures { result ≡ quad_in bytes.now place }
{
    LittleEndian::read_u64(&bytes[place..])
}

/// The number in the four bytes at a place, in two's complement.
pub fn signed(bytes: &[u8], place: usize) -> i64
    requires { place + 4 ≤ length bytes.now }
    ensures value { result ≡ signed_in bytes.now place }
    ensures low { neg_ℤ (pos (2 ^ 31)) ≤ℤ result }
    ensures high { result <ℤ pos (2 ^ 31) }
{
    word(bytes, place).cast_signed() as i64
}

/// Puts a word at a place. All other bytes stay.
pub fn put_word(bytes: &mut [u8], place: usize, word: u32)
    requires { place + 4 ≤ length bytes.old }
    ensures { (j : ℕ) → slice_index bytes.new j
        ≡ (if nat_le place j && nat_lt j (place + 4) then byte_of word (j - place) else slice_index bytes.old j) }
{
    bytes[place] = (word % 256) as u8;
    bytes[place + 1] = (word / 256 % 256) as u8;
    bytes[place + 2] = (word / 65536 % 256) as u8;
    bytes[place + 3] = (word / 16777216) as u8;
}

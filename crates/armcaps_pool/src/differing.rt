//! Where an image differs from its original outside the marked words.

ghost use Rattle.std.specs.Prelude.{◌≡◌, ◌<◌, ◌≤◌, ◌+◌, ◌*◌, ◌/◌, ◌^◌, ◌&&◌, false, length, nat_le};
ghost use Rattle.armcaps_image.specs.Bytes.{byte_of};
ghost use Rattle.armcaps_pool.specs.Audits.{differs_at};
ghost use Rattle.armcaps_pool.specs.Judging.{AreImages, IsFirst, differ_in, is_changed, is_marked};

use crate::marks::is_marked;
use armcaps_image::word;

// How many words of two images are compared at once.
const PIECE: usize = 32;

// The lowest byte in which two words differ; 4 where they are equal.
pub(crate) fn differing_byte(one: u32, other: u32) -> usize
    ensures { IsFirst (differ_in one other) 4 result }
{
    if one == other {
        return 4;
    }
    for index in 0..4 {
        if byte(one, index) != byte(other, index) {
            return index;
        }
    }
    4
}

// A byte of a word, counted from the lowest.
fn byte(word: u32, index: usize) -> u8
    requires { index < 4 }
    ensures { result ≡ byte_of word index }
{
    (word >> (8 * index) & 0xff) as u8
}

// The lowest byte of a word in which an image differs from its original; 4 where the word is marked, or they are equal.
fn changed_byte(marks: &[u64], patched: &[u8], image: &[u8], number: usize) -> usize
    requires same { length patched.now ≡ length image.now }
    requires within { 4 * number + 4 ≤ length image.now }
    requires marks { number / 64 < length marks.now }
    ensures { IsFirst (λ index. is_changed marks.now patched.now image.now (4 * number + index)) 4 result }
{
    let index = differing_byte(word(patched, 4 * number), word(image, 4 * number));
    if index < 4 && is_marked(marks, number) {
        4
    } else {
        index
    }
}

// The first byte of no marked word in which an image differs from its original; the size where there is none. The words
// are gone over in pieces, so that those of equal pieces are not looked at one by one.
pub(crate) fn first_changed(marks: &[u64], patched: &[u8], image: &[u8]) -> usize
    requires images { AreImages image.now patched.now }
    requires marks { length image.now / 4 ≤ 64 * length marks.now }
    requires tail { is_marked marks.now (length image.now / 4) ≡ false }
    ensures { IsFirst (is_changed marks.now patched.now image.now) (length image.now) result }
{
    let words = image.len() / 4;
    for piece in 0..words / PIECE + 1 {
        let begin = PIECE * piece;
        let end = words.min(begin + PIECE);
        let place = first_in_words(marks, patched, image, begin, end);
        if place < 4 * end {
            return place;
        }
    }
    first_in_tail(patched, image)
}

// The first byte of no marked word in which an image differs from its original, from the word `begin` on; where there
// is none before the word `end`, that word's place.
fn first_in_words(marks: &[u64], patched: &[u8], image: &[u8], begin: usize, end: usize) -> usize
    requires images { AreImages image.now patched.now }
    requires order { begin ≤ end }
    requires within { end ≤ length image.now / 4 }
    requires marks { length image.now / 4 ≤ 64 * length marks.now }
    ensures { IsFirst (λ place. nat_le (4 * begin) place && is_changed marks.now patched.now image.now place)
        (4 * end) result }
{
    if patched[4 * begin..4 * end] == image[4 * begin..4 * end] {
        return 4 * end;
    }
    for number in begin..end {
        let index = changed_byte(marks, patched, image, number);
        if index < 4 {
            return 4 * number + index;
        }
    }
    4 * end
}

// The first byte behind the last whole word in which an image differs from its original; the size where there is none.
fn first_in_tail(patched: &[u8], image: &[u8]) -> usize
    requires { length patched.now ≡ length image.now }
    ensures { IsFirst (λ place. nat_le (length image.now / 4 * 4) place && differs_at patched.now image.now place)
        (length image.now) result }
{
    for place in image.len() / 4 * 4..image.len() {
        if patched[place] != image[place] {
            return place;
        }
    }
    image.len()
}

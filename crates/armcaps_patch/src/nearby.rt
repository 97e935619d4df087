//! The numbers in neighbouring buckets.

ghost use Rattle.std.specs.Prelude.{◌≡◌, ◌<◌, ◌≤◌, length, slice_index};
ghost use Rattle.armcaps_image.specs.Buckets.{begin_of};
ghost use Rattle.armcaps_patch.specs.Buckets.{numbers_in};

use crate::buckets::Buckets;
use armcaps_image::begin_of;

// The numbers in the buckets from one to another, both included.
pub(crate) fn numbers_in(buckets: &Buckets, first: usize, last: usize) -> &[u32]
    requires first { first < length buckets.now.ends.items }
    requires last { last < length buckets.now.ends.items }
    requires order { begin_of buckets.now.ends.items first ≤ slice_index buckets.now.ends.items last }
    requires within { slice_index buckets.now.ends.items last ≤ length buckets.now.numbers.items }
    ensures { result.now ≡ numbers_in buckets.now.numbers.items buckets.now.ends.items first last }
{
    let begin = begin_of(&buckets.ends, first) as usize;
    &buckets.numbers[begin..buckets.ends[last] as usize]
}

//! The sites in one piece of an image.

ghost use Rattle.std.specs.Prelude.{◌≡◌, ◌<◌, ◌≤◌, length, slice_index};
ghost use Rattle.armcaps_image.specs.Buckets.{begin_of};
ghost use Rattle.armcaps_jump.specs.Grouping.{sites_in};

use crate::grouping::Grouped;
use crate::site::Site;
use armcaps_image::begin_of;

// The sites in the piece of this number.
pub(crate) fn sites_in(grouped: &Grouped, piece: usize) -> &[Site]
    requires piece { piece < length grouped.now.ends.items }
    requires order { begin_of grouped.now.ends.items piece ≤ slice_index grouped.now.ends.items piece }
    requires within { slice_index grouped.now.ends.items piece ≤ length grouped.now.sites.items }
    ensures { result.now ≡ sites_in grouped.now.sites.items grouped.now.ends.items piece }
{
    let begin = begin_of(&grouped.ends, piece) as usize;
    &grouped.sites[begin..grouped.ends[piece] as usize]
}

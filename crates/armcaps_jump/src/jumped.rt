//! The image with its jump labels applied, as a text that is made piece by piece.

ghost use Rattle.std.specs.Prelude.{◌≡◌, ◌+◌, ◌/◌, ◌%◌, ◌<◌, ◌≤◌, ◌^◌, ℕ, length, slice_index};
ghost use Rattle.std.specs.List.{All};
ghost use Rattle.armcaps_jump.specs.Grouping.{sites_in};
ghost use Rattle.armcaps_jump.specs.Jumped.{byte_by};
ghost use Rattle.armcaps_jump.specs.Standing.{IsInPiece};

use crate::jumps::Jumps;
use crate::site::Site;
use armcaps_image::put_word;
use armcaps_io::Pieces;

// Jump labels, and the image of which they are.
#[derive(Drop)]
pub(crate) struct Jumped<'a> {
    pub(crate) jumps: &'a Jumps,
    pub(crate) image: &'a [u8],
    ghost size: { length image.now ≡ jumps.now.size },
}

impl<'a> Pieces for Jumped<'a> {
    ghost size = { λ text. length text.image.now };

    ghost byte = { λ text place. byte_by
        (sites_in text.jumps.now.sites text.jumps.now.ends (place / 4096)) place (slice_index text.image.now place) };

    fn size(&self) -> usize {
        self.image.len()
    }

    fn fill(&self, from: usize, buffer: &mut [u8]) {
        let to = from + buffer.len();
        buffer.copy_from_slice(&self.image[from..to]);
        put_sites(buffer, from, self.jumps.nearby(from, to));
    }
}

// Puts the sites' words over the bytes of a piece that begins at a place.
fn put_sites(buffer: &mut [u8], from: usize, sites: &[Site])
    requires begins { from % 4 ≡ 0 }
    requires sites { All (IsInPiece from (from + length buffer.old)) sites.now }
    ensures { (j : ℕ) → j < length buffer.new
        → slice_index buffer.new j ≡ byte_by sites.now (from + j) (slice_index buffer.old j) }
{
    for site in sites {
        put_word(buffer, site.place as usize - from, site.word);
    }
}

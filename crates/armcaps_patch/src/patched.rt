//! The patched image as a text that is made piece by piece.

ghost use Rattle.std.specs.Prelude.{◌≡◌, length};
ghost use Rattle.armcaps_patch.specs.Kept.{planned_byte};

use crate::planning::Plan;
use armcaps_io::Pieces;

// A plan, and the image for which it was made.
#[derive(Drop)]
pub(crate) struct Patched<'a> {
    pub(crate) plan: &'a Plan,
    pub(crate) image: &'a [u8],
    ghost size: { length image.now ≡ plan.now.size },
}

impl<'a> Pieces for Patched<'a> {
    ghost size = { λ text. length text.image.now };

    ghost byte = { λ text. planned_byte text.plan.now text.image.now };

    fn size(&self) -> usize {
        self.image.len()
    }

    // A piece that no site comes near is the image's own.
    fn fill(&self, from: usize, buffer: &mut [u8]) {
        let to = from + buffer.len();
        let nearby = self.plan.nearby(from, to);
        if nearby.is_empty() {
            buffer.copy_from_slice(&self.image[from..to]);
        } else {
            let mut slots = [0u32; 1024];
            let words = buffer.len() / 4;
            self.plan
                .fill(self.image, from, nearby, buffer, &mut slots[..words]);
        }
    }
}

//! The check of an image and its table.

ghost use Rattle.std.specs.Prelude.{◌≡◌, ◌+◌, ◌*◌, ◌<◌, ◌≤◌, ◌^◌, ℕ, None, Some, Err, IfOk, length};
ghost use Rattle.armcaps_jump.specs.Refusals.{first_refusal};
ghost use Rattle.armcaps_jump.specs.Standing.{StandsFor};

use crate::grouping::by_piece;
use crate::jumps::Jumps;
use crate::refused::JumpRefused;
use std::alloc::Global;

impl Jumps {
    /// The jump labels of an image: the table at `table` has `count` entries, which are asked in their order, and the
    /// first one that is refused ends it. All memory is taken here.
    pub fn check(alloc: Global, image: &[u8], table: u32, count: u32) -> Result<Jumps, JumpRefused>
        requires { length image.now ≤ 2 ^ 29 }
        ensures stands { IfOk result (λ jumps. StandsFor jumps image.now table count) }
        ensures outside { length image.now < table + 16 * count → result ≡ Err JumpRefused.Table }
        ensures inside { result ≡ Err JumpRefused.Table → length image.now < table + 16 * count }
        ensures refused { (entry kind : ℕ) → result ≡ Err (JumpRefused.Entry entry kind)
            → first_refusal image.now table count ≡ Some (record { entry = entry; kind = kind }) }
    {
        let end = u64::from(table) + 16 * u64::from(count);
        if end > image.len() as u64 {
            return Err(JumpRefused::Table);
        }
        Ok(Jumps {
            grouped: by_piece(alloc, image, table, count)?,
            size: image.len() as u32,
        })
    }
}

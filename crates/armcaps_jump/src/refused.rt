ghost use Rattle.std.specs.Prelude.{◌≡◌};

use std::alloc::AllocError;

/// Why no jump labels are applied.
#[derive(Clone, Copy, Debug, PartialEq, Eq)]
pub enum JumpRefused {
    /// The table does not lie within the image.
    Table,
    /// This entry, the first such one by its number in the table from 0 on, is refused, for the least kind that holds
    /// of it: 1, its code is no word of the image; 2, its key does not lie within the image; 3, it jumps and no B has
    /// its target.
    Entry { entry: u32, kind: u8 },
    /// There was no memory.
    Memory,
}

impl From<AllocError> for JumpRefused {
    ghost use Rattle.armcaps_jump.specs.declared.refused.JumpRefused.TheVariants.{Memory};

    ghost from_gives = { λ _ refused. refused ≡ Memory };

    fn from(_error: AllocError) -> JumpRefused {
        JumpRefused::Memory
    }
}

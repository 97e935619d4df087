ghost use Rattle.std.specs.Prelude.{◌≡◌};

use armcaps_alt::PatchKind;
use std::alloc::AllocError;

/// Why there is no plan.
#[derive(Clone, Copy, Debug, PartialEq, Eq)]
pub enum PatchRefused {
    /// This entry, the first such one by its number in the table from 0 on, is refused, for the least kind that holds
    /// of it.
    Entry { entry: u32, kind: PatchKind },
    /// There was no memory.
    Memory,
}

impl From<AllocError> for PatchRefused {
    ghost use Rattle.armcaps_patch.specs.declared.refused.PatchRefused.TheVariants.{Memory};

    ghost from_gives = { λ _ refused. refused ≡ Memory };

    fn from(_error: AllocError) -> PatchRefused {
        PatchRefused::Memory
    }
}

ghost use Rattle.std.specs.Prelude.{◌≡◌};

use std::alloc::AllocError;

/// Why a file is refused.
#[derive(Clone, Copy, Debug, PartialEq, Eq)]
pub enum ElfRefused {
    /// This is the least kind, from 1 to 9, that holds of the file: 1 header, 2 sections, 3 outside, 4 name, 5
    /// no-table, 6 two-tables, 7 overlap, 8 span, 9 table-size.
    Kind { kind: u8 },
    /// There was no memory.
    Memory,
}

impl From<AllocError> for ElfRefused {
    ghost use Rattle.armcaps_elf.specs.declared.refused.ElfRefused.TheVariants.{Memory};

    ghost from_gives = { λ _ refused. refused ≡ Memory };

    fn from(_error: AllocError) -> ElfRefused {
        ElfRefused::Memory
    }
}

//! Why a command writes nothing.

use crate::commands::jump::LabelsRefused;
use crate::refusal::Refusal;
use armcaps_alt::PatchKind;
use armcaps_boot::Halt;
use armcaps_report::ReadRefused;

/// Why a command writes nothing, which its words and its input alone decide.
#[derive(Clone, Copy)]
pub enum Reason {
    /// The words are no form of a command.
    Usage,
    /// The input is no document.
    Refused(Refusal),
    /// A step stopped the machine.
    Panicked(Halt),
    /// A step stopped a machine of several, the first of which this is so, counted from 0.
    MachinePanicked { machine: u32, halt: Halt },
    /// This entry of the table is the first that is refused, for this kind.
    NotPatched { entry: u32, kind: PatchKind },
    /// A program reads nothing there.
    NotRead(ReadRefused),
    /// The ELF file is refused for this kind: 1 header, 2 sections, 3 outside, 4 name, 5 no-table, 6 two-tables, 7
    /// overlap, 8 span, 9 table-size, 10 table-line.
    NotElf { kind: u8 },
    /// This selected entry is the first that has a byte that isn't loaded: 11, of its site, or 12, of its replacement.
    NotLoaded { entry: u32, kind: u8 },
    /// No jump labels are applied to the patched image.
    NotJumped(LabelsRefused),
    /// The second image is not the patched one, and this byte of it is the first that differs.
    Differs { place: u64 },
}

impl Reason {
    ghost use Rattle.std.specs.Prelude.{◌≡◌};
    ghost use Rattle.armcaps_top.specs.Statuses.{reason_status};

    /// The status that the process ends with.
    pub fn status(self) -> u8
        ensures { result ≡ reason_status self }
    {
        match self {
            Reason::Usage => 2,
            Reason::Refused(_) => 3,
            Reason::Panicked(_) | Reason::MachinePanicked { .. } => 7,
            Reason::NotPatched { .. } => 8,
            Reason::NotRead(_) => 9,
            Reason::NotElf { .. } | Reason::NotLoaded { .. } => 10,
            Reason::NotJumped(_) => 11,
            Reason::Differs { .. } => 12,
        }
    }
}

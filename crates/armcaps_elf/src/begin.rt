ghost use Rattle.std.specs.Prelude.{◌≡◌};
ghost use Rattle.armcaps_elf.specs.Sections.{begin_of};

use crate::section::Section;

// Where a section begins: in memory, or in the file.
#[derive(Clone, Copy)]
pub(crate) enum Begin {
    Address,
    Place,
}

impl Begin {
    // The number at which a section begins.
    pub(crate) fn of(self, section: &Section) -> u64
        ensures { result ≡ begin_of self section.now }
    {
        match self {
            Begin::Address => section.address,
            Begin::Place => section.place,
        }
    }
}

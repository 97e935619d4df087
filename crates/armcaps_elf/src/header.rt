//! Section headers.

ghost use Rattle.std.specs.Prelude.{◌≡◌, ◌+◌, ◌≤◌, length};
ghost use Rattle.armcaps_elf.specs.Headers.{header_at, is_loaded};

use crate::fields::{long, word};
use crate::section::Section;

// A section header: where its name begins among the names (`sh_name`), its type (`sh_type`) and its flags (`sh_flags`).
#[derive(Clone, Copy, Debug)]
pub(crate) struct Header {
    pub(crate) name: u32,
    pub(crate) form: u32,
    pub(crate) flags: u64,
    pub(crate) section: Section,
}

impl Header {
    // The section header at a place of the file.
    pub(crate) fn read(file: &[u8], place: usize) -> Header
        requires { place + 64 ≤ length file.now }
        ensures { result ≡ header_at file.now place }
    {
        Header {
            name: word(file, place),
            form: word(file, place + 4),
            flags: long(file, place + 8),
            section: Section {
                address: long(file, place + 16),
                place: long(file, place + 24),
                size: long(file, place + 32),
            },
        }
    }

    // Whether the section is loaded and has bytes in the file: flag SHF_ALLOC, neither SHT_NULL nor SHT_NOBITS, not
    // empty.
    pub(crate) fn is_loaded(&self) -> bool
        ensures { result ≡ is_loaded self.now }
    {
        self.flags / 2 % 2 == 1 && self.form != 0 && self.form != 8 && self.section.size != 0
    }
}

//! The flat image of a file.

ghost use Rattle.std.specs.Prelude.{◌≡◌, ◌+◌, ◌-◌, ◌≤◌, ℕ, IfOk, if◌then◌else◌, length, slice_index};
ghost use Rattle.std.specs.List.{All, AllPairs};
ghost use Rattle.armcaps_elf.specs.Images.{byte_at, flat_image};
ghost use Rattle.armcaps_elf.specs.Sections.{Follows, holds};
ghost use Rattle.armcaps_elf.specs.Standing.{StandsFor};

use crate::elf::Elf;
use crate::section::Section;
use std::alloc::{AllocError, Global};

impl Elf {
    /// The flat image of the file that was read: the bytes of its loaded sections at their addresses from the base
    /// on, and 0 where no section is.
    pub fn flat(&self, alloc: Global, bytes: &[u8]) -> Result<Vec<u8>, AllocError>
        requires { StandsFor self.now bytes.now }
        ensures bytes { IfOk result (λ flat. flat.items ≡ flat_image bytes.now) }
        ensures span { IfOk result (λ flat. length flat.items ≡ self.now.span) }
    {
        let mut flat = vec![in alloc; 0; self.span() as usize]?;
        put_sections(&mut flat, self.base(), self.loaded(), bytes);
        Ok(flat)
    }
}

// Puts the bytes of sections, which stand in rising address, into a flat image of zeros that begins at the base.
fn put_sections(flat: &mut [u8], base: u64, sections: &[Section], file: &[u8])
    requires zeros { (j : ℕ) → slice_index flat.old j ≡ 0 }
    requires rise { AllPairs (Follows (λ section. section.address)) sections.now }
    requires above { All (λ section. base ≤ section.address) sections.now }
    requires below { All (λ section. section.address + section.size ≤ base + length flat.old) sections.now }
    requires inside { All (λ section. section.place + section.size ≤ length file.now) sections.now }
    ensures { (j : ℕ) → slice_index flat.new j ≡ byte_at sections.now file.now (base + j) }
{
    for section in sections {
        put_section(flat, base, section, file);
    }
}

// Puts a section's bytes at its address into the flat image that begins at the base.
fn put_section(flat: &mut [u8], base: u64, section: &Section, file: &[u8])
    requires above { base ≤ section.now.address }
    requires below { section.now.address + section.now.size ≤ base + length flat.old }
    requires within { section.now.place + section.now.size ≤ length file.now }
    ensures { (j : ℕ) → slice_index flat.new j ≡ (if holds (λ section. section.address) (base + j) section.now
        then slice_index file.now (section.now.place + (base + j - section.now.address)) else slice_index flat.old j) }
{
    let size = section.size as usize;
    let to = (section.address - base) as usize;
    let from = section.place as usize;
    flat[to..to + size].copy_from_slice(&file[from..from + size]);
}

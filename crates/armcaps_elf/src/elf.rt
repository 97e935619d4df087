//! What is kept of an ELF file.

ghost use Rattle.std.specs.Prelude.{◌≡◌, ◌+◌, ◌*◌, ◌<◌, ◌≤◌, ◌^◌, ℕ, List, false, true};
ghost use Rattle.std.specs.List.{All, AllPairs};
ghost use Rattle.std.specs.List.Sorted.{IsPermutation};
ghost use Rattle.armcaps_elf.specs.Headers.{sections_of};
ghost use Rattle.armcaps_elf.specs.Sections.{Follows};
ghost use Rattle.armcaps_elf.specs.Standing.{StandsFor};
ghost use Rattle.armcaps_elf.specs.Stretches.{are_loaded, is_held};

use crate::section::Section;
use crate::stretch::{Stretch, are_covered};
use std::marker::Model;

/// An ELF file of 64 bits whose loaded sections were read and checked. It keeps no byte of the file.
#[derive(Debug, Drop)]
pub struct Elf {
    pub(crate) sections: Vec<Section>,
    pub(crate) by_place: Vec<Section>,
    pub(crate) stretches: Vec<Stretch>,
    pub(crate) base: u64,
    pub(crate) span: u64,
    pub(crate) table: u32,
    pub(crate) entries: u32,
}

impl Model for Elf {
    ghost use Rattle.armcaps_elf.specs.Standing.{IsElf, Loaded};

    ghost Value = { Loaded };

    ghost view = { λ e. record {
      sections = e.sections.items;
      base = e.base;
      span = e.span;
      table = e.table;
      entries = e.entries;
    } };

    ghost invariant = { λ e. IsElf (record {
      sections = e.sections.items;
      base = e.base;
      span = e.span;
      table = e.table;
      entries = e.entries;
    }) e.by_place.items e.stretches.items };
}

impl Elf {
    /// The loaded sections in rising address. None of them shares a byte with another one, in memory or in the file.
    pub fn loaded(&self) -> &[Section]
        ensures sections { result.now ≡ self.now.sections }
        ensures some { All (λ section. 0 < section.size) result.now }
        ensures above { All (λ section. self.now.base ≤ section.address) result.now }
        ensures below { All (λ section. section.address + section.size ≤ self.now.base + self.now.span) result.now }
    {
        &self.sections
    }

    /// The flat image's first address: the least address of a loaded section, rounded down to a multiple of 4096.
    pub fn base(&self) -> u64
        ensures { result ≡ self.now.base }
    {
        self.base
    }

    /// The flat image's length: it goes from the base to the greatest end of a loaded section.
    pub fn span(&self) -> u64
        ensures span { result ≡ self.now.span }
        ensures small { result ≤ 2 ^ 27 }
    {
        self.span
    }

    /// Where the table of alternatives begins in the flat image, and how many entries of 12 bytes it has.
    pub fn table(&self) -> (u32, u32)
        ensures place { result.0 ≡ self.now.table }
        ensures entries { result.1 ≡ self.now.entries }
        ensures within { result.0 + 12 * result.1 ≤ self.now.span }
        ensures small { self.now.span ≤ 2 ^ 27 }
    {
        (self.table, self.entries)
    }

    /// Whether each of so many bytes of the flat image from a place on lies in a loaded section.
    pub fn covers(&self, start: u64, length: u64) -> bool
        requires { start + length < 2 ^ 40 }
        ensures all { result ≡ true → (n : ℕ) → start ≤ n → n < start + length
            → is_held self.now.sections (self.now.base + n) ≡ true }
        ensures some { result ≡ false → (n : ℕ) × (start ≤ n) × (n < start + length)
            × (is_held self.now.sections (self.now.base + n) ≡ false) }
        ensures loaded { (file : List ℕ) → StandsFor self.now file
            → result ≡ are_loaded (sections_of file) start length }
    {
        are_covered(&self.stretches, start, start + length)
    }

    // The loaded sections in the order of their places.
    pub(crate) fn in_file_order(&self) -> &[Section]
        ensures same { IsPermutation self.now.sections result.now }
        ensures rise { AllPairs (Follows (λ section. section.place)) result.now }
        ensures above { All (λ section. self.now.base ≤ section.address) result.now }
        ensures below { All (λ section. section.address + section.size ≤ self.now.base + self.now.span) result.now }
    {
        &self.by_place
    }
}

//! What follows from the definitions, each law as the contract of a function that does nothing.

ghost use Rattle.std.specs.Prelude.{◌≡◌, ◌≢◌, ◌+◌, ◌-◌, ◌<◌, ℕ, List, None, true, length, slice_index};
ghost use Rattle.std.specs.List.{Contains};
ghost use Rattle.armcaps_elf.specs.declared.section.Section.{Section};
ghost use Rattle.armcaps_elf.specs.Headers.{sections_of};
ghost use Rattle.armcaps_elf.specs.Images.{flat_image, flat_place, put_image};
ghost use Rattle.armcaps_elf.specs.Refusals.{kind_of};
ghost use Rattle.armcaps_elf.specs.Sections.{holds};

/// A file that isn't refused stays as it is when its own flat image is put into it.
pub fn own_image_stays()
    ensures { (file : List ℕ) → kind_of file ≡ None → put_image file (flat_image file) ≡ file }
{}

/// A byte of a file that changes when a flat image is put into it lies in a loaded section, and that image differs at
/// the byte's address from the file's own.
pub fn changed_byte_is_loaded()
    ensures { (file flat : List ℕ) (place : ℕ) → kind_of file ≡ None → place < length file
        → slice_index (put_image file flat) place ≢ slice_index file place
        → (section : Section) × Contains (sections_of file) section
        × (holds (λ s. s.place) place section ≡ true)
        × (slice_index flat (flat_place (sections_of file) section place)
        ≢ slice_index (flat_image file) (flat_place (sections_of file) section place)) }
{}

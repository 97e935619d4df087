//! Laws of machine texts.

ghost use Rattle.std.specs.Prelude.{◌≡◌, ◌≤◌, ℕ, List, None, length};
ghost use Rattle.armcaps_alt.specs.Entries.{Features};
ghost use Rattle.armcaps_alt.specs.Refusals.{first_refusal};
ghost use Rattle.armcaps_board.specs.Steps.{history};
ghost use Rattle.armcaps_boot.specs.ParkOrPanic.{halt_of};
ghost use Rattle.armcaps_generate.specs.Cores.{generated_board, generated_steps};
ghost use Rattle.armcaps_text.specs.Document.{Reading, Reads, outcome};
ghost use Rattle.armcaps_text.specs.Generator.{generated_reading};
ghost use Rattle.armcaps_generate.specs.LargeImage.{generated_image};
ghost use Rattle.armcaps_text.specs.Sound.{IsSound};

/// Of every input whose text reads: the reading is sound, and its last line ends within the input.
pub fn readings_are_sound()
    ensures sound { (input : List ℕ) (reading : Reading) (place : ℕ)
        → outcome input ≡ Reads reading place → IsSound reading }
    ensures place { (input : List ℕ) (reading : Reading) (place : ℕ)
        → outcome input ≡ Reads reading place → place ≤ length input }
{}

/// Of every machine that is generated from a number: its image is as long as its reading says, and no entry of its
/// table is refused, whatever the machine has.
pub fn generated_images_are_not_refused()
    ensures length { (seed cores : ℕ) → length (generated_image seed cores) ≡ (generated_reading seed cores).image }
    ensures none { (seed cores : ℕ) (features : Features) → features.names ≡ (generated_reading seed cores).names
        → first_refusal features (generated_image seed cores) (generated_reading seed cores).layout ≡ None }
{}

/// Of every machine that is made from a number: its reading is sound, and no step of it stops it.
pub fn generated_machines_are_sound()
    ensures sound { (seed cores : ℕ) → 1 ≤ cores → cores ≤ 64 → IsSound (generated_reading seed cores) }
    ensures up { (seed cores : ℕ) → 1 ≤ cores
        → halt_of (generated_board seed cores) (history (generated_steps cores)) ≡ None }
{}

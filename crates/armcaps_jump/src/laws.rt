//! What the definitions say whatever image and table are. These functions have nothing to do when they run: each one's
//! contract is a law.

ghost use Rattle.std.specs.Prelude.{◌≡◌, ◌<◌, ℕ, List, None, length, slice_index};
ghost use Rattle.armcaps_image.specs.Bytes.{word_in};
ghost use Rattle.armcaps_image.specs.Places.{as_place};
ghost use Rattle.armcaps_jump.specs.Entries.{entry_at};
ghost use Rattle.armcaps_jump.specs.Jumped.{jump_image};
ghost use Rattle.armcaps_jump.specs.Laws.{IsChosen, IsElsewhere, IsLastThere};
ghost use Rattle.armcaps_jump.specs.Refusals.{first_refusal};

/// Where no entry is refused, the image keeps its length, the word at each code place is the one that the last entry
/// there chooses, and every other byte is the image's.
pub fn the_last_entry_chooses()
    ensures length { (image : List ℕ) (table count : ℕ) → length (jump_image image table count) ≡ length image }
    ensures chosen { (image : List ℕ) (table count number : ℕ) → first_refusal image table count ≡ None
        → IsLastThere image table count number → IsChosen image (entry_at image table number)
        (word_in (jump_image image table count) (as_place (entry_at image table number).code)) }
    ensures others { (image : List ℕ) (table count place : ℕ) → first_refusal image table count ≡ None
        → place < length image → IsElsewhere image table count place
        → slice_index (jump_image image table count) place ≡ slice_index image place }
{}

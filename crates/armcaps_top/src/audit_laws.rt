//! What `audit` says of an input, in the words of its subject. The function has nothing to do when it runs: its
//! contract is the law.

ghost use Rattle.std.specs.Prelude.{◌≡◌, ℕ, List, Ok, drop, take};
ghost use Rattle.armcaps_alt.specs.Patched.{patched_image};
ghost use Rattle.armcaps_top.specs.Answer.{output_in};
ghost use Rattle.armcaps_top.specs.Document.{Document, document_pair};
ghost use Rattle.armcaps_top.specs.Features.{features_in};
ghost use Rattle.armcaps_top.specs.declared.commands.Command.TheVariants as command;

use armcaps_pool::differences_are_told;

/// Where `audit` writes something of an input, the second image in it is the first one, patched by what the machine has
/// once all steps are made: the two are equal, byte for byte.
pub fn audited_images_are_patched()
    ensures { (input : List ℕ) (found : Document) (text : List ℕ) → document_pair input ≡ Ok found
        → output_in command.Audit found ≡ Ok text
        → drop found.reading.image found.image
        ≡ patched_image (features_in found) (take found.reading.image found.image) found.reading.layout }
{
    differences_are_told();
}

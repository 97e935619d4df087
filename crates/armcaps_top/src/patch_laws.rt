//! What `patch` writes of an input, in the words of its subject. The function has nothing to do when it runs: its
//! contract is the law.

ghost use Rattle.std.specs.Prelude.{◌≡◌, ℕ, List, Ok};
ghost use Rattle.armcaps_alt.specs.Laws.{ReplacesSites};
ghost use Rattle.armcaps_image.specs.Bytes.{AreBytes};
ghost use Rattle.armcaps_top.specs.Answer.{output_in};
ghost use Rattle.armcaps_top.specs.Document.{Document, document};
ghost use Rattle.armcaps_top.specs.Features.{features_in};
ghost use Rattle.armcaps_top.specs.declared.commands.Command.TheVariants as command;

use armcaps_text::laws::readings_are_sound;

/// What `patch` writes of an input, and what `jump` puts its labels on, is the input's image with its sites replaced by
/// what the machine has once all steps are made: it is as long, a byte that no selected site covers is as it was, and
/// each word of a site comes from the last selected entry that covers it, as its callback makes it, or from its
/// replacement: the same word where that takes no address or jumps within its sequence, and else one with its class,
/// its other bits and its target.
pub fn patched_images_replace_sites()
    ensures { (input : List ℕ) (found : Document) (output : List ℕ) → AreBytes input → document input ≡ Ok found
        → output_in command.Patch found ≡ Ok output
        → ReplacesSites (features_in found) found.image found.reading.layout output }
{
    readings_are_sound();
}

//! What the definitions say of every document. These functions have nothing to do when they run: each one's contract is
//! the law.

ghost use Rattle.std.specs.Prelude.{◌≡◌, ◌≢◌, ◌≤◌, ℕ, ℤ, List, Some, Ok, slice_get};
ghost use Rattle.armcaps_rule.specs.Rule.{fold_of, merged};
ghost use Rattle.armcaps_enc.specs.declared.register.SysReg.{SysReg};
ghost use Rattle.armcaps_tables.specs.Core.{core_word};
ghost use Rattle.armcaps_tables.specs.Fields.{field_in, IsMadeOf};
ghost use Rattle.armcaps_tables.specs.Overriding.{override_of};
ghost use Rattle.armcaps_tables.specs.Row.{Row};
ghost use Rattle.armcaps_tables.specs.Rows.{rows_of};
ghost use Rattle.armcaps_sanit.specs.System.{field_values, system_field, system_word};
ghost use Rattle.armcaps_sanit.specs.Users.{user_field, user_word};
ghost use Rattle.armcaps_board.specs.Board.{core_at};
ghost use Rattle.armcaps_text.specs.Sound.{IsSound};
ghost use Rattle.armcaps_top.specs.Demo.{generated_document};
ghost use Rattle.armcaps_top.specs.Document.{Document, document};
ghost use Rattle.armcaps_top.specs.Answer.{admitted_in, output_in};
ghost use Rattle.armcaps_top.specs.Laws.{ChangesSites, IsLabelled};
ghost use Rattle.armcaps_top.specs.declared.commands.Command.TheVariants as Command;

use armcaps_elf::changed_byte_is_loaded;
use armcaps_jump::the_last_entry_chooses;
use armcaps_text::laws::{generated_machines_are_sound, readings_are_sound};

/// Each document that is an input is sound, and so is each that `demo` works on. Of every sound document and
/// register: each field of the system's word is its rule's value over the cores that were ever admitted, under the
/// command line's override, each field of the word that users see is what they see of that value, and every other bit
/// of both is 0. An override that is not taken, since merging it with the boot core's value gives another, leaves no
/// mark: the field is as if there were none.
#[tactic(auto, unfolding(crate::specs::Document::document))]
pub fn document_fields_hold()
    ensures inputs { (input : List ℕ) (found : Document) → document input ≡ Ok found → IsSound found.reading }
    ensures generated { (seed cores : ℕ) → 1 ≤ cores → cores ≤ 64 → IsSound (generated_document seed cores).reading }
    ensures system { (found : Document) (reg : SysReg) → IsSound found.reading
        → IsMadeOf (system_field found.reading.board.overrides (admitted_in found) reg) (rows_of reg)
        (system_word found.reading.board.overrides (admitted_in found) reg) }
    ensures users { (found : Document) (reg : SysReg) → IsSound found.reading
        → IsMadeOf (user_field found.reading.board.overrides (admitted_in found) reg) (rows_of reg)
        (user_word found.reading.board.overrides (admitted_in found) reg) }
    ensures ignored { (found : Document) (reg : SysReg) (index : ℕ) (row : Row) (value : ℤ)
        → IsSound found.reading → slice_get (rows_of reg) index ≡ Some row
        → override_of found.reading.board.overrides reg index ≡ Some value
        → merged row.rule row.safe value (field_in row (core_word
        (core_at found.reading.board.cores found.reading.board.boot) reg)) ≢ value
        → system_field found.reading.board.overrides (admitted_in found) reg index row
        ≡ fold_of row.rule row.safe (field_values (admitted_in found) reg row) }
{
    readings_are_sound();
    generated_machines_are_sound();
}

/// Where `jump` writes something of a document, that is as long as the document's patched image; the word at each
/// code place is the branch to its target where key and branch flag of the last entry there differ, and else NOP,
/// entries and keys being those of the patched image; and every other byte is the patched image's.
pub fn labels_choose_words()
    ensures { (found : Document) (table count : ℕ) (text : List ℕ)
        → output_in (Command.Jump table count) found ≡ Ok text → IsLabelled found table count text }
{
    the_last_entry_chooses();
}

/// Where `elf` writes something of a document, that is as long as the document's ELF file, and each byte of it that is
/// another than the file's lies in a loaded section, and at its address in the site of a selected entry.
pub fn changed_bytes_lie_in_sites()
    ensures { (found : Document) (text : List ℕ) → output_in Command.Elf found ≡ Ok text → ChangesSites found text }
{
    changed_byte_is_loaded();
}

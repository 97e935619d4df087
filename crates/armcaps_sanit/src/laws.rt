//! What the definitions say whatever the values are. These functions have nothing to do when they run: each one's
//! contract is a law.

ghost use Rattle.std.specs.Prelude.{◌≡◌, ◌<◌, ◌∷◌, ◌++◌, ℕ, ℤ, List, length};
ghost use Rattle.armcaps_tables.specs.Core.{Core};
ghost use Rattle.armcaps_tables.specs.Overriding.{AllFit, FieldOverrides};
ghost use Rattle.armcaps_tables.specs.Row.{Row};
ghost use Rattle.armcaps_tables.specs.Rows.{rows_of};
ghost use Rattle.armcaps_tables.specs.Fields.{word_of, IsMadeOf, ValuesFit};
ghost use Rattle.armcaps_sanit.specs.System.{IsSystemOf, merged_words, system_field, system_word};
ghost use Rattle.armcaps_sanit.specs.Users.{user_field, user_word};

use armcaps_enc::SysReg;

/// The sum of the values' bits, each at its field's place, is the one word that is made of the values. So a register's
/// word over some cores is made of each field's value over them, and the word that users see of what they see of each
/// field.
pub fn fields_make_one_word(reg: SysReg)
    ensures made { (value : ℕ → Row → ℤ) → ValuesFit value (rows_of reg)
        → IsMadeOf value (rows_of reg) (word_of value (rows_of reg)) }
    ensures only { (value : ℕ → Row → ℤ) (word : ℕ) → ValuesFit value (rows_of reg) → IsMadeOf value (rows_of reg) word
        → word ≡ word_of value (rows_of reg) }
    ensures system { (overrides : FieldOverrides) (cores : List Core) → AllFit overrides → 0 < length cores
        → IsMadeOf (system_field overrides cores reg) (rows_of reg) (system_word overrides cores reg) }
    ensures users { (overrides : FieldOverrides) (cores : List Core) → AllFit overrides → 0 < length cores
        → IsMadeOf (user_field overrides cores reg) (rows_of reg) (user_word overrides cores reg) }
{
    let _ = reg;
}

/// A core that comes to others, in whatever place it belongs among them, is merged into their words. One that is among
/// them already changes nothing. So the order in which cores come decides nothing, and a core may come again.
pub fn admission_is_one_merge()
    ensures stands { (overrides : FieldOverrides) (before after : List Core) (core : Core) (words : List ℕ)
        → IsSystemOf overrides (before ++ after) words
        → IsSystemOf overrides (before ++ core ∷ after) (merged_words words core) }
    ensures again { (overrides : FieldOverrides) (before after : List Core) (core : Core) (words : List ℕ)
        → IsSystemOf overrides (before ++ core ∷ after) words → merged_words words core ≡ words }
{}

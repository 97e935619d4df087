//! The system registers.

ghost use Rattle.std.specs.Prelude.{◌≡◌, ◌<◌, ◌∷◌, [], ◌++◌, List, Some, length, slice_get};
ghost use Rattle.std.specs.Option.{option_map};
ghost use Rattle.armcaps_tables.specs.Core.{Core, word_at};
ghost use Rattle.armcaps_tables.specs.Overriding.{FieldOverrides};
ghost use Rattle.armcaps_tables.specs.Rows.{rows_of};
ghost use Rattle.armcaps_tables.specs.Fields.{field_in, HasFieldsAlone};
ghost use Rattle.armcaps_sanit.specs.System.{IsSystemOf, merged_words, system_field, system_word};
ghost use Rattle.armcaps_sanit.specs.Users.{shown_word, user_word};

use crate::register_word::{first_words, merged_words};
use armcaps_enc::SysReg;
use armcaps_tables::{CoreRegs, Overrides, field, hidden_safe, visible_mask};
use std::marker::Model;

/// For each register the word of the values that all admitted cores keep in common, by the registers' places. It holds
/// nothing of the cores.
#[derive(Clone, Copy)]
pub struct System {
    words: [u64; 17],
}

impl Model for System {
    ghost use Rattle.std.specs.Prelude.{List, ℕ};

    ghost Value = { List ℕ };

    ghost use Rattle.armcaps_enc.specs.declared.register.SysReg.{SysReg};
    ghost use Rattle.armcaps_tables.specs.Core.{word_at};
    ghost use Rattle.armcaps_tables.specs.Rows.{rows_of};
    ghost use Rattle.armcaps_tables.specs.Fields.{HasFieldsAlone};

    ghost view = { λ system. system.words };

    ghost invariant = { λ system. (reg : SysReg) → HasFieldsAlone (rows_of reg) (word_at system.words reg) };

    ghost inverse = { λ words. record { words = words } };
}

impl System {
    /// The words of the boot core alone, under the overrides.
    pub fn new(boot: &CoreRegs, overrides: &Overrides) -> System
        ensures stands { IsSystemOf overrides.now (boot.now ∷ []) result }
    {
        overrides.sound();
        System {
            words: first_words(boot, overrides),
        }
    }

    /// Takes one more core: each field becomes the merge of its value and the core's plain value. A core that the words
    /// stand for already changes nothing.
    pub fn admit(&mut self, core: &CoreRegs)
        ensures merges { self.new ≡ merged_words self.old core.now }
        ensures stands { (overrides : FieldOverrides) (before after : List Core)
            → IsSystemOf overrides (before ++ after) self.old
            → IsSystemOf overrides (before ++ core.now ∷ after) self.new }
        ensures again { (overrides : FieldOverrides) (before after : List Core)
            → IsSystemOf overrides (before ++ core.now ∷ after) self.old → self.new ≡ self.old }
    {
        self.words = merged_words(&self.words, core);
    }

    /// A register's word: the fields at their places, and 0 in all other bits. So it is 0 for a register without
    /// fields.
    pub fn word(&self, reg: SysReg) -> u64
        ensures word { result ≡ word_at self.now reg }
        ensures stands { (overrides : FieldOverrides) (cores : List Core) → IsSystemOf overrides cores self.now
            → result ≡ system_word overrides cores reg }
        ensures others { HasFieldsAlone (rows_of reg) result }
        ensures none { rows_of reg ≡ [] → result ≡ 0 }
    {
        self.words[reg.place()]
    }

    /// A register's word as users see it: each visible field as in the register's word, each hidden field with its safe
    /// value, and 0 in all other bits (Linux, `emulate_sys_reg` and `arm64_ftr_reg_user_value`).
    pub fn user_word(&self, reg: SysReg) -> u64
        ensures word { result ≡ shown_word reg (word_at self.now reg) }
        ensures stands { (overrides : FieldOverrides) (cores : List Core) → IsSystemOf overrides cores self.now
            → result ≡ user_word overrides cores reg }
        ensures others { HasFieldsAlone (rows_of reg) result }
    {
        self.word(reg) & visible_mask(reg) | hidden_safe(reg)
    }

    /// A field's value. `index` is its place in the register's table.
    pub fn field(&self, reg: SysReg, index: usize) -> i64
        requires { index < length (rows_of reg) }
        ensures field { option_map (λ row. field_in row (word_at self.now reg)) (slice_get (rows_of reg) index)
            ≡ Some result }
        ensures stands { (overrides : FieldOverrides) (cores : List Core) → IsSystemOf overrides cores self.now
            → option_map (system_field overrides cores reg index) (slice_get (rows_of reg) index) ≡ Some result }
    {
        field(reg, index).span.value(self.word(reg))
    }
}

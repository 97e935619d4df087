//! The words of registers, put together field by field.

ghost use Rattle.std.specs.Prelude.{◌≡◌, ◌∷◌, []};
ghost use Rattle.armcaps_tables.specs.Overriding.{AllFit};
ghost use Rattle.armcaps_sanit.specs.System.{merged_words, system_word, system_words};

use crate::core_field::local;
use armcaps_enc::SysReg;
use armcaps_tables::{CoreRegs, Overrides, count, field, merge_words};

// The words of one core alone, under the overrides.
pub(crate) fn first_words(core: &CoreRegs, overrides: &Overrides) -> [u64; 17]
    requires { AllFit overrides.now }
    ensures { result ≡ system_words overrides.now (core.now ∷ []) }
{
    let mut words = [0; 17];
    for (place, reg) in SysReg::ALL.iter().enumerate() {
        words[place] = first_word(core, overrides, *reg);
    }
    words
}

// The words after one more core.
pub(crate) fn merged_words(words: &[u64; 17], core: &CoreRegs) -> [u64; 17]
    ensures { result ≡ merged_words words.now core.now }
{
    let mut merged = [0; 17];
    for (place, reg) in SysReg::ALL.iter().enumerate() {
        merged[place] = merge_words(*reg, words[reg.place()], core.get(*reg));
    }
    merged
}

// The word of a register on one core alone, under the overrides.
fn first_word(core: &CoreRegs, overrides: &Overrides, reg: SysReg) -> u64
    requires { AllFit overrides.now }
    ensures { result ≡ system_word overrides.now (core.now ∷ []) reg }
{
    let mut word = 0;
    for index in 0..count(reg) {
        let value = local(overrides, core, reg, index);
        word = field(reg, index).span.put(word, value);
    }
    word
}

//! One register's word merged with one more core's: a straight line over the register's fields.

ghost use Rattle.std.specs.Prelude.{◌≡◌, ◌+◌, ◌*◌, ◌^◌, ◌<◌, IsTrue};
ghost use Rattle.armcaps_bits.specs.Field.{IsRange, field_bits, field_fits, field_value};
ghost use Rattle.armcaps_enc.specs.declared.register.SysReg.TheVariants.{IdAa64Pfr0El1, IdAa64Pfr1El1, IdAa64Zfr0El1, IdAa64Smfr0El1, IdAa64Dfr0El1, IdAa64Isar0El1, IdAa64Isar1El1, IdAa64Isar2El1, IdAa64Mmfr0El1, IdAa64Mmfr1El1, IdAa64Mmfr2El1, IdAa64Mmfr3El1, CtrEl0, DczidEl0};
ghost use Rattle.armcaps_rule.specs.Rule.{merged};
ghost use Rattle.armcaps_tables.specs.Fields.{IsMadeOf, field_in};
ghost use Rattle.armcaps_tables.specs.Merging.{merged_word};
ghost use Rattle.armcaps_tables.specs.Rows.{rows_of};

use crate::lines::{
    ctr, dczid, field_line, id_aa64dfr0, id_aa64isar0, id_aa64isar1, id_aa64isar2, id_aa64mmfr0,
    id_aa64mmfr1, id_aa64mmfr2, id_aa64mmfr3, id_aa64pfr0, id_aa64pfr1, id_aa64smfr0, id_aa64zfr0,
};
use armcaps_bits::Bits;
use armcaps_enc::SysReg;
use armcaps_rule::{Rule, merge};

// A field's value in a word.
#[inline(always)]
fn field_in<const SHIFT: u32, const WIDTH: u32>(signed: bool, word: u64) -> i64
    requires { IsRange SHIFT WIDTH }
    ensures value { result ≡ field_value signed SHIFT WIDTH word }
    ensures fits { IsTrue (field_fits signed WIDTH result) }
{
    if signed {
        Bits::<SHIFT, WIDTH>::signed(word)
    } else {
        Bits::<SHIFT, WIDTH>::unsigned(word) as i64
    }
}

// `word` with the merge of a field of `current` and `other` in that field. `word` has no bit from the field on.
#[inline(always)]
fn merge_field<const SHIFT: u32, const WIDTH: u32>(
    word: u64,
    signed: bool,
    rule: Rule,
    safe: i64,
    current: u64,
    other: u64,
) -> u64
    requires range { IsRange SHIFT WIDTH }
    requires low { word < 2 ^ SHIFT }
    requires safe { IsTrue (field_fits signed WIDTH safe) }
    ensures sum { result ≡ word
        + field_bits WIDTH (merged rule safe (field_value signed SHIFT WIDTH current)
        (field_value signed SHIFT WIDTH other)) * 2 ^ SHIFT }
    ensures below { result < 2 ^ (SHIFT + WIDTH) }
{
    let current = field_in::<SHIFT, WIDTH>(signed, current);
    let other = field_in::<SHIFT, WIDTH>(signed, other);
    let value = merge(rule, safe, current, other);
    Bits::<SHIFT, WIDTH>::put(word, value.cast_unsigned() & Bits::<0, WIDTH>::mask())
}

// The merge of the field that a line says.
macro_rules! merge_line {
    ([$word:ident $current:ident $other:ident]
     $visible:tt $name:tt $shift:tt $width:tt $signed:tt $rule:tt $safe:literal $strict:tt) => {
        merge_field::<$shift, $width>($word, $signed, Rule::$rule, $safe, $current, $other)
    };
}

// The merge of all fields of a register, from its lowest to its highest.
macro_rules! merge_fields {
    ([$current:ident $other:ident] $($place:literal => $show:ident $line:tt,)*) => {{
        let word = 0;
        $(let word = field_line!(merge_line [word $current $other] $show $line);)*
        word
    }};
}

/// A register's word merged with one more core's: each field becomes the merge of its two values, by its rule, and all
/// other bits are 0. So the word of a register without fields is 0.
///
/// Source: Linux, arch/arm64/kernel/cpufeature.c, `update_cpu_ftr_reg`.
#[tactic(auto, using(crate::proofs::MergedWords::merged_word_made))]
pub fn merge_words(reg: SysReg, current: u64, other: u64) -> u64
    ensures word { result ≡ merged_word reg current other }
    ensures fields { IsMadeOf (λ index row. merged row.rule row.safe (field_in row current) (field_in row other))
        (rows_of reg) result }
{
    merged_by_line(reg, current, other)
}

// The same, by the straight line of each register.
#[tactic(auto, unfolding(crate::specs::Merging::merged_word))]
fn merged_by_line(reg: SysReg, current: u64, other: u64) -> u64
    ensures { result ≡ merged_word reg current other }
{
    match reg {
        SysReg::MidrEl1 | SysReg::MpidrEl1 | SysReg::RevidrEl1 => 0,
        SysReg::IdAa64Pfr0El1 => id_aa64pfr0_merged(current, other),
        SysReg::IdAa64Pfr1El1 => id_aa64pfr1_merged(current, other),
        SysReg::IdAa64Zfr0El1 => id_aa64zfr0_merged(current, other),
        SysReg::IdAa64Smfr0El1 => id_aa64smfr0_merged(current, other),
        SysReg::IdAa64Dfr0El1 => id_aa64dfr0_merged(current, other),
        SysReg::IdAa64Isar0El1 => id_aa64isar0_merged(current, other),
        SysReg::IdAa64Isar1El1 => id_aa64isar1_merged(current, other),
        SysReg::IdAa64Isar2El1 => id_aa64isar2_merged(current, other),
        SysReg::IdAa64Mmfr0El1 => id_aa64mmfr0_merged(current, other),
        SysReg::IdAa64Mmfr1El1 => id_aa64mmfr1_merged(current, other),
        SysReg::IdAa64Mmfr2El1 => id_aa64mmfr2_merged(current, other),
        SysReg::IdAa64Mmfr3El1 => id_aa64mmfr3_merged(current, other),
        SysReg::CtrEl0 => ctr_merged(current, other),
        SysReg::DczidEl0 => dczid_merged(current, other),
    }
}

#[tactic(auto, unfolding(crate::specs::Merging::merged_word, crate::specs::Rows::id_aa64pfr0_rows))]
fn id_aa64pfr0_merged(current: u64, other: u64) -> u64
    ensures { result ≡ merged_word IdAa64Pfr0El1 current other }
{
    id_aa64pfr0!(merge_fields current other)
}

#[tactic(auto, unfolding(crate::specs::Merging::merged_word, crate::specs::Rows::id_aa64pfr1_rows))]
fn id_aa64pfr1_merged(current: u64, other: u64) -> u64
    ensures { result ≡ merged_word IdAa64Pfr1El1 current other }
{
    id_aa64pfr1!(merge_fields current other)
}

#[tactic(auto, unfolding(crate::specs::Merging::merged_word, crate::specs::Rows::id_aa64zfr0_rows))]
fn id_aa64zfr0_merged(current: u64, other: u64) -> u64
    ensures { result ≡ merged_word IdAa64Zfr0El1 current other }
{
    id_aa64zfr0!(merge_fields current other)
}

#[tactic(auto, unfolding(crate::specs::Merging::merged_word, crate::specs::Rows::id_aa64smfr0_rows))]
fn id_aa64smfr0_merged(current: u64, other: u64) -> u64
    ensures { result ≡ merged_word IdAa64Smfr0El1 current other }
{
    id_aa64smfr0!(merge_fields current other)
}

#[tactic(auto, unfolding(crate::specs::Merging::merged_word, crate::specs::Rows::id_aa64dfr0_rows))]
fn id_aa64dfr0_merged(current: u64, other: u64) -> u64
    ensures { result ≡ merged_word IdAa64Dfr0El1 current other }
{
    id_aa64dfr0!(merge_fields current other)
}

#[tactic(auto, unfolding(crate::specs::Merging::merged_word, crate::specs::Rows::id_aa64isar0_rows))]
fn id_aa64isar0_merged(current: u64, other: u64) -> u64
    ensures { result ≡ merged_word IdAa64Isar0El1 current other }
{
    id_aa64isar0!(merge_fields current other)
}

#[tactic(auto, unfolding(crate::specs::Merging::merged_word, crate::specs::Rows::id_aa64isar1_rows))]
fn id_aa64isar1_merged(current: u64, other: u64) -> u64
    ensures { result ≡ merged_word IdAa64Isar1El1 current other }
{
    id_aa64isar1!(merge_fields current other)
}

#[tactic(auto, unfolding(crate::specs::Merging::merged_word, crate::specs::Rows::id_aa64isar2_rows))]
fn id_aa64isar2_merged(current: u64, other: u64) -> u64
    ensures { result ≡ merged_word IdAa64Isar2El1 current other }
{
    id_aa64isar2!(merge_fields current other)
}

#[tactic(auto, unfolding(crate::specs::Merging::merged_word, crate::specs::Rows::id_aa64mmfr0_rows))]
fn id_aa64mmfr0_merged(current: u64, other: u64) -> u64
    ensures { result ≡ merged_word IdAa64Mmfr0El1 current other }
{
    id_aa64mmfr0!(merge_fields current other)
}

#[tactic(auto, unfolding(crate::specs::Merging::merged_word, crate::specs::Rows::id_aa64mmfr1_rows))]
fn id_aa64mmfr1_merged(current: u64, other: u64) -> u64
    ensures { result ≡ merged_word IdAa64Mmfr1El1 current other }
{
    id_aa64mmfr1!(merge_fields current other)
}

#[tactic(auto, unfolding(crate::specs::Merging::merged_word, crate::specs::Rows::id_aa64mmfr2_rows))]
fn id_aa64mmfr2_merged(current: u64, other: u64) -> u64
    ensures { result ≡ merged_word IdAa64Mmfr2El1 current other }
{
    id_aa64mmfr2!(merge_fields current other)
}

#[tactic(auto, unfolding(crate::specs::Merging::merged_word, crate::specs::Rows::id_aa64mmfr3_rows))]
fn id_aa64mmfr3_merged(current: u64, other: u64) -> u64
    ensures { result ≡ merged_word IdAa64Mmfr3El1 current other }
{
    id_aa64mmfr3!(merge_fields current other)
}

#[tactic(auto, unfolding(crate::specs::Merging::merged_word, crate::specs::Rows::ctr_rows))]
fn ctr_merged(current: u64, other: u64) -> u64
    ensures { result ≡ merged_word CtrEl0 current other }
{
    ctr!(merge_fields current other)
}

#[tactic(auto, unfolding(crate::specs::Merging::merged_word, crate::specs::Rows::dczid_rows))]
fn dczid_merged(current: u64, other: u64) -> u64
    ensures { result ≡ merged_word DczidEl0 current other }
{
    dczid!(merge_fields current other)
}

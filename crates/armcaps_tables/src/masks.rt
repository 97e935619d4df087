//! The bits of a register's fields, as words.

ghost use Rattle.std.specs.Prelude.{◌≡◌, ℕ, ◌^◌, ◌<◌, ◌==◌, ◌&&◌, true, not, if◌then◌else◌, pos, bit_and, bit_or};
ghost use Rattle.std.specs.List.{list_any};
ghost use Rattle.std.specs.Ordering.{int_eq};
ghost use Rattle.armcaps_tables.specs.Fields.{field_in, word_of};
ghost use Rattle.armcaps_tables.specs.Masks.{mask_of};
ghost use Rattle.armcaps_tables.specs.Rows.{rows_of};

use crate::lines::{
    ctr, dczid, field_line, id_aa64dfr0, id_aa64isar0, id_aa64isar1, id_aa64isar2, id_aa64mmfr0,
    id_aa64mmfr1, id_aa64mmfr2, id_aa64mmfr3, id_aa64pfr0, id_aa64pfr1, id_aa64smfr0, id_aa64zfr0,
};
use armcaps_enc::SysReg;

// A word for each register, 0 for those without fields: what the macro makes of the fields' lines.
macro_rules! by_register {
    ($write:ident) => {
        [
            0, 0, 0,
            id_aa64pfr0!(joined $write),
            id_aa64pfr1!(joined $write),
            id_aa64zfr0!(joined $write),
            id_aa64smfr0!(joined $write),
            id_aa64dfr0!(joined $write),
            id_aa64isar0!(joined $write),
            id_aa64isar1!(joined $write),
            id_aa64isar2!(joined $write),
            id_aa64mmfr0!(joined $write),
            id_aa64mmfr1!(joined $write),
            id_aa64mmfr2!(joined $write),
            id_aa64mmfr3!(joined $write),
            ctr!(joined $write),
            dczid!(joined $write),
        ]
    };
}

// What a macro makes of each line, joined.
macro_rules! joined {
    ([$write:ident] $($place:literal => $show:ident $line:tt,)*) => {
        0 $(| field_line!($write [] $show $line))*
    };
}

// The bits of a range.
macro_rules! range_mask {
    ($shift:tt $width:tt) => {
        ((1 << $width) - 1) << $shift
    };
}

// The bits of a field.
macro_rules! field_mask {
    ([] $visible:tt $name:tt $shift:tt $width:tt $signed:tt $rule:tt $safe:literal $strict:tt) => {
        range_mask!($shift $width)
    };
}

// The bits of a visible field.
macro_rules! if_visible {
    ([] false $name:tt $shift:tt $width:tt $signed:tt $rule:tt $safe:literal $strict:tt) => { 0 };
    ([] true $name:tt $shift:tt $width:tt $signed:tt $rule:tt $safe:literal $strict:tt) => {
        range_mask!($shift $width)
    };
}

// The bits of a strict field.
macro_rules! if_strict {
    ([] $visible:tt $name:tt $shift:tt $width:tt $signed:tt $rule:tt $safe:literal false) => { 0 };
    ([] $visible:tt $name:tt $shift:tt $width:tt $signed:tt $rule:tt $safe:literal true) => {
        range_mask!($shift $width)
    };
}

// The bits of a hidden field's safe value.
macro_rules! safe_if_hidden {
    ([] true $name:tt $shift:tt $width:tt $signed:tt $rule:tt $safe:literal $strict:tt) => { 0 };
    ([] false $name:tt $shift:tt $width:tt $signed:tt $rule:tt $safe:literal $strict:tt) => {
        ((((1i64 << $width) + $safe) % (1i64 << $width)) as u64) << $shift
    };
}

const FIELDS: [u64; 17] = by_register!(field_mask);

const VISIBLE: [u64; 17] = by_register!(if_visible);

const STRICT: [u64; 17] = by_register!(if_strict);

const HIDDEN_SAFE: [u64; 17] = by_register!(safe_if_hidden);

/// The bits of a register's fields.
#[tactic(auto, using(crate::proofs::MaskTables::fields_at))]
pub fn fields_mask(reg: SysReg) -> u64
    ensures mask { result ≡ mask_of (λ row. true) (rows_of reg) }
    ensures keeps { (word : ℕ) → word < 2 ^ 64
        → bit_and word result ≡ word_of (λ index row. field_in row word) (rows_of reg) }
{
    FIELDS[reg.place()]
}

/// The bits of a register's fields that programs of users see (Linux, `struct arm64_ftr_reg`, `user_mask`).
#[tactic(auto, using(crate::proofs::MaskTables::visible_at))]
pub fn visible_mask(reg: SysReg) -> u64
    ensures mask { result ≡ mask_of (λ row. row.visible) (rows_of reg) }
    ensures keeps { (word : ℕ) → word < 2 ^ 64
        → bit_and word result ≡ word_of (λ index row. if row.visible then field_in row word else pos 0) (rows_of reg) }
{
    VISIBLE[reg.place()]
}

/// The bits of a register's fields that count where cores differ (Linux, `struct arm64_ftr_reg`, `strict_mask`).
#[tactic(auto, using(crate::proofs::MaskTables::strict_at))]
pub fn strict_mask(reg: SysReg) -> u64
    ensures mask { result ≡ mask_of (λ row. row.strict) (rows_of reg) }
    ensures differ { (one other : ℕ) → one < 2 ^ 64 → other < 2 ^ 64
        → not (bit_and one result == bit_and other result)
        ≡ list_any (λ row. row.strict && not (int_eq (field_in row one) (field_in row other))) (rows_of reg) }
{
    STRICT[reg.place()]
}

/// The safe values of a register's fields that programs of users don't see, each at its field's place (Linux,
/// `struct arm64_ftr_reg`, `user_val`).
#[tactic(auto, using(crate::proofs::MaskTables::hidden_safe_at))]
pub fn hidden_safe(reg: SysReg) -> u64
    ensures word { result ≡ word_of (λ index row. if row.visible then pos 0 else row.safe) (rows_of reg) }
    ensures shown { (word : ℕ) → word < 2 ^ 64
        → bit_or (bit_and word (mask_of (λ row. row.visible) (rows_of reg))) result
        ≡ word_of (λ index row. if row.visible then field_in row word else row.safe) (rows_of reg) }
{
    HIDDEN_SAFE[reg.place()]
}

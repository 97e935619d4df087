ghost use Rattle.std.specs.Prelude.{◌≡◌, ◌≢◌, ◌⊎◌, ℕ, ◌<◌, IsTrue, Some, slice_get, length};
ghost use Rattle.std.specs.Option.{option_map};
ghost use Rattle.armcaps_enc.specs.declared.register.SysReg.{SysReg};
ghost use Rattle.armcaps_tables.specs.Overriding.{AreSound, IsWhole, cut_value, no_overrides, override_fits, override_of};
ghost use Rattle.armcaps_tables.specs.Row.{Row};
ghost use Rattle.armcaps_tables.specs.Rows.{rows_of};

use crate::table::field;
use armcaps_bits::Span;
use armcaps_enc::SysReg;
use std::marker::Model;

/// Values that stand in for fields, as a command line gives them: for each field at most one. Contracts see them by the
/// register's place and the field's index.
///
/// Source: Linux, arch/arm64/include/asm/cpufeature.h, `struct arm64_ftr_override`.
#[derive(Clone, Copy)]
pub struct Overrides {
    // no register has more than 16 fields
    values: [[Option<i64>; 16]; 17],
}

impl Model for Overrides {
    ghost use Rattle.armcaps_tables.specs.Overriding.{AreSound, FieldOverrides};

    ghost Value = { FieldOverrides };

    ghost view = { λ overrides. overrides.values };

    ghost invariant = { λ overrides. AreSound overrides.values };

    ghost inverse = { λ values. record { values = values } };
}

impl Overrides {
    /// No value stands in for any field.
    pub fn none() -> Self
        ensures { result ≡ no_overrides }
    {
        Overrides {
            values: [[None; 16]; 17],
        }
    }

    /// What holds of the values whatever they are: each one is a value that its field can have.
    pub fn sound(&self)
        ensures { AreSound self.now }
    {
        let _ = &self.values;
    }

    /// Lets a value stand in for a field: `bits` cut to the field's width, and read as the field is. The other fields
    /// keep theirs.
    #[tactic(auto, using(crate::proofs::Tables::few_rows))]
    pub fn set(&mut self, reg: SysReg, index: usize, bits: u64)
        requires { index < length (rows_of reg) }
        ensures here { override_of self.new reg index
            ≡ option_map (λ row. cut_value row bits) (slice_get (rows_of reg) index) }
        ensures others { (other : SysReg) (place : ℕ) → (other ≢ reg) ⊎ (place ≢ index)
            → override_of self.new other place ≡ override_of self.old other place }
        ensures whole { IsWhole self.new }
    {
        self.values[reg.place()][index] = Some(cut_value(reg, index, bits));
    }

    /// The value that stands in for a field, if one does. The field can have it.
    #[tactic(auto, using(crate::proofs::Tables::few_rows))]
    pub fn get(&self, reg: SysReg, index: usize) -> Option<i64>
        requires { index < length (rows_of reg) }
        ensures value { result ≡ override_of self.now reg index }
        ensures fits { (row : Row) → slice_get (rows_of reg) index ≡ Some row → IsTrue (override_fits row result) }
    {
        let of_register = &self.values[reg.place()];
        of_register[index]
    }
}

// The value of a field whose bits are the low bits of `bits`.
fn cut_value(reg: SysReg, index: usize, bits: u64) -> i64
    requires { index < length (rows_of reg) }
    ensures value { option_map (λ row. cut_value row bits) (slice_get (rows_of reg) index) ≡ Some result }
    ensures fits { (row : Row) → slice_get (rows_of reg) index ≡ Some row → IsTrue (override_fits row (Some result)) }
{
    let span = field(reg, index).span;
    let low = Span {
        shift: 0,
        width: span.width,
        signed: span.signed,
    };
    low.value(bits)
}

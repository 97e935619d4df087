//! Laws of the overrides that command lines give.

ghost use Rattle.std.specs.Prelude.{◌≡◌, ℕ, List, None};
ghost use Rattle.armcaps_enc.specs.declared.register.SysReg.{SysReg};
ghost use Rattle.armcaps_enc.specs.declared.register.SysReg.TheVariants.{CtrEl0, DczidEl0};
ghost use Rattle.armcaps_tables.specs.Overriding.{AllFit, override_of};
ghost use Rattle.armcaps_cmdline.specs.Overrides.{command_line_override, command_line_overrides};

/// Of every command line: each override is a value that its row can have, and no row of CTR_EL0 or DCZID_EL0 has one.
pub fn overrides_fit()
    ensures each { (text : List ℕ) (register : SysReg) (index : ℕ)
        → override_of (command_line_overrides text) register index ≡ command_line_override text register index }
    ensures fit { (text : List ℕ) → AllFit (command_line_overrides text) }
    ensures ctr { (text : List ℕ) (index : ℕ) → command_line_override text CtrEl0 index ≡ None }
    ensures dczid { (text : List ℕ) (index : ℕ) → command_line_override text DczidEl0 index ≡ None }
{}

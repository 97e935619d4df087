//! A command line, word by word.

ghost use Rattle.std.specs.Prelude.{◌≡◌, ℕ, ◌<◌, None, length};
ghost use Rattle.std.specs.List.{flat_map};
ghost use Rattle.armcaps_enc.specs.declared.register.SysReg.{SysReg};
ghost use Rattle.armcaps_enc.specs.declared.register.SysReg.TheVariants.{CtrEl0, DczidEl0};
ghost use Rattle.armcaps_tables.specs.Overriding.{override_of};
ghost use Rattle.armcaps_tables.specs.Rows.{rows_of};
ghost use Rattle.armcaps_cmdline.specs.declared.alias.Alias.TheVariants.{NoPauth};
ghost use Rattle.armcaps_cmdline.specs.Assignments.{alias_settings, assignments_to, assignments_of};
ghost use Rattle.armcaps_cmdline.specs.Overrides.{Assigns, command_line_override, command_line_overrides};

use crate::alias::Alias;
use crate::assign::assign;
use crate::setting::Setting;
use crate::word::next_word;
use armcaps_enc::SysReg;
use armcaps_tables::Overrides;

// Sets the fields of an alias to 0.
fn turn_off(overrides: &mut Overrides, alias: Alias)
    ensures { Assigns (flat_map assignments_to (alias_settings alias)) overrides.old overrides.new }
{
    match alias {
        Alias::NoSve => assign(overrides, SysReg::IdAa64Pfr0El1, b"sve", 0),
        Alias::NoSme => assign(overrides, SysReg::IdAa64Pfr1El1, b"sme", 0),
        Alias::NoBti => assign(overrides, SysReg::IdAa64Pfr1El1, b"bt", 0),
        Alias::NoMte => assign(overrides, SysReg::IdAa64Pfr1El1, b"mte", 0),
        Alias::NoMops => assign(overrides, SysReg::IdAa64Isar2El1, b"mops", 0),
        Alias::NoPauth => turn_off_pauth(overrides),
    }
}

// Sets the fields of pointer authentication to 0.
fn turn_off_pauth(overrides: &mut Overrides)
    ensures { Assigns (flat_map assignments_to (alias_settings NoPauth)) overrides.old overrides.new }
{
    assign(overrides, SysReg::IdAa64Isar1El1, b"gpi", 0);
    assign(overrides, SysReg::IdAa64Isar1El1, b"gpa", 0);
    assign(overrides, SysReg::IdAa64Isar1El1, b"api", 0);
    assign(overrides, SysReg::IdAa64Isar1El1, b"apa", 0);
    assign(overrides, SysReg::IdAa64Isar2El1, b"gpa3", 0);
    assign(overrides, SysReg::IdAa64Isar2El1, b"apa3", 0);
}

// Writes what a word stands for.
fn assign_word(overrides: &mut Overrides, word: &[u8])
    ensures { Assigns (assignments_of word.now) overrides.old overrides.new }
{
    match Alias::named(word) {
        Some(alias) => turn_off(overrides, alias),
        None => {
            if let Some(setting) = Setting::parse(word) {
                assign(overrides, setting.register, setting.field, setting.number);
            }
        }
    }
}

/// The overrides that a kernel command line gives: for each row the last number that a word of it assigns to the row.
///
/// The line is cut into words at spaces and tabs. A word is `REG.FIELD=VALUE`, where REG is an ID register without its
/// `_el1` and VALUE decimal digits, or `0x` and hexadecimal digits of either case, below 2^64; or one of `arm64.nosve`,
/// `arm64.nosme`, `arm64.nobti`, `arm64.nomte`, `arm64.nomops` and `arm64.nopauth`, which set fields to 0. A field gets
/// the number cut to its width. Where that makes `id_aa64pfr0.sve` 0, SME and SVE's own fields get 0 as well, and where
/// it makes `id_aa64pfr1.sme` 0, SME's own fields. Any other word is passed over, and so are all from the word `--` on.
/// No row of CTR_EL0 or DCZID_EL0 gets an override.
///
/// Source: Linux, arch/arm64/kernel/idreg-override.c, for the form of the words and the aliases. The other rules are
/// this project's own.
#[tactic(auto, using(crate::proofs::RemainingWords::remains_whole, crate::proofs::RemainingWords::remains_none))]
pub fn parse(text: &[u8]) -> Overrides
    ensures value { result ≡ command_line_overrides text.now }
    ensures rows { (register : SysReg) (index : ℕ) → index < length (rows_of register)
        → override_of result register index ≡ command_line_override text.now register index }
    ensures ctr { (index : ℕ) → index < length (rows_of CtrEl0) → override_of result CtrEl0 index ≡ None }
    ensures dczid { (index : ℕ) → index < length (rows_of DczidEl0) → override_of result DczidEl0 index ≡ None }
{
    let mut overrides = Overrides::none();
    let mut rest = text;
    while let Some((word, after)) = next_word(rest) {
        assign_word(&mut overrides, word);
        rest = after;
    }
    overrides
}

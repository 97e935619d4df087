//! Words of the form REG.FIELD=VALUE.

ghost use Rattle.std.specs.Prelude.{◌≡◌, ◌==◌, Some, None, MatchOption, position};
ghost use Rattle.std.specs.List.{before_first, after_first};
ghost use Rattle.armcaps_cmdline.specs.Assignments.{register_of, setting_of};

use armcaps_enc::SysReg;
use armcaps_lex::value_of;

// The ID register that a word names without `_el1`; `None` where it names none.
#[tactic(auto, unfolding(crate::specs::Assignments::register_of))]
fn register_of(name: &[u8]) -> Option<SysReg>
    ensures { result ≡ register_of name.now }
{
    SysReg::TRACKED
        .iter()
        .copied()
        .filter(|register| register.is_id_register())
        .find(|register| register.short_name().as_bytes() == name)
}

// The place of the first byte of this value.
fn first_place(text: &[u8], wanted: u8) -> Option<usize>
    ensures { result ≡ position (λ byte. byte == wanted) text.now }
{
    text.iter().position(|byte| *byte == wanted)
}

// What stands before and after the first byte of this value; all and nothing where there is none.
#[tactic(auto, using(crate::proofs::WordParts::before_some, crate::proofs::WordParts::after_some, crate::proofs::WordParts::before_none, crate::proofs::WordParts::after_none))]
fn split_at_first(text: &[u8], wanted: u8) -> (&[u8], &[u8])
    ensures before { result.0.now ≡ before_first (λ byte. byte == wanted) text.now }
    ensures after { result.1.now ≡ after_first (λ byte. byte == wanted) text.now }
{
    match first_place(text, wanted) {
        Some(place) => (&text[..place], &text[place + 1..]),
        None => (text, &[]),
    }
}

/// A number for a field.
#[derive(Clone, Copy, Debug)]
pub(crate) struct Setting<'a> {
    /// The register that has the field.
    pub register: SysReg,
    /// The field's name, which may be none of the register's.
    pub field: &'a [u8],
    /// The number, as it is written.
    pub number: u64,
}

impl<'a> Setting<'a> {
    /// Reads a word `REG.FIELD=VALUE`; `None` where it names no register or has no value.
    pub(crate) fn parse(word: &'a [u8]) -> Option<Setting<'a>>
        ensures { MatchOption result (setting_of word.now ≡ None)
            (λ setting. setting_of word.now
            ≡ Some (record { register = setting.register; field = setting.field.now; number = setting.number })) }
    {
        let (name, value) = split_at_first(word, b'=');
        let (register, field) = split_at_first(name, b'.');
        let register = register_of(register)?;
        let number = value_of(value)?;
        Some(Setting {
            register,
            field,
            number,
        })
    }
}

// What the tokens after a line's word give.
ghost use Rattle.std.specs.Prelude.{◌≡◌, ◌==◌, ◌<◌, ◌≤◌, Ok, Err, IfOk, if◌then◌else◌};
ghost use Rattle.std.specs.List.{list_all};
ghost use Rattle.armcaps_text.specs.Tokens.{plain_tokens};
ghost use Rattle.armcaps_text.specs.declared.kind.TextKind.TheVariants as kind;
ghost use Rattle.armcaps_text.specs.Arguments.{has_count, number_among, is_name, is_given_name, is_name_byte, switch_of, conduit_of, callback_kind_of, core_argument, word_argument, lengths_argument, number_arguments, given_arguments, conduit_argument, callback_arguments, table_arguments, image_argument};

use crate::format::Format;
use crate::kind::TextKind;
use crate::number::{number_of, number_up_to};
use crate::tokens::Tokens;
use armcaps_alt::{CallbackKind, Conduit, Layout};
use armcaps_caps::of_name;

// The greatest number of an alternative.
const NUMBER_LIMIT: u32 = 32_767;

// The greatest number of the vector lengths that a core has.
const LENGTHS_LIMIT: u32 = 65_535;

// The greatest number of entries in the table of alternatives.
const ENTRY_LIMIT: u32 = 1_048_576;

// The longest name of a number that the input states.
const NAME_LIMIT: usize = 63;

// A number of at most this.
fn number_among(most: u32, token: &[u8]) -> Result<u32, TextKind>
    ensures number { result ≡ number_among most token.now }
    ensures bound { IfOk result (λ number. number ≤ most) }
{
    number_up_to(most, token).ok_or(TextKind::Number)
}

// A byte of a name that the input may give.
fn is_name_byte(byte: u8) -> bool
    ensures { result ≡ is_name_byte byte }
{
    matches!(byte, b'a'..=b'z' | b'A'..=b'Z' | b'0'..=b'9' | b'_')
}

fn are_name_bytes(token: &[u8]) -> bool
    ensures { result ≡ list_all is_name_byte token.now }
{
    token.iter().all(|byte| is_name_byte(*byte))
}

// 1 to 63 letters, digits and `_`.
fn is_name(token: &[u8]) -> bool
    ensures { result ≡ is_name token.now }
{
    !token.is_empty() && token.len() <= NAME_LIMIT && are_name_bytes(token)
}

// A name that the input may give: it is no capability's.
fn is_given_name(token: &[u8]) -> bool
    ensures { result ≡ is_given_name token.now }
{
    is_name(token) && of_name(token).is_none()
}

fn switch_of(token: &[u8]) -> Option<bool>
    ensures { result ≡ switch_of token.now }
{
    if token == b"on".as_slice() {
        Some(true)
    } else if token == b"off".as_slice() {
        Some(false)
    } else {
        None
    }
}

fn conduit_of(token: &[u8]) -> Option<Conduit>
    ensures { result ≡ conduit_of token.now }
{
    match token {
        b"hvc" => Some(Conduit::Hvc),
        b"smc" => Some(Conduit::Smc),
        b"none" => Some(Conduit::None),
        _ => None,
    }
}

fn callback_kind_of(token: &[u8]) -> Option<CallbackKind>
    ensures { result ≡ callback_kind_of token.now }
{
    if token == b"nops".as_slice() {
        Some(CallbackKind::Nops)
    } else if token == b"final_ctr".as_slice() {
        Some(CallbackKind::FinalCtr)
    } else if token == b"conduit".as_slice() {
        Some(CallbackKind::Conduit)
    } else if token == b"keep".as_slice() {
        Some(CallbackKind::Keep)
    } else {
        None
    }
}

/// What the tokens of a line give, by the form of the line; or the lowest kind of what is wrong with them.
impl Tokens<&[u8]> {
    /// That there are this many tokens.
    pub fn has_count(&self, count: usize) -> Result<(), TextKind>
        ensures { result ≡ has_count count (plain_tokens self.now) }
    {
        if self.count == count {
            Ok(())
        } else {
            Err(TextKind::Tokens)
        }
    }

    /// The number of a core.
    pub fn core(&self) -> Result<u32, TextKind>
        ensures { result ≡ core_argument (plain_tokens self.now) }
    {
        self.has_count(2)?;
        number_among(u32::MAX, self.second)
    }

    /// The word of a register.
    pub fn register_word(&self) -> Result<u64, TextKind>
        ensures { result ≡ word_argument (plain_tokens self.now) }
    {
        self.has_count(2)?;
        number_of(self.second).ok_or(TextKind::Number)
    }

    /// The vector lengths of a core.
    pub fn lengths(&self) -> Result<u16, TextKind>
        ensures { result ≡ lengths_argument (plain_tokens self.now) }
    {
        self.has_count(2)?;
        let lengths = number_among(LENGTHS_LIMIT, self.second)?;
        Ok(lengths as u16)
    }

    /// The number of an alternative and the capability that it is.
    pub fn number(&self) -> Result<(u16, u16), TextKind>
        ensures { result ≡ number_arguments (plain_tokens self.now) }
    {
        self.has_count(3)?;
        let number = number_among(NUMBER_LIMIT, self.second)?;
        let capability = of_name(self.third).ok_or(TextKind::Name)?;
        Ok((number as u16, capability))
    }

    /// The number of an alternative and whether the input states it on.
    pub fn given(&self) -> Result<(u16, bool), TextKind>
        ensures { result ≡ given_arguments (plain_tokens self.now) }
    {
        self.has_count(4)?;
        let number = number_among(NUMBER_LIMIT, self.second)?;
        if !is_given_name(self.third) {
            return Err(TextKind::Name);
        }
        let on = switch_of(self.fourth).ok_or(TextKind::Name)?;
        Ok((number as u16, on))
    }

    /// How the kernel calls the firmware.
    pub fn conduit(&self) -> Result<Conduit, TextKind>
        ensures { result ≡ conduit_argument (plain_tokens self.now) }
    {
        self.has_count(2)?;
        conduit_of(self.second).ok_or(TextKind::Name)
    }

    /// The offset of a callback and its kind.
    pub fn callback(&self, format: Format) -> Result<(u32, CallbackKind), TextKind>
        ensures { result ≡ callback_arguments format (plain_tokens self.now) }
    {
        self.has_count(3)?;
        let offset = number_among(format.image, self.second)?;
        let kind = callback_kind_of(self.third).ok_or(TextKind::Name)?;
        Ok((offset, kind))
    }

    /// Where the table of alternatives lies.
    pub fn table(&self, format: Format) -> Result<Layout, TextKind>
        ensures { result ≡ table_arguments format (plain_tokens self.now) }
    {
        self.has_count(3)?;
        let table = number_among(format.image, self.second)?;
        let count = number_among(ENTRY_LIMIT, self.third)?;
        Ok(Layout { table, count })
    }

    /// How many bytes the image has.
    pub fn image(&self, format: Format) -> Result<u32, TextKind>
        ensures { result ≡ image_argument format (plain_tokens self.now) }
    {
        self.has_count(2)?;
        number_among(format.image, self.second)
    }
}

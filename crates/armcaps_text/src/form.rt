// The forms of lines.
ghost use Rattle.std.specs.Prelude.{◌≡◌};
ghost use Rattle.armcaps_text.specs.Forms.{form_of_words, form_of_extension, form_of};

use crate::format::Format;
use armcaps_enc::SysReg;

/// What the first token of a line says that the line is.
#[derive(Clone, Copy)]
pub enum Form {
    /// `armcaps`
    Header,
    /// `core K`
    Core,
    /// The name of a register and a number.
    Register(SysReg),
    /// `sve_vl VALUE`
    VectorLengths,
    /// `boot K`
    Boot,
    /// `cmdline TEXT`
    CommandLine,
    /// `check K`
    Check,
    /// `local K`
    Local,
    /// `store K`
    Store,
    /// `online K`
    Online,
    /// `offline K`
    Offline,
    /// `finalise`
    Finalise,
    /// `number N CAP`
    Number,
    /// `given N NAME on` or `given N NAME off`
    Given,
    /// `conduit hvc`, `conduit smc` or `conduit none`
    Conduit,
    /// `callback OFFSET KIND`
    Callback,
    /// `table OFFSET COUNT`
    Table,
    /// `end`
    End,
    /// `image LENGTH`
    Image,
}

// The form that a word of both formats begins, but for the names of registers.
#[tactic(auto, unfolding(crate::specs::Forms::form_of_words))]
fn of_words(token: &[u8]) -> Option<Form>
    ensures { result ≡ form_of_words token.now }
{
    let form = if token == b"armcaps".as_slice() {
        Form::Header
    } else if token == b"core".as_slice() {
        Form::Core
    } else if token == b"boot".as_slice() {
        Form::Boot
    } else if token == b"cmdline".as_slice() {
        Form::CommandLine
    } else if token == b"check".as_slice() {
        Form::Check
    } else if token == b"local".as_slice() {
        Form::Local
    } else if token == b"store".as_slice() {
        Form::Store
    } else if token == b"online".as_slice() {
        Form::Online
    } else if token == b"finalise".as_slice() {
        Form::Finalise
    } else if token == b"number".as_slice() {
        Form::Number
    } else if token == b"given".as_slice() {
        Form::Given
    } else if token == b"conduit".as_slice() {
        Form::Conduit
    } else if token == b"callback".as_slice() {
        Form::Callback
    } else if token == b"table".as_slice() {
        Form::Table
    } else if token == b"end".as_slice() {
        Form::End
    } else if token == b"image".as_slice() {
        Form::Image
    } else {
        return None;
    };
    Some(form)
}

// The form that a word begins which format 2 has alone.
#[tactic(auto, unfolding(crate::specs::Forms::form_of_extension))]
fn of_extension(token: &[u8]) -> Option<Form>
    ensures { result ≡ form_of_extension token.now }
{
    if token == b"sve_vl".as_slice() {
        Some(Form::VectorLengths)
    } else if token == b"offline".as_slice() {
        Some(Form::Offline)
    } else {
        None
    }
}

impl Form {
    ghost use Rattle.armcaps_text.specs.Forms.{section_of_form};

    /// The form of line that a first token begins; `None` where it is no word of the format.
    pub fn of(format: Format, token: &[u8]) -> Option<Form>
        ensures { result ≡ form_of format token.now }
    {
        if let Some(form) = of_words(token) {
            Some(form)
        } else if let Some(reg) = SysReg::of_name(token) {
            Some(Form::Register(reg))
        } else if format.extended {
            of_extension(token)
        } else {
            None
        }
    }

    /// The section in which the form of line stands.
    pub fn section(self) -> u8
        ensures { result ≡ section_of_form self }
    {
        match self {
            Form::Header => 0,
            Form::Core | Form::Register(_) | Form::VectorLengths => 1,
            Form::Boot => 2,
            Form::CommandLine => 3,
            Form::Check | Form::Local | Form::Store | Form::Online => 4,
            Form::Offline | Form::Finalise => 4,
            Form::Number | Form::Given => 5,
            Form::Conduit => 6,
            Form::Callback => 7,
            Form::Table => 8,
            Form::End | Form::Image => 9,
        }
    }
}

// What a line after line 1 says.
use crate::form::Form;
use crate::format::Format;
use crate::kind::TextKind;
use crate::tokens::{Tokens, text_after_word};
use armcaps_alt::{CallbackKind, Conduit, Layout};
use armcaps_board::StepLine;
use armcaps_enc::SysReg;

/// A line after line 1.
#[derive(Clone, Copy)]
pub enum Line<T> {
    /// No token, or one that begins with `#`: the line is passed over.
    Skipped,
    /// The first token is no word of the format.
    Unknown,
    /// The line begins so, but its tokens are wrong: the lowest of the kinds that say how.
    Malformed(Form, TextKind),
    /// The line begins like line 1.
    Header,
    /// A core begins, with this number.
    Core(u32),
    /// A register of the core begun last, and its word.
    Register(SysReg, u64),
    /// The vector lengths of the core begun last.
    VectorLengths(u16),
    /// The number of the boot core.
    Boot(u32),
    /// The command line.
    CommandLine(T),
    /// A step.
    Step(StepLine),
    /// The number of an alternative, and the capability that it is.
    Number(u16, u16),
    /// The number of an alternative, and whether it is on.
    Given(u16, bool),
    /// How the kernel calls the firmware.
    Conduit(Conduit),
    /// The offset of a callback, and its kind.
    Callback(u32, CallbackKind),
    /// Where the table of alternatives lies.
    Table(Layout),
    /// The last line: how many bytes the image has.
    Image(u32),
}

impl<'a> Line<&'a [u8]> {
    ghost use Rattle.std.specs.Prelude.{◌≡◌};
    ghost use Rattle.armcaps_text.specs.Tokens.{plain_tokens};
    ghost use Rattle.armcaps_text.specs.Meaning.{plain, plain_meaning, meaning_of, line_of, section_of, is_last};

    // What a line of this form says, or what is wrong with its tokens.
    fn meaning(
        format: Format,
        form: Form,
        tokens: &Tokens<&'a [u8]>,
        line: &'a [u8],
    ) -> Result<Self, TextKind>
        ensures { plain_meaning result ≡ meaning_of format form (plain_tokens tokens.now) line.now }
    {
        let meant = match form {
            Form::Header => Line::Header,
            Form::Core => Line::Core(tokens.core()?),
            Form::Register(reg) => Line::Register(reg, tokens.register_word()?),
            Form::VectorLengths => Line::VectorLengths(tokens.lengths()?),
            Form::Boot => Line::Boot(tokens.core()?),
            Form::CommandLine => Line::CommandLine(text_after_word(line)),
            Form::Check => Line::Step(StepLine::Check(tokens.core()?)),
            Form::Local => Line::Step(StepLine::Local(tokens.core()?)),
            Form::Store => Line::Step(StepLine::Store(tokens.core()?)),
            Form::Online => Line::Step(StepLine::Online(tokens.core()?)),
            Form::Offline => Line::Step(StepLine::Offline(tokens.core()?)),
            Form::Finalise => {
                tokens.has_count(1)?;
                Line::Step(StepLine::Finalise)
            }
            Form::Number => {
                let (number, capability) = tokens.number()?;
                Line::Number(number, capability)
            }
            Form::Given => {
                let (number, on) = tokens.given()?;
                Line::Given(number, on)
            }
            Form::Conduit => Line::Conduit(tokens.conduit()?),
            Form::Callback => {
                let (offset, kind) = tokens.callback(format)?;
                Line::Callback(offset, kind)
            }
            Form::Table => Line::Table(tokens.table(format)?),
            Form::End => {
                tokens.has_count(1)?;
                Line::Image(0)
            }
            Form::Image => Line::Image(tokens.image(format)?),
        };
        Ok(meant)
    }

    /// What a line says.
    #[tactic(auto, unfolding(crate::specs::Meaning::line_of))]
    pub fn of(format: Format, line: &'a [u8]) -> Self
        ensures { plain result ≡ line_of format line.now }
    {
        let tokens = Tokens::of(line);
        if tokens.is_passed_over() {
            return Line::Skipped;
        }
        let Some(form) = Form::of(format, tokens.word) else {
            return Line::Unknown;
        };
        match Line::meaning(format, form, &tokens, line) {
            Ok(line) => line,
            Err(kind) => Line::Malformed(form, kind),
        }
    }

    /// The section in which the line stands.
    pub fn section(&self) -> u8
        ensures { result ≡ section_of (plain self.now) }
    {
        match self {
            Line::Skipped | Line::Unknown | Line::Header => 0,
            Line::Malformed(form, _) => form.section(),
            Line::Core(_) | Line::Register(_, _) | Line::VectorLengths(_) => 1,
            Line::Boot(_) => 2,
            Line::CommandLine(_) => 3,
            Line::Step(_) => 4,
            Line::Number(_, _) | Line::Given(_, _) => 5,
            Line::Conduit(_) => 6,
            Line::Callback(_, _) => 7,
            Line::Table(_) => 8,
            Line::Image(_) => 9,
        }
    }

    /// Whether the line is the last of its text.
    pub fn is_last(&self) -> bool
        ensures { result ≡ is_last (plain self.now) }
    {
        matches!(self, Line::Image(_))
    }
}

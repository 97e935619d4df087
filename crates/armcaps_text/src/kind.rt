// What can be wrong with a line of a machine text.
use std::error::Error;
use std::fmt;

/// What can be wrong with a line of a machine text, each kind with its number. Where several kinds hold at a line,
/// the lowest is reported.
#[derive(Clone, Copy, Debug, PartialEq, Eq)]
pub enum TextKind {
    /// Line 1 is neither `armcaps 1` nor `armcaps 2`.
    Header = 1,
    /// The text stops before its last line has ended.
    Unfinished,
    /// The line has not ended within the first 1,048,576 bytes, and the input goes on.
    TextTooLong,
    /// The first token of the line is no word of the format.
    UnknownLine,
    /// A second header; a section lower than an earlier line's; a second `boot`, `cmdline`, `conduit` or `table`
    /// line; a `boot` line, a register's or an `sve_vl` line before any `core` line; a line of a later section before the
    /// `boot` line.
    Order,
    /// The line has too few or too many tokens.
    Tokens,
    /// A number is malformed or out of its range.
    Number,
    /// A name is not one of those that the line takes.
    Name,
    /// A register or `sve_vl` is given twice in a core; a number or a callback's offset is named twice.
    Twice,
    /// A core's number is not the next one, or there is no such core.
    CoreNumber,
    /// There are more than 64 cores, or in format 2 more than 512.
    TooMany,
    /// A step of the boot core.
    BootStep,
    /// A step that the core cannot make now.
    Turn,
    /// The system is finalised twice, or while a core is on its way up.
    Finalise,
    /// The steps end before the system is finalised, or while a core is on its way up.
    Incomplete,
    /// The command line is longer than 2048 bytes.
    CmdlineTooLong,
    /// The table ends outside the image.
    TableOutside,
}

/// Why a machine text is not read.
#[derive(Clone, Copy, Debug, PartialEq, Eq)]
pub enum TextRefused {
    /// The first line, counted from 1, for which a kind holds, and the lowest kind that holds there.
    Line { line: u32, kind: TextKind },
    /// Memory ran out. This may come whatever the text is.
    Memory,
}

impl TextKind {
    ghost use Rattle.std.specs.Prelude.{◌≡◌};
    ghost use Rattle.armcaps_text.specs.Refusal.{kind_number, kind_word};

    /// The number by which the kind is reported.
    pub fn number(self) -> u8
        ensures { result ≡ kind_number self }
    {
        self as u8
    }

    /// The word by which the kind is reported.
    #[tactic(auto, unfolding(crate::specs::Refusal::kind_word))]
    pub fn word(self) -> &'static str
        ensures { result.now ≡ kind_word self }
    {
        match self {
            TextKind::Header => "header",
            TextKind::Unfinished => "unfinished",
            TextKind::TextTooLong => "text-too-long",
            TextKind::UnknownLine => "unknown-line",
            TextKind::Order => "order",
            TextKind::Tokens => "tokens",
            TextKind::Number => "number",
            TextKind::Name => "name",
            TextKind::Twice => "twice",
            TextKind::CoreNumber => "core-number",
            TextKind::TooMany => "too-many",
            TextKind::BootStep => "boot-step",
            TextKind::Turn => "turn",
            TextKind::Finalise => "finalise",
            TextKind::Incomplete => "incomplete",
            TextKind::CmdlineTooLong => "cmdline-too-long",
            TextKind::TableOutside => "table-outside",
        }
    }
}

impl fmt::Display for TextRefused {
    ghost use Rattle.std.specs.Prelude.{Some};
    ghost use Rattle.armcaps_text.specs.Refusal.{refusal_text};

    ghost output = { λ refused. Some (refusal_text refused) };

    #[tactic(auto, unfolding(crate::specs::Refusal::refusal_text))]
    fn fmt<W: fmt::Write>(&self, f: &mut fmt::Formatter<W>) -> fmt::Result {
        match self {
            TextRefused::Line { line, kind } => {
                let number = kind.number();
                let word = kind.word();
                write!(f, "line {line}: kind {number} {word}")
            }
            TextRefused::Memory => write!(f, "want of memory"),
        }
    }
}

impl Error for TextRefused {}

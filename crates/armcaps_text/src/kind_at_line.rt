// The kinds of refusal at a line, by what the lines before it come to: the lowest that holds is `kind_at`.
ghost use Rattle.std.specs.Prelude.{◌≡◌, ◌==◌, length, nat_lt};
ghost use Rattle.std.specs.FinMap.{contains_key};
ghost use Rattle.std.specs.List.{list_any};
ghost use Rattle.armcaps_enc.specs.Registers.{place_of};
ghost use Rattle.armcaps_text.specs.KindAtLine.{is_skipped, is_unknown, is_second_header, has_one_line, is_in_passed_section, is_form_of_core, tells_of_core, lacks_core, lacks_boot, is_out_of_order, has_wrong_count, has_wrong_number, has_wrong_name, is_twice, has_wrong_core_number, is_one_core_too_many, is_boot_step, is_out_of_turn, is_untimely, is_incomplete, is_command_line_too_long, is_table_outside, kind_after};
ghost use Rattle.armcaps_text.specs.Meaning.{plain};
ghost use Rattle.armcaps_text.specs.Reader.{so_far};

use crate::form::Form;
use crate::format::Format;
use crate::kind::TextKind;
use crate::line::Line;
use crate::reader::Reader;
use armcaps_enc::SysReg;

// A command line has at most this many bytes.
const COMMAND_LINE_LIMIT: usize = 2048;

// An entry of the table of alternatives has this many bytes.
const ENTRY_LENGTH: u64 = 12;

fn has_one_line(section: u8) -> bool
    ensures { result ≡ has_one_line section }
{
    matches!(section, 2 | 3 | 6 | 8)
}

fn is_form_of_core(form: Form) -> bool
    ensures { result ≡ is_form_of_core form }
{
    matches!(form, Form::Register(_) | Form::VectorLengths)
}

impl Line<&[u8]> {
    fn is_skipped(&self) -> bool
        ensures { result ≡ is_skipped (plain self.now) }
    {
        matches!(self, Line::Skipped)
    }

    fn is_unknown(&self) -> bool
        ensures { result ≡ is_unknown (plain self.now) }
    {
        matches!(self, Line::Unknown)
    }

    fn is_second_header(&self) -> bool
        ensures { result ≡ is_second_header (plain self.now) }
    {
        matches!(self, Line::Header)
    }

    // Whether the line tells of the core begun last.
    fn tells_of_core(&self) -> bool
        ensures { result ≡ tells_of_core (plain self.now) }
    {
        match self {
            Line::Register(_, _) | Line::VectorLengths(_) => true,
            Line::Malformed(form, _) => is_form_of_core(*form),
            _ => false,
        }
    }

    fn has_wrong_count(&self) -> bool
        ensures { result ≡ has_wrong_count (plain self.now) }
    {
        matches!(self, Line::Malformed(_, TextKind::Tokens))
    }

    fn has_wrong_number(&self) -> bool
        ensures { result ≡ has_wrong_number (plain self.now) }
    {
        matches!(self, Line::Malformed(_, TextKind::Number))
    }

    fn has_wrong_name(&self) -> bool
        ensures { result ≡ has_wrong_name (plain self.now) }
    {
        matches!(self, Line::Malformed(_, TextKind::Name))
    }

    fn is_command_line_too_long(&self) -> bool
        ensures { result ≡ is_command_line_too_long (plain self.now) }
    {
        match self {
            Line::CommandLine(text) => text.len() > COMMAND_LINE_LIMIT,
            _ => false,
        }
    }
}

impl Reader<'_> {
    // Whether the core begun last has a line for the register.
    fn has_named(&self, reg: SysReg) -> bool
        ensures { result ≡ list_any (λ other. place_of other == place_of reg) (so_far self.now).named }
    {
        self.named.iter().any(|other| other.place() == reg.place())
    }

    #[tactic(auto, using(crate::proofs::Maps::looked_up))]
    fn has_number(&self, number: u16) -> bool
        ensures { result ≡ contains_key (so_far self.now).numbers number }
    {
        self.numbers.contains_key(&number)
    }

    #[tactic(auto, using(crate::proofs::Maps::looked_up))]
    fn has_callback(&self, offset: u32) -> bool
        ensures { result ≡ contains_key (so_far self.now).callbacks offset }
    {
        self.callbacks.contains_key(&offset)
    }

    // Whether the core has begun.
    fn has_core(&self, core: u32) -> bool
        ensures { result ≡ nat_lt core (length (so_far self.now).cores) }
    {
        (core as usize) < self.cores.len()
    }

    fn is_in_passed_section(&self, line: &Line<&[u8]>) -> bool
        ensures { result ≡ is_in_passed_section (so_far self.now) (plain line.now) }
    {
        let section = line.section();
        section < self.section || (has_one_line(section) && section == self.section)
    }

    fn lacks_core(&self, line: &Line<&[u8]>) -> bool
        ensures { result ≡ lacks_core (so_far self.now) (plain line.now) }
    {
        self.cores.is_empty() && (line.tells_of_core() || line.section() == 2)
    }

    fn lacks_boot(&self, line: &Line<&[u8]>) -> bool
        ensures { result ≡ lacks_boot (so_far self.now) (plain line.now) }
    {
        line.section() > 2 && self.boot.is_none()
    }

    fn is_out_of_order(&self, line: &Line<&[u8]>) -> bool
        ensures { result ≡ is_out_of_order (so_far self.now) (plain line.now) }
    {
        line.is_second_header()
            || self.is_in_passed_section(line)
            || self.lacks_core(line)
            || self.lacks_boot(line)
    }

    fn is_twice(&self, line: &Line<&[u8]>) -> bool
        ensures { result ≡ is_twice (so_far self.now) (plain line.now) }
    {
        match line {
            Line::Register(reg, _) => self.has_named(*reg),
            Line::VectorLengths(_) => self.measured,
            Line::Number(number, _) | Line::Given(number, _) => self.has_number(*number),
            Line::Callback(offset, _) => self.has_callback(*offset),
            _ => false,
        }
    }

    fn has_wrong_core_number(&self, line: &Line<&[u8]>) -> bool
        ensures { result ≡ has_wrong_core_number (so_far self.now) (plain line.now) }
    {
        match line {
            Line::Core(core) => *core as usize != self.cores.len(),
            Line::Boot(core) => !self.has_core(*core),
            Line::Step(step) => match step.first_event().core() {
                Some(core) => !self.has_core(core),
                None => false,
            },
            _ => false,
        }
    }

    fn is_one_core_too_many(&self, format: Format, line: &Line<&[u8]>) -> bool
        ensures { result ≡ is_one_core_too_many format (so_far self.now) (plain line.now) }
    {
        match line {
            Line::Core(_) => self.cores.len() >= format.cores as usize,
            _ => false,
        }
    }

    fn is_boot_step(&self, line: &Line<&[u8]>) -> bool
        ensures { result ≡ is_boot_step (so_far self.now) (plain line.now) }
    {
        match line {
            Line::Step(step) => match (step.first_event().core(), self.boot) {
                (Some(core), Some(boot)) => core == boot,
                _ => false,
            },
            _ => false,
        }
    }

    fn is_out_of_turn(&self, line: &Line<&[u8]>) -> bool
        ensures { result ≡ is_out_of_turn (so_far self.now) (plain line.now) }
    {
        match line {
            Line::Step(step) => !self.steps.is_in_turn(step.first_event()),
            _ => false,
        }
    }

    fn is_untimely(&self, line: &Line<&[u8]>) -> bool
        ensures { result ≡ is_untimely (so_far self.now) (plain line.now) }
    {
        match line {
            Line::Step(step) => self.steps.is_wrong_finalise(step.first_event()),
            _ => false,
        }
    }

    fn is_incomplete(&self, line: &Line<&[u8]>) -> bool
        ensures { result ≡ is_incomplete (so_far self.now) (plain line.now) }
    {
        line.section() > 4 && !self.steps.is_complete()
    }

    fn is_table_outside(&self, line: &Line<&[u8]>) -> bool
        ensures { result ≡ is_table_outside (so_far self.now) (plain line.now) }
    {
        match (line, self.layout) {
            (Line::Image(length), Some(layout)) => {
                let end = u64::from(layout.table) + ENTRY_LENGTH * u64::from(layout.count);
                u64::from(*length) < end
            }
            _ => false,
        }
    }

    /// The lowest kind that holds at a line after line 1.
    #[tactic(auto, unfolding(crate::specs::KindAtLine::kind_after))]
    pub fn kind_at(&self, format: Format, line: &Line<&[u8]>) -> Option<TextKind>
        ensures { result ≡ kind_after format (so_far self.now) (plain line.now) }
    {
        if line.is_skipped() {
            None
        } else if line.is_unknown() {
            Some(TextKind::UnknownLine)
        } else if self.is_out_of_order(line) {
            Some(TextKind::Order)
        } else if line.has_wrong_count() {
            Some(TextKind::Tokens)
        } else if line.has_wrong_number() {
            Some(TextKind::Number)
        } else if line.has_wrong_name() {
            Some(TextKind::Name)
        } else if self.is_twice(line) {
            Some(TextKind::Twice)
        } else if self.has_wrong_core_number(line) {
            Some(TextKind::CoreNumber)
        } else if self.is_one_core_too_many(format, line) {
            Some(TextKind::TooMany)
        } else if self.is_boot_step(line) {
            Some(TextKind::BootStep)
        } else if self.is_out_of_turn(line) {
            Some(TextKind::Turn)
        } else if self.is_untimely(line) {
            Some(TextKind::Finalise)
        } else if self.is_incomplete(line) {
            Some(TextKind::Incomplete)
        } else if line.is_command_line_too_long() {
            Some(TextKind::CmdlineTooLong)
        } else if self.is_table_outside(line) {
            Some(TextKind::TableOutside)
        } else {
            None
        }
    }
}

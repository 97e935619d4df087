// A machine, and the text that says what it is.
ghost use Rattle.std.specs.Prelude.{◌≡◌, ℕ, ◌+◌, ◌≤◌, List, IfOk, IfErr, length};
ghost use Rattle.armcaps_text.specs.Document.{Reads, IsRefusal, outcome, outcome_after, reading_of, unended_kind};
ghost use Rattle.armcaps_text.specs.Lines.{ended_lines};
ghost use Rattle.armcaps_text.specs.Sound.{IsSound};

use crate::format::Format;
use crate::kind::{TextKind, TextRefused};
use crate::line::Line;
use crate::lines::{TEXT_LIMIT, first_mebibyte, next_line};
use crate::reader::Reader;
use armcaps_alt::{Conduit, Layout, Names};
use armcaps_board::{Board, StepLine};
use std::alloc::Global;

/// A machine, as a text says it.
#[derive(Drop)]
pub struct Machine {
    /// The cores in the order of their numbers, the boot core, and the overrides that the command line gives.
    pub board: Board,
    /// The steps in the order of the text.
    pub steps: Vec<StepLine>,
    /// What the numbers and callbacks of the table of alternatives stand for.
    pub names: Names,
    /// Where the table of alternatives lies in the image.
    pub layout: Layout,
    /// How many bytes the image has.
    pub image: u32,
}

// The kind of a line that has not ended.
fn unended_kind(bytes: &[u8]) -> TextKind
    ensures { result ≡ unended_kind bytes.now }
{
    if bytes.len() > TEXT_LIMIT {
        TextKind::TextTooLong
    } else {
        TextKind::Unfinished
    }
}

// Reads the lines of a text after line 1, and says how many bytes they take. Where no line of them is the last, a
// line that has not ended is refused by this kind.
fn read_lines(
    alloc: Global,
    format: Format,
    text: &[u8],
    unended: TextKind,
) -> Result<(Machine, usize), TextRefused>
    requires length { length text.now ≤ 1_048_576 }
    ensures reads { IfOk result (λ read. (header : List ℕ)
        → outcome_after unended header (ended_lines text.now) format
        ≡ Reads (reading_of read.0) (length header + 1 + read.1)) }
    ensures place { IfOk result (λ read. read.1 ≤ length text.now) }
    ensures refuses { IfErr result (λ refused. (header : List ℕ)
        → IsRefusal (outcome_after unended header (ended_lines text.now) format) refused) }
{
    let mut reader = Reader::new(alloc);
    let mut lines = 0;
    let mut rest = text;
    while let Some((line, after)) = next_line(rest) {
        let line = Line::of(format, line);
        reader.take(format, lines, &line)?;
        if line.is_last() {
            return match reader.machine(alloc) {
                Ok(machine) => Ok((machine, text.len() - after.len())),
                Err(_) => Err(TextRefused::Memory),
            };
        }
        lines += 1;
        rest = after;
    }
    Err(TextRefused::Line {
        line: lines + 2,
        kind: unended,
    })
}

impl Machine {
    /// Reads the machine text at the beginning of the bytes, and says how many of them it takes. What follows its
    /// last line is not looked at, but that it is there decides whether a text that does not end is cut off or too
    /// long. A text is refused at the first line where some kind holds, with the lowest kind there. Memory may run
    /// out on any text. What is read is sound: the boot core is one of the cores, the steps are in order and
    /// complete, no override is of a row of CTR_EL0, and the table of alternatives lies in the image.
    ///
    /// # Errors
    ///
    /// `TextRefused::Line` where the text is refused, and `TextRefused::Memory` where there is no memory.
    ///
    /// # Examples
    ///
    /// ```
    /// let text = "armcaps 1\ncore 0\nid_aa64isar0_el1 0x11120\nboot 0\nfinalise\nend\n";
    /// let (machine, place) = Machine::read(rt.alloc(), text.as_bytes())?;
    /// assert_eq!(rt; place, text.len());
    /// assert_eq!(rt; machine.board.cores[0].get(SysReg::IdAa64Isar0El1), 0x11120);
    /// assert_eq!(rt; machine.image, 0);
    /// ```
    #[tactic(auto, unfolding(crate::specs::Document::outcome))]
    pub fn read(alloc: Global, bytes: &[u8]) -> Result<(Machine, usize), TextRefused>
        ensures reads { IfOk result (λ read. outcome bytes.now ≡ Reads (reading_of read.0) read.1) }
        ensures place { IfOk result (λ read. read.1 ≤ length bytes.now) }
        ensures sound { IfOk result (λ read. IsSound (reading_of read.0)) }
        ensures refuses { IfErr result (λ refused. IsRefusal (outcome bytes.now) refused) }
    {
        let unended = unended_kind(bytes);
        let Some((header, rest)) = next_line(first_mebibyte(bytes)) else {
            return Err(TextRefused::Line {
                line: 1,
                kind: unended,
            });
        };
        let Some(format) = Format::named(header) else {
            return Err(TextRefused::Line {
                line: 1,
                kind: TextKind::Header,
            });
        };
        let (machine, taken) = read_lines(alloc, format, rest, unended)?;
        Ok((machine, header.len() + 1 + taken))
    }
}

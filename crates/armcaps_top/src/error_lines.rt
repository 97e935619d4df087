//! The line of an ending on the error stream. Nothing is allocated.

ghost use Rattle.std.specs.Prelude.{◌≡◌, ◌++◌, codes};
ghost use Rattle.std.specs.Fmt.{decimal};
ghost use Rattle.armcaps_report.specs.Extending.{Extends};
ghost use Rattle.armcaps_report.specs.Texts.{cause_text};
ghost use Rattle.armcaps_report.specs.UserReads.{read_refused_text};
ghost use Rattle.armcaps_top.specs.ErrorLines.{Tells, elf_entry_text, elf_kind_text, ending_line, ending_text, entry_text, halt_text, label_kind_word, labels_refused_text, reason_text};

use crate::commands::elf::elf_word;
use crate::commands::jump::LabelsRefused;
use crate::ending::Ending;
use crate::reason::Reason;
use crate::refusing::push_refusal;
use armcaps_alt::PatchKind;
use armcaps_boot::{Cause, Halt};
use armcaps_io::{Sink, write_whole};
use armcaps_report::{
    ReadRefused, Text, push_after, push_between, push_cause, push_kind, push_read_refused,
};
use arrayvec::ArrayString;

/// Writes the line of an ending to the error stream, and nothing where the run is done. A fault there changes no
/// status.
pub fn tell<E: Sink>(err: &mut E, ending: Ending)
    ensures { Tells ending (E.held err.old) (E.held err.new) (E.faults err.old) (E.faults err.new) }
{
    if let Ending::Done = ending {
        return;
    }
    let _ = write_whole(err, line_of(ending).as_bytes());
}

// The line of an ending. No line is longer than the buffer.
fn line_of(ending: Ending) -> ArrayString<320>
    ensures { result.bytes ≡ ending_line ending }
{
    let mut line = ArrayString::<320>::new();
    let _ = push_line(&mut line, ending);
    line
}

// Adds the line of an ending.
fn push_line<T: Text>(text: &mut T, ending: Ending) -> Result<(), T::Error>
    ensures { Extends result T.refused_from (T.bytes text.old) (T.bytes text.new) (ending_line ending) }
{
    text.append("armcaps: ")?;
    push_ending(text, ending)?;
    text.append("\n")
}

// Adds an ending's text.
#[tactic(auto, unfolding(crate::specs::ErrorLines::ending_text))]
fn push_ending<T: Text>(text: &mut T, ending: Ending) -> Result<(), T::Error>
    ensures { Extends result T.refused_from (T.bytes text.old) (T.bytes text.new) (ending_text ending) }
{
    match ending {
        Ending::Done => text.append(""),
        Ending::ReadFault => text.append("read fault"),
        Ending::WriteFault => text.append("write fault"),
        Ending::Memory => text.append("want of memory"),
        Ending::NoOutput(reason) => push_reason(text, reason),
    }
}

// Adds a reason.
#[tactic(auto, unfolding(crate::specs::ErrorLines::reason_text))]
fn push_reason<T: Text>(text: &mut T, reason: Reason) -> Result<(), T::Error>
    ensures { Extends result T.refused_from (T.bytes text.old) (T.bytes text.new) (reason_text reason) }
{
    match reason {
        Reason::Usage => text.append(
            "usage: armcaps report | patch | mrs CORE WORD | demo SEED CORES | trace | elf | jump OFFSET COUNT \
            | pool | audit",
        ),
        Reason::Refused(refusal) => push_refusal(text, refusal),
        Reason::Panicked(halt) => push_panic(text, halt),
        Reason::MachinePanicked { machine, halt } => push_machine_panic(text, machine, halt),
        Reason::NotPatched { entry, kind } => push_not_patched(text, entry, kind),
        Reason::NotRead(unread) => push_not_read(text, unread),
        Reason::NotElf { kind } => push_not_elf(text, kind),
        Reason::NotLoaded { entry, kind } => push_not_loaded(text, entry, kind),
        Reason::NotJumped(refused) => push_not_jumped(text, refused),
        Reason::Differs { place } => push_after(text, "audit: byte ", place),
    }
}

// Adds what stopped a machine, as a panic.
#[tactic(auto, unfolding(crate::specs::ErrorLines::halt_text))]
fn push_panic<T: Text>(text: &mut T, halt: Halt) -> Result<(), T::Error>
    ensures { Extends result T.refused_from (T.bytes text.old) (T.bytes text.new) (codes "panic: " ++ halt_text halt) }
{
    push_stop(text, "panic: core ", halt.core, halt.cause)
}

// Adds which of several machines was stopped, and what stopped it.
fn push_machine_panic<T: Text>(text: &mut T, machine: u32, halt: Halt) -> Result<(), T::Error>
    ensures { Extends result T.refused_from (T.bytes text.old) (T.bytes text.new)
        (codes "machine " ++ decimal machine ++ codes ": panic: " ++ halt_text halt) }
{
    push_between(text, "machine ", u64::from(machine), ": ")?;
    push_panic(text, halt)
}

// Adds which entry of a table is refused, and why.
#[tactic(auto, unfolding(crate::specs::ErrorLines::entry_text))]
fn push_not_patched<T: Text>(text: &mut T, entry: u32, kind: PatchKind) -> Result<(), T::Error>
    ensures { Extends result T.refused_from (T.bytes text.old) (T.bytes text.new)
        (codes "patch: " ++ entry_text entry kind) }
{
    push_kind(text, "patch: entry ", entry, kind.number(), kind.word())
}

// Adds why an ELF file is refused.
#[tactic(auto, unfolding(crate::specs::ErrorLines::elf_kind_text))]
fn push_not_elf<T: Text>(text: &mut T, kind: u8) -> Result<(), T::Error>
    ensures { Extends result T.refused_from (T.bytes text.old) (T.bytes text.new)
        (codes "elf: " ++ elf_kind_text kind) }
{
    push_between(text, "elf: kind ", u64::from(kind), " ")?;
    text.append(elf_word(kind))
}

// Adds which entry of an ELF file isn't loaded, and why.
#[tactic(auto, unfolding(crate::specs::ErrorLines::elf_entry_text, crate::specs::ErrorLines::elf_kind_text))]
fn push_not_loaded<T: Text>(text: &mut T, entry: u32, kind: u8) -> Result<(), T::Error>
    ensures { Extends result T.refused_from (T.bytes text.old) (T.bytes text.new)
        (codes "elf: " ++ elf_entry_text entry kind) }
{
    push_kind(text, "elf: entry ", entry, kind, elf_word(kind))
}

// Adds why there is no image with jump labels.
fn push_not_jumped<T: Text>(text: &mut T, refused: LabelsRefused) -> Result<(), T::Error>
    ensures { Extends result T.refused_from (T.bytes text.old) (T.bytes text.new)
        (codes "jump: " ++ labels_refused_text refused) }
{
    text.append("jump: ")?;
    push_labels_refused(text, refused)
}

// Adds why no jump labels are applied.
#[tactic(auto, unfolding(crate::specs::ErrorLines::labels_refused_text))]
fn push_labels_refused<T: Text>(text: &mut T, refused: LabelsRefused) -> Result<(), T::Error>
    ensures { Extends result T.refused_from (T.bytes text.old) (T.bytes text.new) (labels_refused_text refused) }
{
    match refused {
        LabelsRefused::TableOutside => text.append("table outside"),
        LabelsRefused::Entry { entry, kind } => {
            push_kind(text, "entry ", entry, kind, label_kind_word(kind))
        }
    }
}

// The word of a kind of refused jump label.
fn label_kind_word(kind: u8) -> &'static str
    ensures { result.now ≡ label_kind_word kind }
{
    if kind == 1 {
        "code"
    } else if kind == 2 {
        "key"
    } else {
        "branch"
    }
}

// Adds why `mrs` reads nothing.
fn push_not_read<T: Text>(text: &mut T, unread: ReadRefused) -> Result<(), T::Error>
    ensures { Extends result T.refused_from (T.bytes text.old) (T.bytes text.new)
        (codes "mrs: " ++ read_refused_text unread) }
{
    text.append("mrs: ")?;
    push_read_refused(text, unread)
}

// Adds a core that stops a machine, behind a text, and its cause.
fn push_stop<T: Text>(text: &mut T, before: &str, core: u32, cause: Cause) -> Result<(), T::Error>
    ensures { Extends result T.refused_from (T.bytes text.old) (T.bytes text.new)
        (before.now ++ decimal core ++ codes ": " ++ cause_text cause) }
{
    push_between(text, before, u64::from(core), ": ")?;
    push_cause(text, cause)
}

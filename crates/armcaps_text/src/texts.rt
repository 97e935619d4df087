//! Machine texts that stand one after the other.

ghost use Rattle.std.specs.Prelude.{◌≡◌, ◌<◌, ◌≤◌, IfOk, IfErr, Ok, drop, length, map};
ghost use Rattle.std.specs.List.{All};
ghost use Rattle.armcaps_text.specs.Document.{Reads, outcome, reading_of};
ghost use Rattle.armcaps_text.specs.Sound.{IsSound};
ghost use Rattle.armcaps_text.specs.Texts.{AreRefusedSo, IsRefusedText, texts_of};

use crate::kind::{TextKind, TextRefused};
use crate::machine::Machine;
use std::alloc::Global;

/// Why machine texts that stand one after the other are refused. Texts are counted from 0.
#[derive(Clone, Copy, Debug, PartialEq, Eq)]
pub enum TextsRefused {
    /// The first text that is refused or has an image is this one, and is refused at this line, counted from 1, for
    /// this kind.
    Line {
        number: u32,
        line: u32,
        kind: TextKind,
    },
    /// The first text that is refused or has an image is this one, and has an image.
    Image {
        number: u32,
    },
    /// Bytes follow the 64th text.
    TooMany,
}

/// Why machine texts are not read.
#[derive(Clone, Copy)]
pub enum TextsUnread {
    /// They are refused.
    Refused(TextsRefused),
    /// Memory ran out. This may come whatever the texts are.
    Memory,
}

// Reads the text of this number at the beginning of the bytes, which has no image, and says where it ends.
fn read_text(alloc: Global, number: u32, bytes: &[u8]) -> Result<(Machine, usize), TextsUnread>
    ensures reads { IfOk result (λ read. outcome bytes.now ≡ Reads (reading_of read.0) read.1) }
    ensures place { IfOk result (λ read. read.1 ≤ length bytes.now) }
    ensures none { IfOk result (λ read. read.0.image ≡ 0) }
    ensures sound { IfOk result (λ read. IsSound (reading_of read.0)) }
    ensures refused { IfErr result (IsRefusedText number (outcome bytes.now)) }
{
    match Machine::read(alloc, bytes) {
        Ok((machine, place)) => {
            if machine.image == 0 {
                Ok((machine, place))
            } else {
                Err(TextsUnread::Refused(TextsRefused::Image { number }))
            }
        }
        Err(TextRefused::Line { line, kind }) => {
            Err(TextsUnread::Refused(TextsRefused::Line { number, line, kind }))
        }
        Err(TextRefused::Memory) => Err(TextsUnread::Memory),
    }
}

/// The bytes from a place on, as those that follow a machine text.
pub fn bytes_from(bytes: &[u8], place: usize) -> &[u8]
    requires { place ≤ length bytes.now }
    ensures { result.now ≡ drop place bytes.now }
{
    &bytes[place..]
}

/// Reads 1 to 64 machine texts that stand one after the other and have no image. Each is judged by all bytes from its
/// beginning on, as `Machine::read` does. The first of the first 64 that is refused or has an image refuses all, and
/// then so do bytes after the 64th. What is read is sound.
#[tactic(auto, unfolding(crate::specs::Texts::texts_of))]
pub fn read_texts(alloc: Global, bytes: &[u8]) -> Result<Vec<Machine>, TextsUnread>
    ensures reads { IfOk result (λ machines. texts_of bytes.now ≡ Ok (map reading_of machines.items)) }
    ensures some { IfOk result (λ machines. 0 < length machines.items) }
    ensures few { IfOk result (λ machines. length machines.items ≤ 64) }
    ensures sound { IfOk result (λ machines. All (λ machine. IsSound (reading_of machine)) machines.items) }
    ensures refused { IfErr result (AreRefusedSo (texts_of bytes.now)) }
{
    let mut machines = Vec::new(alloc);
    let mut rest = bytes;
    for number in 0..64 {
        let (machine, place) = read_text(alloc, number, rest)?;
        if machines.push(machine).is_err() {
            return Err(TextsUnread::Memory);
        }
        rest = bytes_from(rest, place);
        if rest.is_empty() {
            return Ok(machines);
        }
    }
    Err(TextsUnread::Refused(TextsRefused::TooMany))
}

//! What an input is.

ghost use Rattle.std.specs.Prelude.{◌≡◌, ◌<◌, ◌≤◌, ◌+◌, ◌*◌, IfOk, IfErr, Ok, drop, length, map};
ghost use Rattle.std.specs.List.{All};
ghost use Rattle.armcaps_alt.specs.Names.{IsKnown};
ghost use Rattle.armcaps_text.specs.Document.{Reads, outcome, reading_of};
ghost use Rattle.armcaps_text.specs.Formats.{format_of};
ghost use Rattle.armcaps_text.specs.Sound.{IsSound};
ghost use Rattle.armcaps_top.specs.Document.{document, document_after, document_pair, documents, documents_after, image_refusal, pair_after};
ghost use Rattle.armcaps_top.specs.Inside.{IsRefusedSo};

use crate::ending::Ending;
use crate::reason::Reason;
use crate::refusal::Refusal;
use armcaps_text::{Machine, TextRefused, TextsUnread, read_texts};
use std::alloc::Global;

// Why so many bytes after a text are not those of an image of this length.
fn image_refusal(image: u32, given: usize) -> Option<Refusal>
    ensures { result ≡ image_refusal image given }
{
    if given < image as usize {
        Some(Refusal::ImageShort {
            got: given,
            of: image,
        })
    } else if given > image as usize {
        Some(Refusal::Trailing {
            extra: given - image as usize,
        })
    } else {
        None
    }
}

// The machine of the text at the beginning of the bytes and the place behind it, or else why the text is refused.
fn text_of(alloc: Global, bytes: &[u8]) -> Result<(Machine, usize), Ending>
    ensures reads { IfOk result (λ read. outcome bytes.now ≡ Reads (reading_of read.0) read.1) }
    ensures place { IfOk result (λ read. read.1 ≤ length bytes.now) }
    ensures sound { IfOk result (λ read. IsSound (reading_of read.0)) }
    ensures refused { IfErr result (IsRefusedSo (document_after (outcome bytes.now) bytes.now)) }
    ensures refused_in_a_pair { IfErr result (IsRefusedSo (pair_after (outcome bytes.now) bytes.now)) }
{
    match Machine::read(alloc, bytes) {
        Ok(read) => Ok(read),
        Err(TextRefused::Line { line, kind }) => {
            Err(Ending::NoOutput(Reason::Refused(Refusal::Line { line, kind })))
        }
        Err(TextRefused::Memory) => Err(Ending::Memory),
    }
}

/// The machine of a document and the place where its image begins, or else why the input is no document.
#[tactic(auto, unfolding(crate::specs::Document::document), using(crate::proofs::Images::image_whole))]
pub fn machine_of(alloc: Global, bytes: &[u8]) -> Result<(Machine, usize), Ending>
    requires { length bytes.now ≤ (format_of bytes.now).input }
    ensures document { IfOk result (λ read. document bytes.now
        ≡ Ok (record { reading = reading_of read.0; image = drop read.1 bytes.now })) }
    ensures sound { IfOk result (λ read. IsSound (reading_of read.0)) }
    ensures whole { IfOk result (λ read. read.1 + read.0.image ≡ length bytes.now) }
    ensures refused { IfErr result (IsRefusedSo (document bytes.now)) }
{
    let (machine, place) = text_of(alloc, bytes)?;
    match image_refusal(machine.image, bytes.len() - place) {
        None => Ok((machine, place)),
        Some(refusal) => Err(Ending::NoOutput(Reason::Refused(refusal))),
    }
}

/// The machine of a document that another image follows, as long as the document's own, and the place where the two
/// images begin, or else why the input is refused. It has at most 269,484,032 bytes.
#[tactic(auto, unfolding(crate::specs::Document::document_pair), using(crate::proofs::Images::image_whole, crate::proofs::KnownNumbers::numbers_are_known))]
pub fn machine_of_pair(alloc: Global, bytes: &[u8]) -> Result<(Machine, usize), Ending>
    requires { length bytes.now ≤ 269484032 }
    ensures document { IfOk result (λ read. document_pair bytes.now
        ≡ Ok (record { reading = reading_of read.0; image = drop read.1 bytes.now })) }
    ensures sound { IfOk result (λ read. IsSound (reading_of read.0)) }
    ensures known { IfOk result (λ read. All (λ e. IsKnown e.1) read.0.names.numbers) }
    ensures whole { IfOk result (λ read. read.1 + 2 * read.0.image ≡ length bytes.now) }
    ensures refused { IfErr result (IsRefusedSo (document_pair bytes.now)) }
{
    let (machine, place) = text_of(alloc, bytes)?;
    match image_refusal(2 * machine.image, bytes.len() - place) {
        None => Ok((machine, place)),
        Some(refusal) => Err(Ending::NoOutput(Reason::Refused(refusal))),
    }
}

/// The machines of the documents that an input is whose texts stand one after the other, or else why it is none. It has
/// at most 67,108,864 bytes.
#[tactic(auto, unfolding(crate::specs::Document::documents))]
pub fn machines_of(alloc: Global, bytes: &[u8]) -> Result<Vec<Machine>, Ending>
    requires { length bytes.now ≤ 67108864 }
    ensures documents { IfOk result (λ read. documents bytes.now ≡ documents_after (Ok (map reading_of read.items))) }
    ensures some { IfOk result (λ read. 0 < length read.items) }
    ensures few { IfOk result (λ read. length read.items ≤ 64) }
    ensures sound { IfOk result (λ read. All (λ machine. IsSound (reading_of machine)) read.items) }
    ensures refused { IfErr result (IsRefusedSo (documents bytes.now)) }
{
    match read_texts(alloc, bytes) {
        Ok(machines) => Ok(machines),
        Err(TextsUnread::Refused(refused)) => {
            Err(Ending::NoOutput(Reason::Refused(Refusal::Texts(refused))))
        }
        Err(TextsUnread::Memory) => Err(Ending::Memory),
    }
}

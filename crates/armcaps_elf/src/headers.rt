//! The headers of a file: whether they are there, and those of loaded sections.

ghost use Rattle.std.specs.Prelude.{◌≡◌, ◌+◌, ◌*◌, ◌≤◌, IfOk, length, nat_lt};
ghost use Rattle.armcaps_elf.specs.Headers.{header_at, header_count, headers_place, loaded_of};
ghost use Rattle.armcaps_elf.specs.Refusals.{has_other_header, is_outside, lacks_headers};

use crate::fields::{half, long};
use crate::header::Header;
use std::alloc::{AllocError, Global};

// The first seven bytes of every file that is taken (System V ABI, "ELF Identification").
const IDENTIFICATION: [u8; 7] = [0x7f, 0x45, 0x4c, 0x46, 2, 1, 1];

// Kind 1: the file has no ELF header of 64 bits for this machine.
pub(crate) fn has_other_header(file: &[u8]) -> bool
    ensures { result ≡ has_other_header file.now }
{
    file.len() < 64
        || !file.starts_with(&IDENTIFICATION)
        || half(file, 18) != 183
        || half(file, 58) != 64
}

// Whether so many bytes from a place on reach beyond so many bytes.
pub(crate) fn reaches_beyond(len: usize, place: u64, size: u64) -> bool
    ensures { result ≡ nat_lt len (place + size) }
{
    let len = len as u64;
    size > len || place > len - size
}

// Kind 2: there is no section header or there are too many, or they or the section of the names aren't within the file.
pub(crate) fn lacks_headers(file: &[u8]) -> bool
    requires { 64 ≤ length file.now }
    ensures { result ≡ lacks_headers file.now }
{
    let place = long(file, 40);
    let count = half(file, 60);
    let index = half(file, 62);
    count == 0
        || count > 65279
        || reaches_beyond(file.len(), place, 64 * count as u64)
        || index >= count
        || is_header_outside(file, place, index)
}

// Whether the bytes of the section that has this number reach beyond the file.
fn is_header_outside(file: &[u8], place: u64, index: u16) -> bool
    requires { place + 64 * index + 64 ≤ length file.now }
    ensures { result ≡ is_outside file.now (header_at file.now (place + 64 * index)).section }
{
    let section = Header::read(file, place as usize + 64 * index as usize).section;
    reaches_beyond(file.len(), section.place, section.size)
}

// The headers of the loaded sections in the file's order.
#[tactic(auto, unfolding(crate::specs::Headers::loaded_of))]
pub(crate) fn loaded(alloc: Global, file: &[u8]) -> Result<Vec<Header>, AllocError>
    requires whole { 64 ≤ length file.now }
    requires within { headers_place file.now + 64 * header_count file.now ≤ length file.now }
    ensures { IfOk result (λ headers. headers.items ≡ loaded_of file.now) }
{
    let place = long(file, 40) as usize;
    let count = half(file, 60) as usize;
    let mut headers = Vec::new(alloc);
    for index in 0..count {
        let header = Header::read(file, place + 64 * index);
        if header.is_loaded() {
            headers.push(header)?;
        }
    }
    Ok(headers)
}

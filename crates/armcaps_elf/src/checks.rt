//! The kinds 1 to 6 in their order, and the sections of a file that passes them.

ghost use Rattle.std.specs.Prelude.{◌≡◌, ◌+◌, ℕ, Err, IfOk, Some, map, nat_lt};
ghost use Rattle.std.specs.List.{list_any};
ghost use Rattle.armcaps_elf.specs.Headers.{loaded_of, table_of};
ghost use Rattle.armcaps_elf.specs.Refusals.{HasHeaders, HasTable, kind_of};

use crate::header::Header;
use crate::headers::{has_other_header, lacks_headers, loaded, reaches_beyond};
use crate::naming::{count_tables, has_open_name, names, table};
use crate::refused::ElfRefused;
use crate::section::Section;
use std::alloc::{AllocError, Global};

// The headers of the loaded sections, if no kind from 1 to 4 holds.
pub(crate) fn checked_headers(alloc: Global, file: &[u8]) -> Result<Vec<Header>, ElfRefused>
    ensures headers { IfOk result (λ headers. headers.items ≡ loaded_of file.now) }
    ensures passed { IfOk result (λ headers. HasHeaders file.now) }
    ensures refused { (kind : ℕ) → result ≡ Err (ElfRefused.Kind kind) → kind_of file.now ≡ Some kind }
{
    if has_other_header(file) {
        return Err(ElfRefused::Kind { kind: 1 });
    }
    if lacks_headers(file) {
        return Err(ElfRefused::Kind { kind: 2 });
    }
    let headers = loaded(alloc, file)?;
    if has_section_outside(&headers, file.len()) {
        return Err(ElfRefused::Kind { kind: 3 });
    }
    if has_open_name(&headers, names(file)) {
        return Err(ElfRefused::Kind { kind: 4 });
    }
    Ok(headers)
}

// Kind 3: the bytes of a section reach beyond so many bytes.
fn has_section_outside(headers: &[Header], len: usize) -> bool
    ensures { result ≡ list_any (λ header. nat_lt len (header.section.place + header.section.size)) headers.now }
{
    headers.iter().any(|header| reaches_beyond(len, header.section.place, header.section.size))
}

// The table among these headers of a file, if neither kind 5 nor 6 holds.
pub(crate) fn checked_table(file: &[u8], headers: &[Header]) -> Result<Section, ElfRefused>
    requires headers { headers.now ≡ loaded_of file.now }
    requires passed { HasHeaders file.now }
    ensures table { IfOk result (λ table. table_of file.now ≡ Some table) }
    ensures passed { IfOk result (λ table. HasTable file.now) }
    ensures refused { (kind : ℕ) → result ≡ Err (ElfRefused.Kind kind) → kind_of file.now ≡ Some kind }
{
    let names = names(file);
    match table(headers, names) {
        None => Err(ElfRefused::Kind { kind: 5 }),
        Some(_) if count_tables(headers, names) > 1 => Err(ElfRefused::Kind { kind: 6 }),
        Some(header) => Ok(header.section),
    }
}

// The sections that these headers have.
pub(crate) fn sections(alloc: Global, headers: &[Header]) -> Result<Vec<Section>, AllocError>
    ensures { IfOk result (λ sections. sections.items ≡ map (λ header. header.section) headers.now) }
{
    headers.iter().map(|header| header.section).collect(alloc)
}

//! The names of sections, and the table among them.

ghost use Rattle.std.specs.Prelude.{◌≡◌, ◌+◌, ◌*◌, ◌≤◌, ℕ, count_by, find, length, nat_lt, not};
ghost use Rattle.std.specs.List.{list_any};
ghost use Rattle.std.specs.Option.{option_copied};
ghost use Rattle.armcaps_elf.specs.Headers.{headers_place, is_table, names_index, names_of, names_section, names_table};
ghost use Rattle.armcaps_elf.specs.Refusals.{is_ended};

use crate::fields::{half, long};
use crate::header::Header;

// The name of the table of alternatives, with the zero byte that ends it.
const TABLE_NAME: [u8; 17] = *b".altinstructions\0";

// The bytes of the section that has the names.
#[tactic(auto, unfolding(crate::specs::Headers::names_of))]
pub(crate) fn names(file: &[u8]) -> &[u8]
    requires whole { 64 ≤ length file.now }
    requires header { headers_place file.now + 64 * names_index file.now + 64 ≤ length file.now }
    requires within { (names_section file.now).place + (names_section file.now).size ≤ length file.now }
    ensures { result.now ≡ names_of file.now }
{
    let place = long(file, 40) as usize + 64 * half(file, 62) as usize;
    let section = Header::read(file, place).section;
    let (_, rest) = file.split_at(section.place as usize);
    let (names, _) = rest.split_at(section.size as usize);
    names
}

// How many of the names' bytes there are up to the last zero byte: the names that begin among them end.
fn ended(names: &[u8]) -> usize
    ensures { (place : ℕ) → is_ended names.now place ≡ nat_lt place result }
{
    let mut ended = 0;
    for (index, byte) in names.iter().enumerate() {
        if *byte == 0 {
            ended = index + 1;
        }
    }
    ended
}

// Kind 4: a loaded section's name begins outside the names, or no zero byte ends it.
pub(crate) fn has_open_name(headers: &[Header], names: &[u8]) -> bool
    ensures { result ≡ list_any (λ header. not (is_ended names.now header.name)) headers.now }
{
    let ended = ended(names);
    headers.iter().any(|header| header.name as usize >= ended)
}

// Whether the name that begins at this place among the names is the table's.
fn names_table(names: &[u8], place: usize) -> bool
    ensures { result ≡ names_table names.now place }
{
    place <= names.len() && names[place..].starts_with(&TABLE_NAME)
}

// How many sections have the table's name.
pub(crate) fn count_tables(headers: &[Header], names: &[u8]) -> usize
    ensures { result ≡ count_by (is_table names.now) headers.now }
{
    headers
        .iter()
        .filter(|header| names_table(names, header.name as usize))
        .count()
}

// The first section that has the table's name.
pub(crate) fn table<'a>(headers: &'a [Header], names: &[u8]) -> Option<&'a Header>
    ensures { option_copied result ≡ find (is_table names.now) headers.now }
{
    headers
        .iter()
        .find(|header| names_table(names, header.name as usize))
}

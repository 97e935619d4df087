//! The reading of a file.

ghost use Rattle.std.specs.Prelude.{◌≡◌, ◌+◌, ◌-◌, ◌<◌, ◌≤◌, ◌/◌, ◌^◌, ℕ, Err, IfOk, Some};
ghost use Rattle.std.specs.List.{All, AllPairs, list_any};
ghost use Rattle.std.specs.List.Sorted.{IsPermutation};
ghost use Rattle.armcaps_elf.specs.Refusals.{has_other_size, kind_of};
ghost use Rattle.armcaps_elf.specs.Sections.{Follows};
ghost use Rattle.armcaps_elf.specs.Standing.{StandsFor};
ghost use Rattle.armcaps_elf.specs.Stretches.{IsApart, in_stretch, is_held};

use crate::bounds::Extent;
use crate::checks::{checked_headers, checked_table, sections};
use crate::elf::Elf;
use crate::ordering::Orders;
use crate::refused::ElfRefused;
use crate::section::Section;
use crate::stretch::{Stretch, stretches_of};
use std::alloc::Global;

// How many bytes a table has at most: 1,048,576 entries.
const MOST_TABLE_BYTES: u64 = 12_582_912;

impl Elf {
    /// Reads the loaded sections of an ELF file of 64 bits. The kinds are asked in their order, and the first that
    /// holds is the answer.
    pub fn read(alloc: Global, bytes: &[u8]) -> Result<Elf, ElfRefused>
        ensures stands { IfOk result (λ elf. StandsFor elf bytes.now) }
        ensures refused { (kind : ℕ) → result ≡ Err (ElfRefused.Kind kind) → kind_of bytes.now ≡ Some kind }
    {
        let headers = checked_headers(alloc, bytes)?;
        let table = checked_table(bytes, &headers)?;
        let sections = sections(alloc, &headers)?;
        let orders = match Orders::of(alloc, &sections) {
            Ok(orders) => orders,
            Err(refused) => return Err(refused),
        };
        let extent = match Extent::of(&sections) {
            Some(extent) => extent,
            None => return Err(ElfRefused::Kind { kind: 8 }),
        };
        if has_other_size(&table) {
            return Err(ElfRefused::Kind { kind: 9 });
        }
        let stretches = stretches_of(alloc, &orders.by_address, extent.base)?;
        Ok(keep(orders, stretches, extent, &table))
    }
}

// Kind 9: the table isn't made of entries of 12 bytes, or of too many.
fn has_other_size(table: &Section) -> bool
    ensures { result ≡ has_other_size table.now }
{
    table.size % 12 != 0 || table.size > MOST_TABLE_BYTES
}

// What is kept of the sections, where their flat image is, and the table among them.
fn keep(orders: Orders, stretches: Vec<Stretch>, extent: Extent, table: &Section) -> Elf
    requires same { IsPermutation orders.by_address.items orders.by_place.items }
    requires rise { AllPairs (Follows (λ section. section.address)) orders.by_address.items }
    requires places { AllPairs (Follows (λ section. section.place)) orders.by_place.items }
    requires some { All (λ section. 0 < section.size) orders.by_address.items }
    requires above { All (λ section. extent.base ≤ section.address) orders.by_address.items }
    requires below { All (λ section. section.address + section.size ≤ extent.base + extent.span)
        orders.by_address.items }
    requires small { extent.span ≤ 2 ^ 27 }
    requires held { (n : ℕ)
        → list_any (in_stretch n) stretches.items ≡ is_held orders.by_address.items (extent.base + n) }
    requires apart { IsApart stretches.items }
    requires table_above { extent.base ≤ table.now.address }
    requires table_below { table.now.address + table.now.size ≤ extent.base + extent.span }
    requires table_size { table.now.size ≤ 12582912 }
    ensures { result ≡ record {
      sections = orders.by_address.items;
      base = extent.base;
      span = extent.span;
      table = table.now.address - extent.base;
      entries = table.now.size / 12;
    } }
{
    Elf {
        table: (table.address - extent.base) as u32,
        entries: (table.size / 12) as u32,
        base: extent.base,
        span: extent.span,
        sections: orders.by_address,
        by_place: orders.by_place,
        stretches,
    }
}

//! `elf`: the ELF file of a kernel, patched for the machine.

ghost use Rattle.std.specs.Prelude.{◌≡◌, ◌+◌, ◌*◌, ◌<◌, ◌≤◌, ◌^◌, ℕ, List, IfErr, IfOk, None, Ok, [], true, length};
ghost use Rattle.std.specs.Option.{option_map};
ghost use Rattle.armcaps_alt.specs.Entries.{Features};
ghost use Rattle.armcaps_alt.specs.Patched.{patched_image};
ghost use Rattle.armcaps_caps.specs.Set.{holds};
ghost use Rattle.armcaps_elf.specs.Headers.{sections_of};
ghost use Rattle.armcaps_elf.specs.Images.{flat_image, put_image};
ghost use Rattle.armcaps_elf.specs.Standing.{StandsFor};
ghost use Rattle.armcaps_patch.specs.Features.{features_of};
ghost use Rattle.armcaps_text.specs.Document.{reading_of};
ghost use Rattle.armcaps_text.specs.Formats.{format_of};
ghost use Rattle.armcaps_text.specs.Sound.{IsSound};
ghost use Rattle.armcaps_top.specs.Answer.{answer_of, of_document};
ghost use Rattle.armcaps_top.specs.Elf.{elf_reason, elf_word, file_kind, first_unloaded, is_loaded, table_in, unloaded_kind, unloaded_of};
ghost use Rattle.armcaps_top.specs.Inside.{Comes, Ends, IsWhy, as_bytes};
ghost use Rattle.armcaps_top.specs.Run.{change};
ghost use Rattle.armcaps_top.specs.declared.commands.Command.TheVariants as Command;
ghost use Rattle.armcaps_top.specs.declared.reason.Reason.TheVariants as Reason;

use crate::bringing::{bring, only};
use crate::commands::patch::{check, patched};
use crate::document::machine_of;
use crate::ending::Ending;
use crate::reason::Reason;
use armcaps_alt::{Entry, Layout, Names, selected};
use armcaps_boot::Boot;
use armcaps_caps::CapSet;
use armcaps_elf::{Elf, ElfRefused};
use armcaps_image::place_within;
use armcaps_io::Sink;
use armcaps_patch::{enabled_on, entry_at};
use armcaps_text::{Machine, bytes_from};
use std::alloc::Global;

/// The word of a kind for which an ELF file is refused.
pub fn elf_word(kind: u8) -> &'static str
    ensures { result.now ≡ elf_word kind }
{
    match kind {
        1 => "header",
        2 => "sections",
        3 => "outside",
        4 => "name",
        5 => "no-table",
        6 => "two-tables",
        7 => "overlap",
        8 => "span",
        9 => "table-size",
        10 => "table-line",
        11 => "site",
        12 => "replacement",
        _ => "",
    }
}

// Reads an ELF file, whose document has this line of a table, or says why it is refused.
fn read(alloc: Global, file: &[u8], line: Layout) -> Result<Elf, Ending>
    ensures stands { IfOk result (λ elf. StandsFor elf file.now) }
    ensures accepted { IfOk result (λ elf. file_kind line file.now ≡ None) }
    ensures refused { IfErr result (IsWhy (option_map Reason.NotElf (file_kind line file.now))) }
{
    match Elf::read(alloc, file) {
        Ok(_) if line.count != 0 => Err(Ending::NoOutput(Reason::NotElf { kind: 10 })),
        Ok(elf) => Ok(elf),
        Err(ElfRefused::Kind { kind }) => Err(Ending::NoOutput(Reason::NotElf { kind })),
        Err(ElfRefused::Memory) => Err(Ending::Memory),
    }
}

// Whether so many bytes of the flat image from a place on are there, and each is loaded.
fn is_loaded(elf: &Elf, place: i64, count: u8) -> bool
    ensures { (file : List ℕ) → StandsFor elf.now file → result ≡ is_loaded (sections_of file) place count }
{
    match place_within(elf.span() as usize, place, count) {
        Some(start) => elf.covers(u64::from(start), u64::from(count)),
        None => false,
    }
}

// Why an entry isn't loaded.
fn unloaded_kind(elf: &Elf, entry: &Entry) -> Option<u8>
    ensures { (file : List ℕ) → StandsFor elf.now file → result ≡ unloaded_kind (sections_of file) entry.now }
{
    if !is_loaded(elf, entry.site, entry.orig_len) {
        Some(11)
    } else if !entry.callback && !is_loaded(elf, entry.repl, entry.orig_len) {
        Some(12)
    } else {
        None
    }
}

// Why an entry isn't loaded, if it is selected.
fn unloaded_of(elf: &Elf, entry: &Entry, names: &Names, enabled: &CapSet) -> Option<u8>
    ensures { (features : Features) (file : List ℕ) → StandsFor elf.now file → features.names ≡ names.now
        → ((number : ℕ) → number < 53 → holds enabled.now number ≡ features.enabled number)
        → result ≡ unloaded_of features (sections_of file) entry.now }
{
    match selected(entry, names, enabled) {
        Some(true) => unloaded_kind(elf, entry),
        _ => None,
    }
}

// The table of the flat image.
fn table_in(elf: &Elf) -> Layout
    ensures value { (file : List ℕ) → StandsFor elf.now file → result ≡ table_in file }
    ensures within { result.table + 12 * result.count ≤ elf.now.span }
    ensures small { elf.now.span ≤ 2 ^ 27 }
{
    let (table, count) = elf.table();
    Layout { table, count }
}

// The first selected entry that isn't loaded, and why.
fn first_unloaded(elf: &Elf, flat: &[u8], names: &Names, boot: &Boot) -> Option<Reason>
    requires size { length flat.now ≡ elf.now.span }
    requires finalised { boot.now.final ≡ true }
    ensures { (file : List ℕ) → StandsFor elf.now file → flat.now ≡ flat_image file
        → result ≡ first_unloaded (features_of boot.now names.now) file }
{
    let table = table_in(elf);
    let enabled = enabled_on(boot);
    for number in 0..table.count {
        let entry = entry_at(flat, table, number);
        if let Some(kind) = unloaded_of(elf, &entry, names, &enabled) {
            return Some(Reason::NotLoaded {
                entry: number,
                kind,
            });
        }
    }
    None
}

// An ELF file and its patched flat image, or why there is none.
fn patched_flat(
    alloc: Global,
    file: &[u8],
    line: Layout,
    names: &Names,
    boot: &Boot,
) -> Result<(Elf, Vec<u8>), Ending>
    requires finalised { boot.now.final ≡ true }
    ensures stands { IfOk result (λ made. StandsFor made.0 file.now) }
    ensures span { IfOk result (λ made. length made.1.items ≡ made.0.span) }
    ensures accepted { IfOk result (λ made. elf_reason (features_of boot.now names.now) line file.now ≡ None) }
    ensures patched { IfOk result (λ made. made.1.items
        ≡ patched_image (features_of boot.now names.now) (flat_image file.now) (table_in file.now)) }
    ensures refused { IfErr result (IsWhy (elf_reason (features_of boot.now names.now) line file.now)) }
{
    let elf = match read(alloc, file, line) {
        Ok(elf) => elf,
        Err(ending) => return Err(ending),
    };
    let Ok(flat) = elf.flat(alloc, file) else {
        return Err(Ending::Memory);
    };
    let table = table_in(&elf);
    let plan = match check(alloc, &flat, table, names, boot) {
        Ok(plan) => plan,
        Err(ending) => return Err(ending),
    };
    if let Some(reason) = first_unloaded(&elf, &flat, names, boot) {
        return Err(Ending::NoOutput(reason));
    }
    match patched(alloc, &plan, &flat) {
        Ok(new) => Ok((elf, new)),
        Err(_) => Err(Ending::Memory),
    }
}

// Brings the machine up, and patches the flat image of a file for it.
fn patched_for(
    alloc: Global,
    machine: Machine,
    file: &[u8],
    machines: &mut Vec<Boot>,
) -> Result<(Elf, Vec<u8>), Ending>
    requires sound { IsSound (reading_of machine) }
    requires none { machines.old.items ≡ [] }
    ensures stands { IfOk result (λ made. StandsFor made.0 file.now) }
    ensures span { IfOk result (λ made. length made.1.items ≡ made.0.span) }
    ensures comes { let reading = reading_of machine in
        Comes (of_document Command.Elf (Ok (record { reading = reading; image = file.now }))) machines.new.items
        (as_bytes (λ made. put_image file.now made.1.items) result) }
{
    let line = machine.layout;
    let names = bring(alloc, machine, machines)?;
    patched_flat(alloc, file, line, &names, only(machines))
}

/// Brings the machine of a document up, leaves it in `machines`, and writes the ELF file that its image is, with the
/// bytes of the loaded sections patched for the machine. Beside the file the memory has two flat images of it at most.
pub fn elf<O: Sink>(alloc: Global, bytes: &[u8], out: &mut O, machines: &mut Vec<Boot>) -> Ending
    requires within { length bytes.now ≤ (format_of bytes.now).input }
    requires none { machines.old.items ≡ [] }
    ensures { Ends Command.Elf (answer_of Command.Elf bytes.now)
        (change O.held O.faults out.old out.new) machines.new.items result }
{
    let (machine, place) = match machine_of(alloc, bytes) {
        Ok(read) => read,
        Err(ending) => return ending,
    };
    let file = bytes_from(bytes, place);
    let (elf, flat) = match patched_for(alloc, machine, file, machines) {
        Ok(made) => made,
        Err(ending) => return ending,
    };
    match elf.write_back(file, &flat, out) {
        Ok(()) => Ending::Done,
        Err(_) => Ending::WriteFault,
    }
}

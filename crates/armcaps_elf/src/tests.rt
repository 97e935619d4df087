ghost use Rattle.std.specs.Prelude.{◌+◌, ◌<◌, ◌^◌};

use super::*;
use armcaps_io::MemSink;
use std::alloc::{AllocError, Global};
use std::test::Fail;

// Where the section headers of the text, the table and the names stand.
const TEXT: usize = 0x2080;

const TABLE: usize = 0x20c0;

const NAMES: usize = 0x2100;

// Puts a number of so many bytes at a place, its lowest byte first.
fn put(file: &mut [u8], place: usize, count: usize, number: u64)
    requires { place + count < 2 ^ 32 }
{
    let mut rest = number;
    for index in 0..count {
        if let Some(byte) = file.get_mut(place + index) {
            *byte = (rest % 256) as u8;
        }
        rest /= 256;
    }
}

// Puts a section header at a place.
fn put_header(file: &mut [u8], place: usize, name: u64, form: u64, flags: u64, section: Section)
    requires { place < 2 ^ 16 }
{
    put(file, place, 4, name);
    put(file, place + 4, 4, form);
    put(file, place + 8, 8, flags);
    put(file, place + 16, 8, section.address);
    put(file, place + 24, 8, section.place);
    put(file, place + 32, 8, section.size);
}

// A small file: the text at the base, of 4096 bytes, and right behind it a table of one entry, with their names
// behind that.
fn small_file(alloc: Global) -> Result<Vec<u8>, AllocError> {
    let mut file = vec![in alloc; 0; 8512]?;
    put(&mut file, 0, 8, 0x0001_0102_464c_457f);
    put(&mut file, 18, 2, 183);
    put(&mut file, 40, 8, 0x2040);
    put(&mut file, 58, 2, 64);
    put(&mut file, 60, 2, 4);
    put(&mut file, 62, 2, 3);
    put(&mut file, 0x1800, 4, 0x9400_0040);
    put(&mut file, 0x2000, 8, 0x0000_07fc_ffff_f100);
    for (index, byte) in b"\0.text\0.altinstructions\0.shstrtab\0".iter().enumerate() {
        put(&mut file, 0x200c + index, 1, *byte as u64);
    }
    let text = Section {
        address: 0xffff_8000_8000_0000,
        place: 0x1000,
        size: 0x1000,
    };
    let table = Section {
        address: 0xffff_8000_8000_1000,
        place: 0x2000,
        size: 12,
    };
    let names = Section {
        address: 0,
        place: 0x200c,
        size: 34,
    };
    put_header(&mut file, TEXT, 1, 1, 2, text);
    put_header(&mut file, TABLE, 7, 1, 2, table);
    put_header(&mut file, NAMES, 24, 3, 0, names);
    Ok(file)
}

// The kind for which a file is refused, or 0.
fn kind_of(alloc: Global, file: &[u8]) -> Result<u8, Fail> {
    match Elf::read(alloc, file) {
        Ok(_) => Ok(0),
        Err(ElfRefused::Kind { kind }) => Ok(kind),
        Err(ElfRefused::Memory) => Err(Fail::from("no memory")),
    }
}

#[test]
fn a_file_is_read(rt: HostRuntime) -> Result<(), Fail> {
    let file = small_file(rt.alloc())?;
    let elf = Elf::read(rt.alloc(), &file)?;
    assert_eq!(rt; elf.base(), 0xffff_8000_8000_0000);
    assert_eq!(rt; elf.span(), 0x100c);
    assert_eq!(rt; elf.table(), (0x1000, 1));
    assert_eq!(rt; elf.loaded().len(), 2);
    assert!(rt; elf.covers(0, 0x100c) && !elf.covers(0, 0x100d));
    assert!(rt; elf.covers(0xffc, 8) && elf.covers(0x2000, 0) && !elf.covers(0x100c, 1));
    Ok(())
}

#[test]
fn a_hole_has_zeros(rt: HostRuntime) -> Result<(), Fail> {
    let mut file = small_file(rt.alloc())?;
    put(&mut file, TABLE + 16, 8, 0xffff_8000_8000_1004);
    let elf = Elf::read(rt.alloc(), &file)?;
    assert!(rt; elf.covers(0xffc, 4) && !elf.covers(0xffc, 5));
    assert!(rt; elf.covers(0x1004, 12) && !elf.covers(0x1003, 2));
    let flat = elf.flat(rt.alloc(), &file)?;
    assert_eq!(rt; flat.as_slice().get(0x1003), Some(&0));
    assert_eq!(rt; flat.as_slice().get(0x1005), Some(&0xf1));
    Ok(())
}

#[test]
fn a_file_is_written_back(rt: HostRuntime) -> Result<(), Fail> {
    let file = small_file(rt.alloc())?;
    let elf = Elf::read(rt.alloc(), &file)?;
    let mut flat = elf.flat(rt.alloc(), &file)?;
    put(&mut flat, 0x100, 4, 0x9402_0000);
    let flat = flat.as_slice();
    assert!(rt; flat.len() as u64 == elf.span());
    let mut patched = small_file(rt.alloc())?;
    put(&mut patched, 0x1100, 4, 0x9402_0000);
    let mut sink = MemSink::new(rt.alloc(), 8512, 1000, vec![in rt.alloc()]?)?;
    assert!(rt; elf.write_back(&file, flat, &mut sink).is_ok());
    assert_eq!(rt; sink.bytes(), patched.as_slice());
    let mut sink = MemSink::new(rt.alloc(), 5000, 1000, vec![in rt.alloc()]?)?;
    assert!(rt; elf.write_back(&file, flat, &mut sink).is_err());
    assert_eq!(rt; sink.bytes().len(), 5000);
    assert!(rt; patched.as_slice().starts_with(sink.bytes()));
    Ok(())
}

// Up to two changes of the small file, each with its place, its length in bytes and the number, and the kind that
// then holds.
const CASES: [([(usize, usize, u64); 2], u8); 40] = [
    ([(18, 2, 62), (0, 0, 0)], 1),
    ([(0, 1, 0x7e), (0, 0, 0)], 1),
    ([(4, 1, 1), (0, 0, 0)], 1),
    ([(5, 1, 2), (0, 0, 0)], 1),
    ([(6, 1, 0), (0, 0, 0)], 1),
    ([(58, 2, 63), (0, 0, 0)], 1),
    ([(60, 2, 0), (0, 0, 0)], 2),
    ([(60, 2, 65279), (0, 0, 0)], 2),
    ([(60, 2, 65280), (0, 0, 0)], 2),
    ([(40, 8, 0x2041), (0, 0, 0)], 2),
    ([(40, 8, u64::MAX), (0, 0, 0)], 2),
    ([(62, 2, 4), (0, 0, 0)], 2),
    ([(NAMES + 32, 8, 0x135), (0, 0, 0)], 2),
    ([(NAMES + 32, 8, 0x134), (0, 0, 0)], 0),
    ([(NAMES + 24, 8, u64::MAX), (0, 0, 0)], 2),
    ([(TEXT + 32, 8, 0x1141), (0, 0, 0)], 3),
    ([(TEXT + 24, 8, u64::MAX), (0, 0, 0)], 3),
    ([(NAMES + 32, 8, 1), (0, 0, 0)], 4),
    ([(TEXT, 4, 34), (0, 0, 0)], 4),
    ([(TEXT, 4, 33), (0, 0, 0)], 0),
    ([(TEXT, 4, 24), (NAMES + 32, 8, 33)], 4),
    ([(TABLE, 4, 1), (0, 0, 0)], 5),
    ([(TABLE, 4, 8), (0, 0, 0)], 5),
    ([(TABLE + 32, 8, 0), (0, 0, 0)], 5),
    ([(TABLE + 4, 4, 8), (0, 0, 0)], 5),
    ([(TABLE + 8, 8, 5), (0, 0, 0)], 5),
    ([(TEXT, 4, 7), (0, 0, 0)], 6),
    ([(TEXT, 4, 7), (TEXT + 8, 8, 5)], 0),
    ([(TABLE + 16, 8, 0xffff_8000_8000_0000), (0, 0, 0)], 7),
    ([(TABLE + 16, 8, 0xffff_8000_8000_0fff), (0, 0, 0)], 7),
    ([(TABLE + 16, 8, 0xffff_8000_7fff_fff4), (0, 0, 0)], 0),
    ([(TABLE + 16, 8, 0xffff_8000_7fff_fff5), (0, 0, 0)], 7),
    ([(TABLE + 24, 8, 0x1fff), (0, 0, 0)], 7),
    ([(TABLE + 24, 8, 0x0ff4), (0, 0, 0)], 0),
    (
        [
            (TEXT + 16, 8, 0xffff_ffff_ffff_f000),
            (TABLE + 16, 8, 0xffff_ffff_ffff_e000),
        ],
        0,
    ),
    (
        [
            (TEXT + 16, 8, 0xffff_ffff_ffff_f001),
            (TABLE + 16, 8, 0xffff_ffff_ffff_e000),
        ],
        8,
    ),
    ([(TABLE + 16, 8, 0xffff_8000_87ff_fff4), (0, 0, 0)], 0),
    ([(TABLE + 16, 8, 0xffff_8000_87ff_fff5), (0, 0, 0)], 8),
    ([(TABLE + 32, 8, 13), (0, 0, 0)], 9),
    ([(TABLE + 32, 8, 24), (0, 0, 0)], 0),
];

#[test]
fn each_kind_at_its_edge(rt: HostRuntime) -> Result<(), Fail> {
    for (changes, kind) in &CASES {
        let mut file = small_file(rt.alloc())?;
        for (place, count, number) in changes {
            assert!(rt; *place < 65536 && *count < 65536);
            put(&mut file, *place, *count, *number);
        }
        assert_eq!(rt; kind_of(rt.alloc(), &file)?, *kind, "{changes:?}");
    }
    assert_eq!(rt; kind_of(rt.alloc(), b"")?, 1);
    let file = small_file(rt.alloc())?;
    for (len, kind) in [(63, 1), (64, 2), (8511, 2), (8512, 0)] {
        let bytes = file.as_slice();
        assert!(rt; len <= bytes.len());
        assert_eq!(rt; kind_of(rt.alloc(), &bytes[..len])?, kind, "of {len} bytes");
    }
    Ok(())
}

#[test]
fn a_section_without_bytes_has_zeros(rt: HostRuntime) -> Result<(), Fail> {
    let mut file = small_file(rt.alloc())?;
    let section = Section {
        address: 0xffff_8000_8000_1000,
        place: 0x2000,
        size: 0x1000,
    };
    put_header(&mut file, 0x2040, 1, 8, 3, section);
    put(&mut file, TABLE + 16, 8, 0xffff_8000_8000_2000);
    let elf = Elf::read(rt.alloc(), &file)?;
    assert_eq!(rt; elf.loaded().len(), 2);
    assert!(rt; elf.covers(0xffc, 4) && !elf.covers(0x1000, 1) && elf.covers(0x2000, 12));
    let flat = elf.flat(rt.alloc(), &file)?;
    assert_eq!(rt; flat.as_slice().get(0x1001), Some(&0));
    assert_eq!(rt; flat.as_slice().get(0x2001), Some(&0xf1));
    Ok(())
}

#[test]
fn the_longest_table(rt: HostRuntime) -> Result<(), Fail> {
    let mut file = small_file(rt.alloc())?;
    file.resize(12_591_436, 0)?;
    put(&mut file, TABLE + 24, 8, 8512);
    for (size, kind) in [(12_582_912, 0), (12_582_924, 9)] {
        put(&mut file, TABLE + 32, 8, size);
        assert_eq!(rt; kind_of(rt.alloc(), &file)?, kind, "{size}");
    }
    Ok(())
}

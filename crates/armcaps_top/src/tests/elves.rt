//! An ELF file as the image of a document, patched for its machine.

use super::patching::{document, put};
use super::{ONE_CORE, ended, run_on};
use std::alloc::{AllocError, Global};
use std::process::Abort;
use std::test::Fail;

/// The words of a small file that are not 0: its header, the call at 800 of the text, the only entry of the table, with
/// its site at 100 of the text and its replacement at that call, and the headers of the text, the table and the names.
const FILE: &str =
    "0:464c457f 4:10102 12:b7 28:2040 3a:40040 3e:3 1800:94000040 2000:fffff100 2004:fffff7fc 2008:4040001
2080:1 2084:1 2088:2 2090:80000000 2094:ffff8000 2098:1000 20a0:1000
20c0:7 20c4:1 20c8:2 20d0:80001000 20d4:ffff8000 20d8:2000 20e0:c
2100:18 2104:3 2118:200c 2120:22";

/// Where its names stand.
const NAMES: usize = 0x200c;

/// Rows as those of patched images: lines after `finalise`, the words of the file that are others, and the words of the
/// output that are then others, or the line on the error stream. In most of them the table is moved, behind a hole from
/// 1000 on to 2000.
const FILES: &str = "== a call that moves
number 1 ALWAYS_SYSTEM
image 8512
0:464c457f
$ 0
1100:94000200
== another machine
number 1 ALWAYS_SYSTEM
image 8512
12:3e
$ 10
armcaps: elf: kind 1 header
== another machine, and a line of a table
number 1 ALWAYS_SYSTEM
table 0 1
image 8512
12:3e
$ 10
armcaps: elf: kind 1 header
== no section
number 1 ALWAYS_SYSTEM
image 8512
3a:40
$ 10
armcaps: elf: kind 2 sections
== text beyond the file
number 1 ALWAYS_SYSTEM
image 8512
20a0:1141
$ 10
armcaps: elf: kind 3 outside
== a name behind the names
number 1 ALWAYS_SYSTEM
image 8512
2080:22
$ 10
armcaps: elf: kind 4 name
== another name
number 1 ALWAYS_SYSTEM
image 8512
20c0:8
$ 10
armcaps: elf: kind 5 no-table
== the name of the table twice
number 1 ALWAYS_SYSTEM
image 8512
2080:7
$ 10
armcaps: elf: kind 6 two-tables
== a table in the text
number 1 ALWAYS_SYSTEM
image 8512
20d0:80000000
$ 10
armcaps: elf: kind 7 overlap
== a table 128 MiB behind the text
number 1 ALWAYS_SYSTEM
image 8512
20d0:88000000
$ 10
armcaps: elf: kind 8 span
== a table of 13 bytes
number 1 ALWAYS_SYSTEM
image 8512
20e0:d
$ 10
armcaps: elf: kind 9 table-size
== a line of a table
number 1 ALWAYS_SYSTEM
table 0 1
image 8512
2000:fffef000
$ 10
armcaps: elf: kind 10 table-line
== a line of a table without entries
number 1 ALWAYS_SYSTEM
table 8 0
image 8512
0:464c457f
$ 0
1100:94000200
== a site outside of the flat image
number 1 ALWAYS_SYSTEM
image 8512
2000:fffef000
$ 8
armcaps: patch: entry 0: kind 3 site-outside
== a site that ends at a hole
number 1 ALWAYS_SYSTEM
image 8512
20d0:80002000 2000:ffffeff8 2004:ffffe7fc 2008:8080001
$ 0
1ff8:97fffe42
== a site that ends in a hole
number 1 ALWAYS_SYSTEM
image 8512
20d0:80002000 2000:ffffeffc 2004:ffffe7fc 2008:8080001
$ 10
armcaps: elf: entry 0: kind 11 site
== a replacement that ends at a hole
number 1 ALWAYS_SYSTEM
image 8512
20d0:80002000 2000:ffffe100 2004:ffffeff8 2008:4040001 1ffc:d503201f
$ 0
1100:d503201f
== a replacement that ends in a hole
number 1 ALWAYS_SYSTEM
image 8512
20d0:80002000 2000:ffffe100 2004:ffffeff8 2008:8080001
$ 10
armcaps: elf: entry 0: kind 12 replacement
== a replacement in a hole
number 1 ALWAYS_SYSTEM
image 8512
20d0:80002000 2000:ffffe100 2004:ffffeffc
$ 10
armcaps: elf: entry 0: kind 12 replacement
== a site and a replacement in a hole
number 1 ALWAYS_SYSTEM
image 8512
20d0:80002000 2000:fffff000 2004:ffffeffc
$ 10
armcaps: elf: entry 0: kind 11 site
== a site in a hole that is not selected
number 1 HAS_LSE_ATOMICS
image 8512
20d0:80002000 2000:fffff000 2004:ffffeffc
$ 0

== a callback in a hole
number 1 ALWAYS_SYSTEM
callback 0x1000 nops
image 8512
20d0:80002000 2000:ffffe100 2004:ffffeffc 2008:48001
$ 0
1100:d503201f
== no instruction at the end of the flat image
number 1 ALWAYS_SYSTEM
image 8512
2000:c 2004:8 2008:1
$ 0

== a second site in a hole
number 1 ALWAYS_SYSTEM
image 8512
20a0:f00 20d0:80002000 20d8:1f00 20e0:18 1f00:ffffe100 1f04:ffffe7fc 1f08:4040001 1f0c:ffffeef4 1f10:ffffe7f0 1f14:4040001
$ 10
armcaps: elf: entry 1: kind 11 site
== a site in a hole, and a second entry that is refused
number 1 ALWAYS_SYSTEM
image 8512
20a0:f00 20d0:80002000 20d8:1f00 20e0:18 1f00:fffff000 1f04:ffffe7fc 1f08:4040001 1f0c:ffffeef4 1f10:ffffe7f0 1f14:4040063
$ 8
armcaps: patch: entry 1: kind 1 unknown-cap
== a table below the text
number 1 ALWAYS_SYSTEM
image 8512
20d0:7ffff000 2000:1100 2004:17fc
$ 0
1100:94000200
== zeros
number 1 ALWAYS_SYSTEM
image 8512
0:0
$ 10
armcaps: elf: kind 1 header
";

// The small file, in which these words are others.
fn file(alloc: Global, words: &str) -> Result<Vec<u8>, Fail> {
    let mut file = Vec::from_elem(alloc, 0_u8, 8512)?;
    let names = b"\0.text\0.altinstructions\0.shstrtab\0";
    for (byte, new) in file.iter_mut().skip(NAMES).zip(names) {
        *byte = *new;
    }
    put(&mut file, FILE)?;
    put(&mut file, words)?;
    Ok(file)
}

// The same document in the second format.
fn second(alloc: Global, input: &[u8]) -> Result<Vec<u8>, AllocError> {
    let mut input = input.to_vec(alloc)?;
    if let Some(digit) = input.get_mut(8) {
        *digit = b'2';
    }
    Ok(input)
}

// Compares the answers of a row in both formats.
fn file_holds(rt: &impl Abort, alloc: Global, row: &str) -> Result<(), Fail> {
    let (name, rest) = row.split_once('\n').ok_or("no name")?;
    let (given, answer) = rest.split_once("$ ").ok_or("no answer")?;
    let (text, words) = given.split_once("image 8512\n").ok_or("no file")?;
    let (status, text_after) = answer.split_once('\n').ok_or("no status")?;
    let lines = format!(in alloc; "{text}image 8512\n")?;
    let mut image = file(alloc, words)?;
    let input = document(alloc, &lines, &image)?;
    for input in [input.to_vec(alloc)?, second(alloc, &input)?] {
        let ran = run_on(alloc, "elf", &input)?;
        if status == "0" {
            put(&mut image, text_after)?;
            ended(rt, name, &ran, 0, &image, "");
        } else {
            ended(rt, name, &ran, status.parse()?, b"", text_after);
        }
    }
    Ok(())
}

/// Files that are patched, and that are not.
#[test]
fn files(rt: HostRuntime) -> Result<(), Fail> {
    for row in FILES.split("== ").skip(1) {
        file_holds(&rt, rt.alloc(), row)?;
    }
    Ok(())
}

/// A document without an image has no ELF file.
#[test]
fn no_file(rt: HostRuntime) -> Result<(), Fail> {
    let ran = run_on(rt.alloc(), "elf", ONE_CORE.as_bytes())?;
    ended(
        &rt,
        "no image",
        &ran,
        10,
        b"",
        "armcaps: elf: kind 1 header\n",
    );
    Ok(())
}

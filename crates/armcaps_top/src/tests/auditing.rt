//! Whether an image is the document's own, patched for its machine.

use super::patching::{document, put};
use super::{ended, run_from, run_on, sink};
use armcaps_io::{MemSink, SureSource};
use std::alloc::{AllocError, Global};
use std::process::Abort;
use std::test::Fail;

/// Rows as those of patched images: lines after `finalise`, and of the image the words that are not 0; and then, for
/// each image that is judged, `yes` or the first byte that differs, with the words in which it differs from the
/// document's own.
const JUDGED: &str = "== a call and a jump to the end of the replacement
number 1 ALWAYS_SYSTEM
table 0 1
image 12288
0:100 4:1ffc 8:8080001 2000:94000400 2004:14000001
$ yes
100:94000bc0 104:14000001
$ 256
100:94000bc1 104:14000001
$ 256

$ 256
100:94000400 104:14000001
$ 259
100:14000bc0 104:14000001
$ 260
100:94000bc0 104:140007c1
$ 0
0:101 100:94000bc0 104:14000001
$ 8192
100:94000bc0 104:14000001 2000:94000bc0
$ 12287
100:94000bc0 104:14000001 2ffc:80000000
== an address of a page
number 1 ALWAYS_SYSTEM
table 0 1
image 12288
0:100 4:200c 8:4040001 2010:f0000000
$ yes
100:b0000020
$ 256
100:b0000021
$ 259
100:d0000020
$ 256
100:f0000000
== the cache type of the machine
number 1 ALWAYS_SYSTEM
callback 0x2000 final_ctr
table 0 1
image 12288
0:100 4:1ffc 8:108001 100:d53b0023
$ yes
100:d2900083 104:f2b08883 108:f2c00003 10c:f2e00003
$ 268
100:d2900083 104:f2b08883 108:f2c00003 10c:f2e00004
$ 260
100:d2900083 104:f2b08884 108:f2c00004 10c:f2e00003
== two entries at one site
number 1 ALWAYS_SYSTEM
table 0 2
image 12288
0:100 4:1ffc 8:8080001 c:f8 10:1ff8 14:4040001 2000:d503201f 2004:d503201f 2008:d4000003
$ yes
100:d503201f 104:d4000003
$ 260
100:d503201f 104:d503201f
$ 256
100:d4000003 104:d503201f
$ 262
100:d503201f 104:d4010003
== a site in the table
number 1 ALWAYS_SYSTEM
table 0 1
image 12288
0:8 4:1ffc 8:4040001 2000:d503201f
$ yes
8:d503201f
$ 8

$ 0
0:9 8:d503201f
== a second entry that is not selected
number 1 ALWAYS_SYSTEM
number 2 HAS_LSE_ATOMICS
table 0 2
image 12288
0:100 4:1ffc 8:8080001 c:f8 10:1ff8 14:40002 2000:d503201f 2004:d503201f 2008:d4000003
$ yes
100:d503201f 104:d503201f
$ 260
100:d503201f 104:d4000003
== a call of the hypervisor
number 1 ALWAYS_SYSTEM
conduit hvc
callback 0x2000 conduit
table 0 1
image 12288
0:100 4:1ffc 8:48001 100:12345678
$ yes
100:d4000002
$ 256
100:d4000003
== a call of nothing
number 1 ALWAYS_SYSTEM
callback 0x2000 conduit
table 0 1
image 12288
0:100 4:1ffc 8:48001 100:12345678
$ yes

$ 256
100:d4000002
== nothing in place of an instruction
number 1 ALWAYS_SYSTEM
callback 0x2000 nops
table 0 1
image 12288
0:100 4:1ffc 8:48001 100:12345678
$ yes
100:d503201f
$ 256

== an instruction that is kept
number 1 ALWAYS_SYSTEM
callback 0x2000 keep
table 0 1
image 12288
0:100 4:1ffc 8:48001 100:12345678
$ yes

$ 256
100:d503201f
";

// The input of a document whose image has these lines, and another image behind it.
fn pair(alloc: Global, lines: &str, image: &[u8], judged: &[u8]) -> Result<Vec<u8>, AllocError> {
    let mut input = document(alloc, lines, image)?;
    input.extend_from_slice(judged)?;
    Ok(input)
}

// Compares what is said of an image that is judged, in a format.
fn verdict_holds(
    rt: &impl Abort,
    alloc: Global,
    row: (&str, u8),
    given: (&str, &[u8]),
    answer: &str,
) -> Result<(), Fail> {
    let (name, format) = row;
    let (lines, image) = given;
    let (place, words) = answer.split_once('\n').ok_or("no line")?;
    let mut judged = image.to_vec(alloc)?;
    put(&mut judged, words)?;
    let mut input = pair(alloc, lines, image, &judged)?;
    if let Some(byte) = input.get_mut(8) {
        *byte = format;
    }
    let ran = run_on(alloc, "audit", &input)?;
    if place == "yes" {
        ended(rt, name, &ran, 0, b"yes\n", "");
    } else {
        let place: u32 = place.parse()?;
        let line = format!(in alloc; "armcaps: audit: byte {place}\n")?;
        ended(rt, name, &ran, 12, b"", &line);
    }
    Ok(())
}

// Compares what is said of each image of a row, in both formats.
fn verdicts_hold(rt: &impl Abort, alloc: Global, row: &str) -> Result<(), Fail> {
    let (name, rest) = row.split_once('\n').ok_or("no name")?;
    let mut parts = rest.split("$ ");
    let given = parts.next().ok_or("no image")?;
    let (text, words) = given.split_once("image 12288\n").ok_or("no image")?;
    let lines = format!(in alloc; "{text}image 12288\n")?;
    let mut image = Vec::from_elem(alloc, 0_u8, 12_288)?;
    put(&mut image, words)?;
    for answer in parts {
        for format in [b'1', b'2'] {
            verdict_holds(rt, alloc, (name, format), (&lines, &image), answer)?;
        }
    }
    Ok(())
}

/// Images that are the patched ones, and that are not.
#[test]
fn verdicts(rt: HostRuntime) -> Result<(), Fail> {
    for row in JUDGED.split("== ").skip(1) {
        verdicts_hold(&rt, rt.alloc(), row)?;
    }
    Ok(())
}

/// Images of few bytes, and each bit of the second one changed.
#[test]
fn few_bytes(rt: HostRuntime) -> Result<(), Fail> {
    let alloc = rt.alloc();
    for length in 0..8_usize {
        let lines = format!(in alloc; "image {length}\n")?;
        let image = Vec::from_elem(alloc, 0x5a_u8, length)?;
        let input = pair(alloc, &lines, &image, &image)?;
        ended(
            &rt,
            &lines,
            &run_on(alloc, "audit", &input)?,
            0,
            b"yes\n",
            "",
        );
        for bit in 0..8 * length {
            let mut judged = image.to_vec(alloc)?;
            if let Some(byte) = judged.get_mut(bit / 8) {
                *byte ^= 1 << (bit % 8);
            }
            let line = format!(in alloc; "armcaps: audit: byte {}\n", bit / 8)?;
            let input = pair(alloc, &lines, &image, &judged)?;
            ended(
                &rt,
                &lines,
                &run_on(alloc, "audit", &input)?,
                12,
                b"",
                &line,
            );
        }
    }
    Ok(())
}

/// What is refused: bytes that are too few or too many for two images, a text, an entry, and a step that stops the
/// machine.
#[test]
fn refused_before(rt: HostRuntime) -> Result<(), Fail> {
    let alloc = rt.alloc();
    let image = Vec::from_elem(alloc, 0_u8, 12_288)?;
    let lines = "image 12288\n";
    let whole = pair(alloc, lines, &image, &image)?;
    let short = whole
        .get(..whole.len().saturating_sub(1))
        .ok_or("no input")?;
    let line = "armcaps: image short: 24575 of 24576 bytes\n";
    ended(&rt, "short", &run_on(alloc, "audit", short)?, 3, b"", line);
    let one = document(alloc, lines, &image)?;
    let line = "armcaps: image short: 12288 of 24576 bytes\n";
    ended(&rt, "one", &run_on(alloc, "audit", &one)?, 3, b"", line);
    let longer = pair(alloc, lines, &image, &Vec::from_elem(alloc, 0_u8, 12_290)?)?;
    let line = "armcaps: trailing bytes: 2\n";
    ended(
        &rt,
        "longer",
        &run_on(alloc, "audit", &longer)?,
        3,
        b"",
        line,
    );
    let none = document(alloc, "end\n", b"")?;
    ended(
        &rt,
        "none",
        &run_on(alloc, "audit", &none)?,
        0,
        b"yes\n",
        "",
    );
    let text = pair(alloc, "number 1 ALWAYS\nimage 12288\n", &image, &image)?;
    let line = "armcaps: line 6: kind 8 name\n";
    ended(&rt, "text", &run_on(alloc, "audit", &text)?, 3, b"", line);
    let mut table = image.to_vec(alloc)?;
    put(&mut table, "0:100 4:200c 8:4040001 2010:58000040")?;
    let lines = "number 1 ALWAYS_SYSTEM\ntable 0 1\nimage 12288\n";
    let entry = pair(alloc, lines, &table, &image)?;
    let line = "armcaps: patch: entry 0: kind 8 literal\n";
    ended(&rt, "entry", &run_on(alloc, "audit", &entry)?, 8, b"", line);
    let stop =
        "armcaps 1\ncore 0\nid_aa64mmfr0_el1 0x20\ncore 1\nboot 0\nonline 1\nfinalise\nimage 1\nab";
    let ran = run_on(alloc, "audit", stop.as_bytes())?;
    ended(&rt, "stop", &ran, 7, b"", "armcaps: panic: core 1: asid\n");
    assert_eq!(rt; ran.machines.len(), 1);
    Ok(())
}

/// An output that is cut off holds a first part of the line.
#[test]
fn line_cut_off(rt: HostRuntime) -> Result<(), Fail> {
    let alloc = rt.alloc();
    let mut input = SureSource::new(pair(alloc, "image 2\n", b"ab", b"ab")?, 4093);
    let out = MemSink::new(alloc, 2, 64, Vec::new(alloc))?;
    let ran = run_from(alloc, "audit", &mut input, out, sink(alloc)?)?;
    ended(&rt, "cut off", &ran, 5, b"ye", "armcaps: write fault\n");
    assert_eq!(rt; ran.machines.len(), 1);
    Ok(())
}

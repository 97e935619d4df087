//! The image of a document, patched for its machine, with its jump labels applied.

use super::patching::{document, put};
use super::{USAGE, ended, run_from, run_on, sink};
use armcaps_io::{MemSink, SureSource};
use std::alloc::Global;
use std::process::Abort;
use std::test::Fail;

/// Rows as those of patched images: lines after `finalise`, the words of the image that are not 0, and then for
/// each command its status with the words that change, or with the line on the error stream. The table of most of
/// them stands at 200, and its first entry has its code at 100, its target at 180 and its key at 300.
const LABELS: &str = "== a key that is on
image 4096
200:ffffff00 204:ffffff7c 208:f8 300:1
$ 0 jump 512 1
100:14000020
$ 0 jump 0x200 0x1
100:14000020
$ 0 jump 00000000000000000512 0x0000000000000001
100:14000020
$ 0 jump 512 0

$ 0 jump 4096 0

$ 0 patch

$ 11 jump 4097 0
armcaps: jump: table outside
$ 11 jump 4096 1
armcaps: jump: table outside
$ 11 jump 536870912 1048576
armcaps: jump: table outside
$ 11 jump 0x20000000 0x100000
armcaps: jump: table outside
== a key that is on, and a branch where it is off
image 4096
200:ffffff00 204:ffffff7c 208:f9 300:1
$ 0 jump 512 1
100:d503201f
== a key that is off
image 4096
100:14000020 200:ffffff00 204:ffffff7c 208:f8
$ 0 jump 512 1
100:d503201f
== a key that is off, and a branch where it is off
image 4096
200:ffffff00 204:ffffff7c 208:f9
$ 0 jump 512 1
100:14000020
== a key that is below 0, and a flag that is passed over
image 4096
200:ffffff00 204:ffffff7c 208:fa 300:80000000
$ 0 jump 512 1
100:d503201f
== a target that no branch has
image 4096
200:ffffff00 204:7ffffffc 208:f8 300:1
$ 11 jump 512 1
armcaps: jump: entry 0: kind 3 branch
== a target that no branch has, where none is wanted
image 4096
200:ffffff00 204:7ffffffc 208:f8
$ 0 jump 512 1
100:d503201f
== code that is no word
image 4096
200:ffffff01 204:ffffff7c 208:f8 300:1
$ 11 jump 512 1
armcaps: jump: entry 0: kind 1 code
== a key far outside, and a second entry that is the table's first
image 4096
200:ffffff00 204:ffffff7c 208:fffffff8 20c:7fffffff 210:fffffef0 214:ffffff6c 218:e8 300:1
$ 11 jump 512 1
armcaps: jump: entry 0: kind 2 key
$ 0 jump 528 1
100:14000020
== a second entry that is refused, and one with the code of the first
image 4096
200:ffffff00 204:ffffff7c 208:f8 210:fffffef1 214:ffffff6c 218:e8 220:fffffee0 224:ffffff6c 228:dc 300:1
$ 11 jump 512 2
armcaps: jump: entry 1: kind 1 code
$ 11 jump 512 3
armcaps: jump: entry 1: kind 1 code
$ 0 jump 544 1
100:d503201f
$ 0 jump 512 1
100:14000020
== the last word of an image whose length is no multiple of 4
image 4098
200:dfc 204:dfc 208:f8 210:df0 214:df0 218:e8 300:1
$ 0 jump 512 1
ffc:14000001
$ 11 jump 512 2
armcaps: jump: entry 1: kind 1 code
== an alternative sets the key, and the label is over the alternative of its code
number 1 ALWAYS_SYSTEM
table 0 2
image 12288
0:300 4:1ffc 8:4040001 c:f4 10:1ff4 14:4040001 2000:1 2004:2 200:ffffff00 204:ffffff7c 208:f8
$ 0 jump 512 1
100:14000020 300:1
$ 0 jump 512 0
100:2 300:1
$ 0 patch
100:2 300:1
== an alternative takes the key away
number 1 ALWAYS_SYSTEM
table 0 1
image 12288
0:300 4:1ffc 8:4040001 200:ffffff00 204:ffffff7c 208:f8 300:1
$ 0 jump 512 1
100:d503201f 300:0
== an alternative that is not selected
number 1 HAS_LSE_ATOMICS
table 0 1
image 12288
0:300 4:1ffc 8:4040001 200:ffffff00 204:ffffff7c 208:f8 300:1
$ 0 jump 512 1
100:14000020
== an alternative over a word of the table
number 1 ALWAYS_SYSTEM
table 0 1
image 12288
0:208 4:1ffc 8:4040001 2000:f9 200:ffffff00 204:ffffff7c 208:f8 300:1
$ 0 jump 512 1
100:d503201f 208:f9
$ 11 jump 508 1
armcaps: jump: entry 0: kind 2 key
== an alternative that is refused before a label is
number 1 ALWAYS_SYSTEM
table 0 1
image 12288
0:100 4:200c 8:4040001 2010:58000040 200:ffffff01
$ 8 jump 512 1
armcaps: patch: entry 0: kind 8 literal
$ 8 jump 12288 1
armcaps: patch: entry 0: kind 8 literal
== a document that is refused before the table is
number 1 ALWAYS_SYSTEM
number 1 ALWAYS_SYSTEM
image 4096
200:ffffff01
$ 3 jump 4096 1
armcaps: line 7: kind 9 twice
";

/// Words that are no form of `jump`.
const NO_FORMS: &str =
    "jump;jump 0;jump 0 0 0;jump 536870913 0;jump 0 1048577;jump 0x20000001 0;jump 0 0x100001;\
    jump 000000000000000000512 1;jump 0x00000000000000200 1;jump 512 000000000000000000001;\
    jump 512 0x00000000000000001;jump 0X200 1;jump 0x 1;jump 512 0x;jump -1 1;jump +1 1;jump 1_0 1;jump 12a 1;\
    jump 512 1g;jump 4294967808 1;jump 512 4294967297;jump 18446744073709552128 1;jump 18446744073709551615 0;\
    jumps 512 1;Jump 512 1";

// Compares an answer of a row in a format: a command's status, and the words that change, or the line on the error
// stream.
fn label_holds(
    rt: &impl Abort,
    alloc: Global,
    row: (&str, u8),
    given: (&str, &[u8]),
    answer: &str,
) -> Result<(), Fail> {
    let (name, format) = row;
    let (lines, image) = given;
    let (head, text) = answer.split_once('\n').ok_or("no line")?;
    let (status, line) = head.split_once(' ').ok_or("no words")?;
    let mut input = document(alloc, lines, image)?;
    if let Some(byte) = input.get_mut(8) {
        *byte = format;
    }
    let ran = run_on(alloc, line, &input)?;
    if status == "0" {
        let mut patched = image.to_vec(alloc)?;
        put(&mut patched, text)?;
        ended(rt, name, &ran, 0, &patched, "");
    } else {
        ended(rt, name, &ran, status.parse()?, b"", text);
    }
    Ok(())
}

// Compares the answers of a row.
fn labels_hold(rt: &impl Abort, alloc: Global, row: &str) -> Result<(), Fail> {
    let (name, rest) = row.split_once('\n').ok_or("no name")?;
    let mut parts = rest.split("$ ");
    let given = parts.next().ok_or("no image")?;
    let (head, words) = given.rsplit_once("image ").ok_or("no image")?;
    let (length, words) = words.split_once('\n').ok_or("no words")?;
    let lines = format!(in alloc; "{head}image {length}\n")?;
    let mut image = Vec::from_elem(alloc, 0_u8, length.parse()?)?;
    put(&mut image, words)?;
    for answer in parts {
        for format in [b'1', b'2'] {
            label_holds(rt, alloc, (name, format), (&lines, &image), answer)?;
        }
    }
    Ok(())
}

/// Images with their jump labels applied, and images and tables that are refused.
#[test]
fn labels(rt: HostRuntime) -> Result<(), Fail> {
    for row in LABELS.split("== ").skip(1) {
        labels_hold(&rt, rt.alloc(), row)?;
    }
    Ok(())
}

/// Words that are no form.
#[test]
fn no_forms(rt: HostRuntime) -> Result<(), Fail> {
    let alloc = rt.alloc();
    let input = document(alloc, "image 4096\n", &[0; 4096])?;
    for line in NO_FORMS.split(';') {
        ended(&rt, line, &run_on(alloc, line, &input)?, 2, b"", USAGE);
    }
    Ok(())
}

/// An output that is cut off holds a first part of the image with its labels, in which the label is.
#[test]
fn output_cut_off(rt: HostRuntime) -> Result<(), Fail> {
    let alloc = rt.alloc();
    let mut image = Vec::from_elem(alloc, 0_u8, 4096)?;
    put(&mut image, "200:ffffff00 204:ffffff7c 208:f8 300:1")?;
    let mut input = SureSource::new(document(alloc, "image 4096\n", &image)?, 4093);
    let out = MemSink::new(alloc, 0x104, 64, Vec::new(alloc))?;
    let ran = run_from(alloc, "jump 512 1", &mut input, out, sink(alloc)?)?;
    put(&mut image, "100:14000020")?;
    let part = image.get(..0x104).ok_or("no image")?;
    ended(&rt, "cut off", &ran, 5, part, "armcaps: write fault\n");
    assert_eq!(rt; ran.machines.len(), 1);
    Ok(())
}

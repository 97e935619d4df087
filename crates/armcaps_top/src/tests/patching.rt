//! The image of a document, patched for its machine.

use super::{ended, run_on};
use std::alloc::{AllocError, Global};
use std::process::Abort;
use std::test::Fail;

/// Rows as those of worked machines, each a document after `finalise`, and of its image the words that are not 0, as
/// `PLACE:WORD` in hexadecimal; then the words that change, or the line on the error stream.
const IMAGES: &str = "== a call and a jump to the end of the replacement
number 1 ALWAYS_SYSTEM
table 0 1
image 12288
0:100 4:1ffc 8:8080001 2000:94000400 2004:14000001
$ 0 patch
100:94000bc0 104:14000001
== an address of a page
number 1 ALWAYS_SYSTEM
table 0 1
image 12288
0:100 4:200c 8:4040001 2010:f0000000
$ 0 patch
100:b0000020
== a literal load
number 1 ALWAYS_SYSTEM
table 0 1
image 12288
0:100 4:200c 8:4040001 2010:58000040
$ 8 patch
armcaps: patch: entry 0: kind 8 literal
== a branch that would not reach its target
number 1 ALWAYS_SYSTEM
table 0 1
image 12288
0:100 4:200c 8:4040001 2010:3603ff80
$ 8 patch
armcaps: patch: entry 0: kind 9 range
== the cache type of the machine
number 1 ALWAYS_SYSTEM
callback 0x2000 final_ctr
table 0 1
image 12288
0:100 4:1ffc 8:108001 100:d53b0023
$ 0 patch
100:d2900083 104:f2b08883 108:f2c00003 10c:f2e00003
== the cache type in three instructions
number 1 ALWAYS_SYSTEM
callback 0x2000 final_ctr
table 0 1
image 12288
0:100 4:1ffc 8:c8001 100:d53b0023
$ 8 patch
armcaps: patch: entry 0: kind 7 callback-length
== the cache type without its line
number 1 ALWAYS_SYSTEM
table 0 1
image 12288
0:100 4:1ffc 8:108001 100:d53b0023
$ 8 patch
armcaps: patch: entry 0: kind 6 unknown-callback
== two entries at one site
number 1 ALWAYS_SYSTEM
table 0 2
image 12288
0:100 4:1ffc 8:8080001 c:f8 10:1ff8 14:4040001 2000:d503201f 2004:d503201f 2008:d4000003
$ 0 patch
100:d503201f 104:d4000003
== a second entry that is not selected
number 1 ALWAYS_SYSTEM
number 2 HAS_LSE_ATOMICS
table 0 2
image 12288
0:100 4:1ffc 8:8080001 c:f8 10:1ff8 14:40002 2000:d503201f 2004:d503201f 2008:d4000003
$ 0 patch
100:d503201f 104:d503201f
== a second entry whose number has no name
number 1 ALWAYS_SYSTEM
table 0 2
image 12288
0:100 4:1ffc 8:8080001 c:f8 10:1ff8 14:40003 2000:d503201f 2004:d503201f 2008:d4000003
$ 8 patch
armcaps: patch: entry 1: kind 1 unknown-cap
== a call of the hypervisor
number 1 ALWAYS_SYSTEM
conduit hvc
callback 0x2000 conduit
table 0 1
image 12288
0:100 4:1ffc 8:48001 100:12345678
$ 0 patch
100:d4000002
== a call of the secure monitor
number 1 ALWAYS_SYSTEM
conduit smc
callback 0x2000 conduit
table 0 1
image 12288
0:100 4:1ffc 8:48001 100:12345678
$ 0 patch
100:d4000003
== a call of nothing
number 1 ALWAYS_SYSTEM
callback 0x2000 conduit
table 0 1
image 12288
0:100 4:1ffc 8:48001 100:12345678
$ 0 patch

== nothing in place of an instruction
number 1 ALWAYS_SYSTEM
callback 0x2000 nops
table 0 1
image 12288
0:100 4:1ffc 8:48001 100:12345678
$ 0 patch
100:d503201f
== an instruction that is kept
number 1 ALWAYS_SYSTEM
callback 0x2000 keep
table 0 1
image 12288
0:100 4:1ffc 8:48001 100:12345678
$ 0 patch

== a site over the end of a piece
number 1 ALWAYS_SYSTEM
table 0 1
image 12288
0:ffc 4:17fc 8:8080001 1800:d503201f 1804:9400003f
$ 0 patch
ffc:d503201f 1000:94000240
";

/// The entry of a table, and how it is refused where it is.
const ENTRIES: [([u32; 3], &str); 10] = [
    ([0xffff_ffff, 0x1ffc, 0x0808_0001], "kind 2 unaligned"),
    ([0x8000_0000, 0x1ffc, 0x0808_0001], "kind 3 site-outside"),
    ([0x2f10, 0x1ffc, 0xfcfc_0001], "kind 3 site-outside"),
    ([0x100, 0x1ffc, 0xffff_0001], "kind 2 unaligned"),
    ([0x100, 0x1ffc, 0xff08_0001], "kind 4 length"),
    ([0x100, 0x2ff8, 0x0808_0001], "kind 5 replacement-outside"),
    (
        [0x100, 0x7fff_fffc, 0x0808_0001],
        "kind 5 replacement-outside",
    ),
    ([0x100, 0x1ffc, 0x0808_7fff], "kind 1 unknown-cap"),
    ([0x100, 0x1ffc, 0x0008_8001], "kind 6 unknown-callback"),
    ([0x100, 0x1ffc, 0x0000_0001], ""),
];

// Puts a word at a place of an image.
fn put_word(image: &mut [u8], place: usize, word: u32) {
    for (byte, new) in image.iter_mut().skip(place).zip(word.to_le_bytes()) {
        *byte = new;
    }
}

// Puts words at places of an image.
pub fn put(image: &mut [u8], words: &str) -> Result<(), Fail> {
    for entry in words.split_whitespace() {
        let (place, word) = entry.split_once(':').ok_or("no place")?;
        let place = usize::from_str_radix(place, 16)?;
        put_word(image, place, u32::from_str_radix(word, 16)?);
    }
    Ok(())
}

// A document of one core that has these lines after `finalise`, with its image.
pub fn document(alloc: Global, lines: &str, image: &[u8]) -> Result<Vec<u8>, AllocError> {
    let text = format!(in alloc;
        "armcaps 1\ncore 0\nctr_el0 0x84448004\nboot 0\nfinalise\n{lines}"
    )?;
    let mut bytes = text.as_bytes().to_vec(alloc)?;
    bytes.extend_from_slice(image)?;
    Ok(bytes)
}

// Compares the answer of a row.
fn image_holds(rt: &impl Abort, alloc: Global, row: &str) -> Result<(), Fail> {
    let (name, rest) = row.split_once('\n').ok_or("no name")?;
    let (given, answer) = rest.split_once("$ ").ok_or("no answer")?;
    let (text, words) = given.split_once("image 12288\n").ok_or("no image")?;
    let lines = format!(in alloc; "{text}image 12288\n")?;
    let mut image = Vec::from_elem(alloc, 0_u8, 12_288)?;
    put(&mut image, words)?;
    let ran = run_on(alloc, "patch", &document(alloc, &lines, &image)?)?;
    match answer.strip_prefix("0 patch\n") {
        Some(changes) => {
            put(&mut image, changes)?;
            ended(rt, name, &ran, 0, &image, "");
        }
        None => {
            let line = answer.strip_prefix("8 patch\n").ok_or("no status")?;
            ended(rt, name, &ran, 8, b"", line);
        }
    }
    Ok(())
}

/// Images that are patched, and that are not.
#[test]
fn images(rt: HostRuntime) -> Result<(), Fail> {
    for row in IMAGES.split("== ").skip(1) {
        image_holds(&rt, rt.alloc(), row)?;
    }
    Ok(())
}

/// Each entry alone in a table, where the replacement of the first row stands; the last one has no instruction.
#[test]
fn entries(rt: HostRuntime) -> Result<(), Fail> {
    let alloc = rt.alloc();
    for (words, kind) in ENTRIES {
        let [site, repl, rest] = words;
        let mut image = Vec::from_elem(alloc, 0_u8, 12_288)?;
        let entry = format!(in alloc;
            "0:{site:x} 4:{repl:x} 8:{rest:x} 2000:94000400 2004:14000001"
        )?;
        put(&mut image, &entry)?;
        let lines = "number 1 ALWAYS_SYSTEM\ntable 0 1\nimage 12288\n";
        let ran = run_on(alloc, "patch", &document(alloc, lines, &image)?)?;
        if kind.is_empty() {
            ended(&rt, kind, &ran, 0, &image, "");
        } else {
            let line = format!(in alloc; "armcaps: patch: entry 0: {kind}\n")?;
            ended(&rt, kind, &ran, 8, b"", &line);
        }
    }
    Ok(())
}

// Adds two words, time and again.
fn extend(image: &mut Vec<u8>, words: [u32; 2], count: usize) -> Result<(), AllocError> {
    let [first, second] = words;
    for _ in 0..count {
        image.extend_from_slice(&first.to_le_bytes())?;
        image.extend_from_slice(&second.to_le_bytes())?;
    }
    Ok(())
}

// An image whose table has two thousand entries, each with a site of one word and with a replacement that does nothing.
fn large_image(alloc: Global, sites: [u32; 2]) -> Result<Vec<u8>, AllocError> {
    let mut image = Vec::new(alloc);
    for index in 0..2000_u32 {
        image.extend_from_slice(&(0x8000 - 8 * index).to_le_bytes())?;
        image.extend_from_slice(&(0xfffc - 8 * index).to_le_bytes())?;
        image.extend_from_slice(&(0x0404_0064 + index % 40).to_le_bytes())?;
    }
    image.resize(0x8000, 0)?;
    extend(&mut image, sites, 1000)?;
    image.resize(0x1_0000, 0)?;
    extend(&mut image, [0xd503_201f, 0xd503_201f], 1000)?;
    image.resize(131_072, 0)?;
    Ok(image)
}

/// Two thousand entries with forty numbers, of which every other one is given as on.
#[test]
fn large_table(rt: HostRuntime) -> Result<(), Fail> {
    let alloc = rt.alloc();
    let mut lines = "number 1 ALWAYS_SYSTEM\n".to_string(alloc)?;
    for index in 0..20_u32 {
        let (even, odd) = (2 * index, 2 * index + 1);
        let given = format!(in alloc;
            "given {} FW_{even} on\ngiven {} FW_{odd} off\n",
            100 + even,
            100 + odd
        )?;
        lines.push_str(&given)?;
    }
    lines.push_str("table 0 2000\nimage 131072\n")?;
    let input = document(alloc, &lines, &large_image(alloc, [0, 0])?)?;
    let ran = run_on(alloc, "patch", &input)?;
    let patched = large_image(alloc, [0xd503_201f, 0])?;
    ended(&rt, "large", &ran, 0, &patched, "");
    Ok(())
}

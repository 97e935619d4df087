mod auditing;
mod demo;
mod elves;
mod error_lines;
mod jumping;
mod patching;
mod pooling;
mod rows;
mod streams;

use crate::run;
use armcaps_boot::{Boot, CoreState};
use armcaps_io::{MemSink, Source, SureSource};
use demo::NUMBERS;
use error_lines::ERROR_LINES;
use rows::MACHINES;
use std::alloc::{AllocError, Global};
use std::process::Abort;
use std::str::Lines;
use std::test::Fail;

const ONE_CORE: &str = "armcaps 1\ncore 0\nid_aa64isar0_el1 0x11120\nboot 0\nfinalise\nend\n";

const ONE_CORE_REPORT: &str = "armcaps report 1
core 0 boot
reg id_aa64pfr0_el1 0x0000000000000000
reg id_aa64pfr1_el1 0x0000000000000000
reg id_aa64zfr0_el1 0x0000000000000000
reg id_aa64smfr0_el1 0x0000000000000000
reg id_aa64dfr0_el1 0x0000000000000000
reg id_aa64isar0_el1 0x0000000000011120
reg id_aa64isar1_el1 0x0000000000000000
reg id_aa64isar2_el1 0x0000000000000000
reg id_aa64mmfr0_el1 0x0000000000000000
reg id_aa64mmfr1_el1 0x0000000000000000
reg id_aa64mmfr2_el1 0x0000000000000000
reg id_aa64mmfr3_el1 0x0000000000000000
reg ctr_el0 0x0000000000000000
reg dczid_el0 0x0000000000000000
user id_aa64pfr0_el1 0x0000000000000011
user id_aa64pfr1_el1 0x0000000000000000
user id_aa64zfr0_el1 0x0000000000000000
user id_aa64smfr0_el1 0x0000000000000000
user id_aa64dfr0_el1 0x0000000000000006
user id_aa64isar0_el1 0x0000000000011120
user id_aa64isar1_el1 0x0000000000000000
user id_aa64isar2_el1 0x0000000000000000
user id_aa64mmfr0_el1 0x00000000ff000000
user id_aa64mmfr1_el1 0x0000000000000000
user id_aa64mmfr2_el1 0x0000000000000000
user id_aa64mmfr3_el1 0x0000000000000000
user ctr_el0 0x0000000000000000
user dczid_el0 0x0000000000000000
cap 0 ALWAYS_BOOT
cap 1 ALWAYS_SYSTEM
cap 8 HAS_CRC32
cap 41 HAS_FPSIMD
hwcap 0x00000000000008fb
hwcap2 0x0000000000000000
flags fp asimd aes pmull sha1 sha2 crc32 cpuid
end
";

const USAGE: &str =
    "armcaps: usage: armcaps report | patch | mrs CORE WORD | demo SEED CORES | trace | elf \
    | jump OFFSET COUNT | pool | audit\n";

/// What a run answers, what its streams hold then, and the machines that it leaves.
#[derive(Drop)]
struct Ran {
    status: u8,
    out: MemSink,
    err: MemSink,
    machines: Vec<Boot>,
}

// Runs with the words of a line.
fn run_from<S: Source>(
    alloc: Global,
    line: &str,
    input: &mut S,
    mut out: MemSink,
    mut err: MemSink,
) -> Result<Ran, AllocError> {
    let mut words = Vec::new(alloc);
    for word in line.split_whitespace() {
        words.push(word.to_string(alloc)?)?;
    }
    let mut machines = Vec::new(alloc);
    let status = run(alloc, &words, input, &mut out, &mut err, &mut machines);
    Ok(Ran {
        status,
        out,
        err,
        machines,
    })
}

// A sink that does not fail, with room for all that is written here.
fn sink(alloc: Global) -> Result<MemSink, AllocError> {
    MemSink::new(alloc, 200_000, 4096, Vec::new(alloc))
}

// Runs with the words of a line on an input, and no stream fails.
fn run_on(alloc: Global, line: &str, input: &[u8]) -> Result<Ran, AllocError> {
    let mut input = SureSource::new(input.to_vec(alloc)?, 4093);
    run_from(alloc, line, &mut input, sink(alloc)?, sink(alloc)?)
}

// The run ended with this status, and wrote this.
fn ended(rt: &impl Abort, what: &str, ran: &Ran, status: u8, out: &[u8], err: &str) {
    assert_eq!(rt; ran.err.bytes(), err.as_bytes(), "{what}");
    assert_eq!(rt; ran.out.bytes(), out, "{what}");
    assert_eq!(rt; ran.status, status, "{what}");
}

// Whether a line stands among those that are left, up to which they are passed over; of a line after `!`, whether no
// line of the whole begins with the rest of it.
fn stands(whole: &str, left: &mut Lines<'_>, line: &str) -> bool {
    match line.strip_prefix('!') {
        Some(start) => !whole.lines().any(|other| other.starts_with(start)),
        None => left.any(|other| other == line),
    }
}

// Finds the lines one after the other.
fn lines_stand(rt: &impl Abort, whole: &str, lines: &str) {
    let mut left = whole.lines();
    for line in lines.lines() {
        assert!(rt; stands(whole, &mut left, line), "{line}: {whole}");
    }
}

// Compares what a command answers on an input with an answer of a row.
fn answers(
    rt: &impl Abort,
    alloc: Global,
    input: &str,
    head: (&str, &str),
    text: &str,
) -> Result<(), Fail> {
    let (answer, line) = head;
    let ran = run_on(alloc, line, input.as_bytes())?;
    if answer == "0" {
        ended(rt, input, &ran, 0, text.as_bytes(), "");
    } else if answer == "with" {
        assert_eq!(rt; ran.status, 0, "{input}");
        lines_stand(rt, std::str::from_utf8(ran.out.bytes())?, text);
    } else if answer == "like" {
        let other = run_on(alloc, line, text.as_bytes())?;
        assert_eq!(rt; other.status, 0, "{input}");
        ended(rt, input, &ran, 0, other.out.bytes(), "");
    } else {
        ended(rt, input, &ran, answer.parse()?, b"", text);
    }
    Ok(())
}

// Compares an answer of a row with what each of its commands answers.
fn answer_holds(rt: &impl Abort, alloc: Global, input: &str, answer: &str) -> Result<(), Fail> {
    let (head, text) = answer.split_once('\n').ok_or("no line")?;
    let (answer, lines) = head.split_once(' ').ok_or("no words")?;
    for line in lines.split(", ") {
        answers(rt, alloc, input, (answer, line), text)?;
    }
    Ok(())
}

// Compares each answer of a row.
fn row_holds(rt: &impl Abort, alloc: Global, row: &str) -> Result<(), Fail> {
    let (_name, rest) = row.split_once('\n').ok_or("no name")?;
    let mut parts = rest.split("$ ");
    let input = parts.next().ok_or("no input")?;
    for answer in parts {
        answer_holds(rt, alloc, input, answer)?;
    }
    Ok(())
}

/// The answers on worked machines.
#[test]
fn machines(rt: HostRuntime) -> Result<(), Fail> {
    for row in MACHINES.split("== ").skip(1) {
        row_holds(&rt, rt.alloc(), row)?;
    }
    Ok(())
}

/// The answers of `demo` on numbers, where the input is no document and not read.
#[test]
fn numbers(rt: HostRuntime) -> Result<(), Fail> {
    for row in NUMBERS.split("== ").skip(1) {
        row_holds(&rt, rt.alloc(), row)?;
    }
    Ok(())
}

/// The lines on the error stream, with their statuses.
#[test]
fn lines_of_statuses(rt: HostRuntime) -> Result<(), Fail> {
    for row in ERROR_LINES.split("== ").skip(1) {
        row_holds(&rt, rt.alloc(), row)?;
    }
    Ok(())
}

/// Words that are no form.
#[test]
fn usage(rt: HostRuntime) -> Result<(), Fail> {
    let lines =
        ";banana;reports;report report;patch 1;trace 1;elf 1;ELF;audit 1;audits;Audit;pool 1;pools;Pool;\
        mrs;mrs 0;mrs 0 12;mrs 0 0x;mrs 0 0X1f;mrs 0 0xg;mrs 0 0x123456789;\
        mrs 0x0 0x1f;mrs 0123456789 0x1f;mrs 0 0x1f 0;\
        demo;demo 1;demo 1 8 1;demo 1 0;demo 1 65;demo 1 008;demo 4294967296 8;demo 00000000001 8;demo 0x1 8";
    for line in lines.split(';') {
        let ran = run_on(rt.alloc(), line, ONE_CORE.as_bytes())?;
        ended(&rt, line, &ran, 2, b"", USAGE);
    }
    Ok(())
}

/// Every first part of a text is refused at the line that is unfinished.
#[test]
fn first_parts(rt: HostRuntime) -> Result<(), Fail> {
    let alloc = rt.alloc();
    let mut part = Vec::new(alloc);
    let mut line = 1_u32;
    for byte in ONE_CORE.bytes() {
        let err = format!(in alloc; "armcaps: line {line}: kind 2 unfinished\n")?;
        let ran = run_on(alloc, "report", &part)?;
        ended(&rt, &err, &ran, 3, b"", &err);
        part.push(byte)?;
        if byte == b'\n' {
            line = line.saturating_add(1);
        }
    }
    let ran = run_on(alloc, "report", &part)?;
    ended(&rt, "whole", &ran, 0, ONE_CORE_REPORT.as_bytes(), "");
    Ok(())
}

/// A comment without an end, in as many bytes as a text may have, and in one more.
#[test]
fn longest_text(rt: HostRuntime) -> Result<(), Fail> {
    let alloc = rt.alloc();
    let mut input = b"armcaps 1\n".to_vec(alloc)?;
    input.resize(1_048_576, b'#')?;
    let unfinished = "armcaps: line 2: kind 2 unfinished\n";
    let ran = run_on(alloc, "report", &input)?;
    ended(&rt, "1 MiB", &ran, 3, b"", unfinished);
    input.push(b'#')?;
    let too_long = "armcaps: line 2: kind 3 text-too-long\n";
    let ran = run_on(alloc, "report", &input)?;
    ended(&rt, "1 MiB and a byte", &ran, 3, b"", too_long);
    Ok(())
}

/// The machine that a run leaves.
#[test]
fn machine_left(rt: HostRuntime) -> Result<(), Fail> {
    let text =
        "armcaps 1\ncore 0\nctr_el0 0x8444c004\ncore 1\nctr_el0 0x84448004\nboot 0\nfinalise\nonline 1\nend\n";
    let ran = run_on(rt.alloc(), "trace", text.as_bytes())?;
    assert_eq!(rt; ran.machines.len(), 1);
    for boot in &ran.machines {
        assert!(rt; boot.is_final());
        assert_eq!(rt; boot.state(0), Some(CoreState::Admitted { late: false }));
        assert_eq!(rt; boot.state(1), Some(CoreState::Admitted { late: true }));
        assert_eq!(rt; boot.final_ctr(), 0x8444_c004);
    }
    let ran = run_on(rt.alloc(), "report", b"".as_slice())?;
    assert_eq!(rt; ran.machines.len(), 0);
    Ok(())
}

//! Sources and sinks that fail, and those without room.

use super::{ONE_CORE, ONE_CORE_REPORT, ended, run_from, sink};
use armcaps_io::{InFault, MemSink, MemSource, Source, SureSource};
use std::test::Fail;

/// A source of a byte a call, each of whose calls fails once; the call after the last is not made.
#[test]
fn read_faults(rt: HostRuntime) -> Result<(), Fail> {
    let alloc = rt.alloc();
    for call in 1..=64 {
        let what = format!(in alloc; "read {call}")?;
        let bytes = ONE_CORE.as_bytes().to_vec(alloc)?;
        let mut input = MemSource::new(bytes, 1, vec![in alloc; call]?);
        let ran = run_from(alloc, "report", &mut input, sink(alloc)?, sink(alloc)?)?;
        if call < 64 {
            ended(&rt, &what, &ran, 4, b"", "armcaps: read fault\n");
        } else {
            ended(&rt, &what, &ran, 0, ONE_CORE_REPORT.as_bytes(), "");
        }
    }
    Ok(())
}

/// What the faults of reading say, which no run writes.
#[test]
fn faults_of_reading(rt: HostRuntime) -> Result<(), Fail> {
    let told = [
        (InFault::Read, "read fault"),
        (InFault::TooLong { limit: 10 }, "longer than 10 bytes"),
        (InFault::Memory, "want of memory"),
    ];
    for (fault, text) in told {
        let said = format!(in rt.alloc(); "{fault}")?;
        assert_eq!(rt; said.as_str(), text);
    }
    Ok(())
}

/// A sink of seven bytes a call, each of whose calls fails once: it holds what was written before.
#[test]
fn write_faults(rt: HostRuntime) -> Result<(), Fail> {
    let alloc = rt.alloc();
    let mut written = Vec::new(alloc);
    for (call, piece) in (1_u64..1000).zip(ONE_CORE_REPORT.as_bytes().chunks(7)) {
        let what = format!(in alloc; "write {call}")?;
        let mut input = SureSource::new(ONE_CORE.as_bytes().to_vec(alloc)?, 4093);
        let out = MemSink::new(alloc, 4096, 7, vec![in alloc; call]?)?;
        let ran = run_from(alloc, "report", &mut input, out, sink(alloc)?)?;
        ended(&rt, &what, &ran, 5, &written, "armcaps: write fault\n");
        written.extend_from_slice(piece)?;
    }
    assert_eq!(rt; written.as_slice(), ONE_CORE_REPORT.as_bytes());
    Ok(())
}

/// An output without room for what is made of a number holds a first part of it; the machine is left, and the input is
/// as it was.
#[test]
fn output_cut_off(rt: HostRuntime) -> Result<(), Fail> {
    let alloc = rt.alloc();
    let mut input = SureSource::new(ONE_CORE.as_bytes().to_vec(alloc)?, 4093);
    let out = MemSink::new(alloc, 20, 16, Vec::new(alloc))?;
    let ran = run_from(alloc, "demo 1 1", &mut input, out, sink(alloc)?)?;
    ended(
        &rt,
        "20 bytes",
        &ran,
        5,
        b"armcaps demo 1 1\nadm",
        "armcaps: write fault\n",
    );
    assert_eq!(rt; ran.machines.len(), 1);
    let mut given = [0; 64];
    assert_eq!(rt; input.read(&mut given).unwrap_or(0), 62);
    Ok(())
}

/// An error stream without room changes no status.
#[test]
fn error_stream_without_room(rt: HostRuntime) -> Result<(), Fail> {
    let alloc = rt.alloc();
    for (line, status) in [("banana", 2), ("report", 3)] {
        let mut input = SureSource::new(b"banana\n".to_vec(alloc)?, 7);
        let err = MemSink::new(alloc, 0, 16, Vec::new(alloc))?;
        let ran = run_from(alloc, line, &mut input, sink(alloc)?, err)?;
        ended(&rt, line, &ran, status, b"", "");
    }
    Ok(())
}

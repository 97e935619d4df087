use crate::armcaps_run;
use std::alloc::Global;
use std::process::Abort;
use std::test::Fail;

const ONE_CORE: &[u8] = b"armcaps 1\ncore 0\nid_aa64isar0_el1 0x11120\nboot 0\nfinalise\nend\n";

/// What a call answers and tells.
#[derive(Clone, Copy)]
struct Called {
    status: u8,
    out_len: usize,
    err_len: usize,
}

// Calls with a line on the machine of one core.
fn call(alloc: Global, line: &[u8], out: &mut [u8], err: &mut [u8]) -> Called {
    let mut out_len = 7;
    let mut err_len = 7;
    let status = armcaps_run(alloc, line, ONE_CORE, out, &mut out_len, err, &mut err_len);
    Called {
        status,
        out_len,
        err_len,
    }
}

/// A line whose output has room, and has its place alone.
#[test]
fn output_with_room(rt: HostRuntime) -> Result<(), Fail> {
    let mut out = [46; 24];
    let mut err = [46; 8];
    let called = call(rt.alloc(), b" mrs  0 0xd5380600", &mut out, &mut err);
    assert_eq!(rt; called.status, 0);
    assert_eq!(rt; called.out_len, 22);
    assert_eq!(rt; called.err_len, 0);
    assert_eq!(rt; out.as_slice(), b"x0 0x0000000000011120\n..".as_slice());
    assert_eq!(rt; err.as_slice(), b"........".as_slice());
    Ok(())
}

/// One byte too little room: the length is told, and nothing is written.
#[test]
fn output_without_room(rt: HostRuntime) -> Result<(), Fail> {
    let mut out = [46; 21];
    let mut err = [46; 8];
    let called = call(rt.alloc(), b"mrs 0 0xd5380600", &mut out, &mut err);
    assert_eq!(rt; called.status, 5);
    assert_eq!(rt; called.out_len, 22);
    assert_eq!(rt; called.err_len, 0);
    assert_eq!(rt; out.as_slice(), b".....................".as_slice());
    Ok(())
}

/// A reason's line, which is cut to its room.
#[test]
fn line_cut_to_its_room(rt: HostRuntime) -> Result<(), Fail> {
    let mut out = [46; 4];
    let mut err = [46; 16];
    let called = call(rt.alloc(), b"mrs 1 0xd5380600", &mut out, &mut err);
    assert_eq!(rt; called.status, 9);
    assert_eq!(rt; called.out_len, 0);
    assert_eq!(rt; err.as_slice(), b"armcaps: mrs: co".as_slice());
    assert_eq!(rt; out.as_slice(), b"....".as_slice());
    Ok(())
}

/// A word that is no text, and words that are no form.
#[test]
fn words_that_are_none(rt: HostRuntime) -> Result<(), Fail> {
    let mut out = [46; 4];
    let mut err = [46; 4];
    let called = call(rt.alloc(), b"report \xff", &mut out, &mut err);
    assert_eq!(rt; called.status, 1);
    assert_eq!(rt; called.err_len, 0);
    assert_eq!(rt; err.as_slice(), b"....".as_slice());
    let called = call(rt.alloc(), b"report\t", &mut out, &mut err);
    assert_eq!(rt; called.status, 2);
    assert_eq!(rt; err.as_slice(), b"armc".as_slice());
    Ok(())
}

// Texts and what becomes of them.
mod refusing;
mod several;

use crate::{Format, Machine, TextKind, TextRefused, generate};
use armcaps_alt::{CallbackKind, Conduit, Layout, Named};
use armcaps_board::StepLine;
use armcaps_enc::SysReg;
use armcaps_tables::find;
use std::alloc::{AllocError, Global};
use std::fmt::Write;
use std::test::Fail;

// The line and the kind by which a text is refused.
fn refusal(alloc: Global, text: &[u8]) -> Option<(u32, TextKind)> {
    match Machine::read(alloc, text) {
        Err(TextRefused::Line { line, kind }) => Some((line, kind)),
        _ => None,
    }
}

// The lines under the header of a format.
fn under(alloc: Global, format: u32, lines: &str) -> Result<String, AllocError> {
    format!(in alloc; "armcaps {format}\n{lines}")
}

#[test]
fn wants_a_header(rt: HostRuntime) {
    for (text, line, kind) in [
        ("", 1, TextKind::Unfinished),
        ("armcaps 1", 1, TextKind::Unfinished),
        ("\n", 1, TextKind::Header),
        ("# armcaps 1\n", 1, TextKind::Header),
        ("armcaps 3\n", 1, TextKind::Header),
        ("armcaps 01\n", 1, TextKind::Header),
        ("armcaps 1 1\n", 1, TextKind::Header),
        ("armcaps 1\r\n", 1, TextKind::Header),
        (" armcaps  2 \n", 2, TextKind::Unfinished),
    ] {
        assert_eq!(rt;
            refusal(rt.alloc(), text.as_bytes()),
            Some((line, kind)),
            "{text}"
        );
    }
}

// Each beginning of a text of 62 bytes is cut off after its last line feed.
#[test]
fn cuts_off_each_beginning(rt: HostRuntime) {
    let text = b"armcaps 1\ncore 0\nid_aa64isar0_el1 0x11120\nboot 0\nfinalise\nend\n";
    let mut line = 1;
    for (count, byte) in text.iter().enumerate() {
        assert_eq!(rt;
            refusal(rt.alloc(), &text[..count]),
            Some((line, TextKind::Unfinished))
        );
        if *byte == b'\n' && line < 9 {
            line += 1;
        }
    }
    assert_eq!(rt; refusal(rt.alloc(), text.as_slice()), None);
}

// The header of a format and this many cores.
fn cores(alloc: Global, format: u32, count: u32) -> Result<String, AllocError> {
    let mut text = under(alloc, format, "")?;
    for core in 0..count {
        writeln!(text, "core {core}")?;
    }
    Ok(text)
}

#[test]
fn takes_as_many_cores_as_the_format_allows(rt: HostRuntime) -> Result<(), Fail> {
    for (format, count, refused) in [
        (1, 64, (66, TextKind::Unfinished)),
        (1, 65, (66, TextKind::TooMany)),
        (2, 512, (514, TextKind::Unfinished)),
        (2, 513, (514, TextKind::TooMany)),
    ] {
        let text = cores(rt.alloc(), format, count)?;
        assert_eq!(rt; refusal(rt.alloc(), text.as_bytes()), Some(refused));
    }
    let mut text = cores(rt.alloc(), 1, 64)?;
    text.push_str("core 70\n")?;
    assert_eq!(rt;
        refusal(rt.alloc(), text.as_bytes()),
        Some((66, TextKind::CoreNumber))
    );
    Ok(())
}

// A command line of this many bytes after the word and a space, the first of them a space.
fn commanded(alloc: Global, format: u32, count: u32) -> Result<String, AllocError> {
    let mut text = under(alloc, format, "core 0\nboot 0\ncmdline  ")?;
    for _ in 1..count {
        text.push_str("x")?;
    }
    text.push_str("\nfinalise\nend\n")?;
    Ok(text)
}

#[test]
fn takes_a_long_command_line(rt: HostRuntime) -> Result<(), Fail> {
    for format in [1, 2] {
        let text = commanded(rt.alloc(), format, 2048)?;
        assert_eq!(rt; refusal(rt.alloc(), text.as_bytes()), None);
        let text = commanded(rt.alloc(), format, 2049)?;
        assert_eq!(rt;
            refusal(rt.alloc(), text.as_bytes()),
            Some((4, TextKind::CmdlineTooLong))
        );
    }
    Ok(())
}

// A comment that does not end, up to the first mebibyte and one byte past it.
#[test]
fn takes_a_mebibyte(rt: HostRuntime) -> Result<(), Fail> {
    for header in ["armcaps 1\n", "armcaps 2\n"] {
        let mut text = header.as_bytes().to_vec(rt.alloc())?;
        for _ in 10..1_048_576 {
            text.push(b'#')?;
        }
        assert_eq!(rt;
            refusal(rt.alloc(), text.as_slice()),
            Some((2, TextKind::Unfinished))
        );
        text.push(b'#')?;
        assert_eq!(rt;
            refusal(rt.alloc(), text.as_slice()),
            Some((2, TextKind::TextTooLong))
        );
    }
    Ok(())
}

#[test]
fn reads_a_small_machine(rt: HostRuntime) -> Result<(), Fail> {
    let text = "armcaps 1\ncore 0\nid_aa64isar0_el1 0x11120\nboot 0\nfinalise\nend\n";
    let (machine, place) = Machine::read(rt.alloc(), text.as_bytes())?;
    assert_eq!(rt; place, text.len());
    assert_eq!(rt; machine.board.cores.len(), 1);
    assert_eq!(rt; machine.board.cores[0].get(SysReg::IdAa64Isar0El1), 0x11120);
    assert_eq!(rt; machine.board.cores[0].get(SysReg::CtrEl0), 0);
    assert_eq!(rt; machine.board.boot, 0);
    assert_eq!(rt; machine.steps.as_slice(), [StepLine::Finalise].as_slice());
    assert_eq!(rt; machine.names.conduit(), Conduit::None);
    assert_eq!(rt; machine.layout, Layout { table: 0, count: 0 });
    assert_eq!(rt; machine.image, 0);
    Ok(())
}

// Every line of format 2, in other spellings too, and bytes after the last line.
#[test]
fn reads_every_line(rt: HostRuntime) -> Result<(), Fail> {
    let text = "armcaps   2\n# two cores\ncore 0x0\n ctr_el0   0xAbCd  \n\
         midr_el1 18446744073709551615\n\ncore 01\nsve_vl 0x3\n boot 1\n\
         cmdline quiet id_aa64isar0.aes=0x11\ncheck 0\nlocal 0\nstore 0\nfinalise\n\
         offline 000\nonline 0\nnumber 9 MTE\ngiven 3 FW_x on\ngiven 7 FW_y off\n\
         conduit smc\ncallback 8 final_ctr\ncallback 4 keep\ntable 88 1\nimage 100\n";
    let input = format!(in rt.alloc(); "{text}no line\n")?;
    let (machine, place) = Machine::read(rt.alloc(), input.as_bytes())?;
    assert_eq!(rt; place, text.len());
    assert_eq!(rt; machine.board.cores.len(), 2);
    assert_eq!(rt; machine.board.cores[0].get(SysReg::CtrEl0), 0xabcd);
    assert_eq!(rt;
        machine.board.cores[0].get(SysReg::MidrEl1),
        0xffff_ffff_ffff_ffff
    );
    assert_eq!(rt; machine.board.cores[0].vls(), 0);
    assert_eq!(rt; machine.board.cores[1].get(SysReg::CtrEl0), 0);
    assert_eq!(rt; machine.board.cores[1].vls(), 3);
    assert_eq!(rt; machine.board.boot, 1);
    let aes = find(SysReg::IdAa64Isar0El1, b"aes".as_slice()).expect(&rt, "aes");
    assert_eq!(rt;
        machine.board.overrides.get(SysReg::IdAa64Isar0El1, aes),
        Some(1)
    );
    let steps = [
        StepLine::Check(0),
        StepLine::Local(0),
        StepLine::Store(0),
        StepLine::Finalise,
        StepLine::Offline(0),
        StepLine::Online(0),
    ];
    assert_eq!(rt; machine.steps.as_slice(), steps.as_slice());
    assert_eq!(rt; machine.names.find(9), Some(Named::Cap(5)));
    assert_eq!(rt; machine.names.find(3), Some(Named::Given(true)));
    assert_eq!(rt; machine.names.find(7), Some(Named::Given(false)));
    assert_eq!(rt; machine.names.find(4), None);
    assert_eq!(rt; machine.names.callback(8), Some(CallbackKind::FinalCtr));
    assert_eq!(rt; machine.names.callback(4), Some(CallbackKind::Keep));
    assert_eq!(rt; machine.names.conduit(), Conduit::Smc);
    assert_eq!(rt;
        machine.layout,
        Layout {
            table: 88,
            count: 1
        }
    );
    assert_eq!(rt; machine.image, 100);
    Ok(())
}

#[test]
fn judges_an_input_by_its_format(rt: HostRuntime) {
    assert_eq!(rt; Format::of(b"armcaps 2\n".as_slice()).input, 537_919_488);
    assert_eq!(rt; Format::of(b"armcaps 1\n".as_slice()).input, 135_266_304);
    assert_eq!(rt; Format::of(b"armcaps 2".as_slice()).input, 135_266_304);
}

#[test]
fn prints_a_refusal(rt: HostRuntime) -> Result<(), Fail> {
    let refused = TextRefused::Line {
        line: 7,
        kind: TextKind::Turn,
    };
    let text = format!(in rt.alloc(); "{refused}")?;
    assert_eq!(rt; text.as_str(), "line 7: kind 13 turn");
    Ok(())
}

// What is made from a number, as a machine with its names and its table.
#[test]
fn makes_a_machine_from_a_number(rt: HostRuntime) -> Result<(), Fail> {
    let (machine, image) = generate(rt.alloc(), 7, 8)?;
    assert_eq!(rt; machine.board.cores.len(), 8);
    assert_eq!(rt; machine.board.boot, 0);
    assert_eq!(rt; machine.steps.len(), 8);
    assert_eq!(rt; machine.names.find(23), Some(Named::Cap(23)));
    assert_eq!(rt;
        machine.layout,
        Layout {
            table: 0,
            count: 20_000
        }
    );
    assert_eq!(rt; machine.image as usize, image.len());
    Ok(())
}

//! The lines of `mrs` and of `demo`.

use super::*;

#[test]
fn reads_and_counts(rt: HostRuntime) -> Result<(), Fail> {
    let line = read_line(rt.alloc(), 5, 0x1_1120)?;
    assert_eq!(rt; line.as_str(), "x5 0x0000000000011120\n");
    let line = read_line(rt.alloc(), 31, 0xff00_0000)?;
    assert_eq!(rt; line.as_str(), "xzr 0x00000000ff000000\n");
    let mut text = String::new(rt.alloc());
    push_read_refused(&mut text, ReadRefused::Undefined { word: 0xd538_0100 })?;
    text.push_str(", ")?;
    push_read_refused(&mut text, ReadRefused::NotAdmitted { core: 12 })?;
    assert_eq!(rt;
        text.as_str(),
        "word 0xd5380100 undefined, core 12 not admitted"
    );
    let counts = Counts {
        admitted: 3,
        parked: 1,
        selected: 40,
        covered: 160,
        changed: 120,
        sum: 98_765_432_100,
    };
    let lines = demo_lines(rt.alloc(), 7, 4, &counts)?;
    assert_eq!(rt;
        lines.as_str(),
        "armcaps demo 7 4\nadmitted 3 parked 1\nentries 20000 selected 40\nwords 160 changed 120\nsum 98765432100\n"
    );
    Ok(())
}

//! Processors by their MIDR and REVIDR.

use super::*;

// Cortex-A53 r0p4, whose REVIDR has bit 8 set where erratum 843419 is mended (Arm's Cortex-A53 Software Developers
// Errata Notice), and a Cortex-A57 r1p2 and r1p3.
#[test]
fn processors_are_told_apart(rt: HostRuntime) {
    let old = MidrRange {
        model: 0x410f_d030,
        low: 0x00,
        high: 0x04,
    };
    let mended = Fix {
        rv: 0x04,
        revidr: 0x100,
    };
    assert!(rt; in_range(0x410f_d034, &old));
    assert!(rt; !in_range(0x411f_d072, &old));
    assert!(rt; affected(0x410f_d034, 0, &[old], &[mended]));
    assert!(rt; !affected(0x410f_d034, 0x180, &[old], &[mended]));
    assert!(rt; affected(0x410f_d032, 0x100, &[old], &[mended]));
    assert!(rt; !affected(0x410f_d034, 0, &[], &[mended]));

    let newer = MidrRange {
        model: 0x410f_d070,
        low: 0x00,
        high: 0x12,
    };
    assert!(rt; in_range(0x411f_d072, &newer));
    assert!(rt; !in_range(0x411f_d073, &newer));
}

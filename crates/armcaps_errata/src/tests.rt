//! Processors and their errata.

use super::*;
use armcaps_enc::SysReg;
use armcaps_tables::CoreRegs;

// The errata of some processors, by MIDR and REVIDR: the places in the table.
#[test]
fn processors_have_their_errata(rt: HostRuntime) {
    let processors: [(u64, u64, &[usize]); 12] = [
        (0x410f_d034, 0, &[0, 1]),
        (0x410f_d034, 0x100, &[1]),
        (0x410f_d032, 0, &[0, 1, 2]),
        (0x411f_d072, 0, &[3, 4, 7]),
        (0x411f_d073, 0, &[7]),
        (0x410f_d083, 0, &[7]),
        (0x410f_d092, 0, &[5]),
        (0x413f_d0b1, 0, &[8]),
        (0x412f_d0b0, 0, &[6, 7, 8]),
        (0x411f_d0d0, 0, &[9]),
        (0x413f_d0c1, 0, &[]),
        (0x1_410f_d034, 0x100_0000_0000, &[0, 1]),
    ];
    for (midr, revidr, places) in processors {
        let mut core = CoreRegs::zero();
        core.set(SysReg::MidrEl1, midr);
        core.set(SysReg::RevidrEl1, revidr);
        for index in 0..10 {
            assert_eq!(rt;
                affected_by(index, &core),
                places.contains(&index),
                "{index} of {midr:x}"
            );
        }
    }
    assert!(rt; erratum(9).is_some() && erratum(10).is_none());
    errata_hold();
}

//! Baselines of worked machines, and of as many as there can be.

ghost use Rattle.std.specs.Prelude.{◌≡◌, IfOk, length, vec_len};

use super::*;
use armcaps_enc::SysReg;
use armcaps_sanit::System;
use armcaps_tables::{CoreRegs, Overrides, count};
use std::alloc::{AllocError, Global};
use std::process::Abort;
use std::test::Fail;

// A machine of one core that has this word in a register, and 0 in the others.
fn machine(reg: SysReg, word: u64) -> System {
    let mut core = CoreRegs::zero();
    core.set(reg, word);
    System::new(&core, &Overrides::none())
}

// The machines whose cores have these words in a register.
fn machines(alloc: Global, reg: SysReg, words: &[u64]) -> Result<Vec<System>, AllocError>
    ensures { IfOk result (λ made. vec_len made ≡ length words.now) }
{
    words.iter().map(|word| machine(reg, *word)).collect(alloc)
}

// What a field of some machines comes to, and which of them limits it.
fn told(
    rt: &impl Abort,
    alloc: Global,
    reg: SysReg,
    words: &[u64],
    index: usize,
) -> Result<(u64, i64, u32), AllocError> {
    let systems = machines(alloc, reg, words)?;
    assert!(rt; 0 < systems.len() && systems.len() <= 64 && index < count(reg));
    let pool = baseline(alloc, &systems)?;
    assert!(rt; pool.count() as usize == words.len());
    Ok((
        pool.word(reg),
        pool.field(reg, index),
        pool.limit(reg, index),
    ))
}

// The first field of ISAR0 is AES and the second SHA1; of CTR_EL0 the second is L1Ip, the fourth ERG and the fifth CWG.
#[test]
fn pools(rt: HostRuntime) -> Result<(), Fail> {
    let isar0 = SysReg::IdAa64Isar0El1;
    let ctr = SysReg::CtrEl0;
    let sha1 = [0x11120, 0x11020];
    assert_eq!(rt; told(&rt, rt.alloc(), isar0, &sha1, 0)?, (0x11020, 2, 0));
    assert_eq!(rt; told(&rt, rt.alloc(), isar0, &sha1, 1)?, (0x11020, 0, 1));
    // a granule of 0 may be any, and so counts as the largest
    let granules = [0x8544_8004, 0x8444_8004, 0x8044_8004];
    assert_eq!(rt;
        told(&rt, rt.alloc(), ctr, &granules, 4)?,
        (0x8044_8004, 0, 2)
    );
    assert_eq!(rt;
        told(&rt, rt.alloc(), ctr, &granules, 3)?,
        (0x8044_8004, 4, 0)
    );
    assert_eq!(rt;
        told(&rt, rt.alloc(), ctr, &granules[..2], 4)?,
        (0x8544_8004, 5, 0)
    );
    // a policy on which the machines differ
    let policies = [0x8444_c004, 0x8444_4004, 0x8444_c004];
    assert_eq!(rt;
        told(&rt, rt.alloc(), ctr, &policies, 1)?,
        (0x8444_8004, 2, 1)
    );
    assert_eq!(rt;
        told(&rt, rt.alloc(), ctr, &policies[..1], 1)?,
        (0x8444_c004, 3, 0)
    );
    let safe = [0x8444_8004, 0x8444_c004];
    assert_eq!(rt; told(&rt, rt.alloc(), ctr, &safe, 1)?, (0x8444_8004, 2, 0));
    Ok(())
}

// The last of 64 machines has less than the others.
#[test]
fn as_many_as_there_can_be(rt: HostRuntime) -> Result<(), Fail> {
    let mut words = [0x11120; 64];
    words[63] = 0x11020;
    let isar0 = SysReg::IdAa64Isar0El1;
    assert_eq!(rt; told(&rt, rt.alloc(), isar0, &words, 1)?, (0x11020, 0, 63));
    assert_eq!(rt; told(&rt, rt.alloc(), isar0, &words, 0)?, (0x11020, 2, 0));
    Ok(())
}

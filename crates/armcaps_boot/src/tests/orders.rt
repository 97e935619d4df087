// Steps of several cores among each other.
use super::*;

/// The registers of cores 0 to 2 in one register, steps with their answers, the system's word after them, and what
/// became of core 1.
type Order<'a> = (
    SysReg,
    [u64; 3],
    &'a [(Event, Result<Reply, StepRefused>)],
    u64,
    CoreState,
);

// Steps of several cores among each other, before and after finalisation.
#[test]
fn orders_of_steps(rt: HostRuntime) -> Result<(), Fail> {
    let early = CoreState::Admitted { late: false };
    let atomics = Cause::Cap(7);
    let mte = Cause::Cap(5);
    let halted = Err(StepRefused::Halted {
        core: 2,
        cause: mte,
    });
    let cases: [Order; 5] = [
        (
            SysReg::CtrEl0,
            [0x8444_8004, 0x8444_8004, 0x8443_8004],
            &[
                (Event::Check(1), DONE),
                (Event::Check(2), DONE),
                (Event::Local(1), DONE),
                (Event::Local(2), DONE),
                (Event::Store(2), DONE),
                (Event::Store(1), DONE),
                (Event::Finalise, DONE),
            ],
            0x8443_8004,
            early,
        ),
        (
            SysReg::IdAa64Isar0El1,
            [0x1021_1120, 0x11120, 0x1021_1120],
            &[
                (Event::Finalise, DONE),
                (Event::Check(1), DONE),
                (Event::Check(2), DONE),
                (Event::Local(2), DONE),
                (Event::Local(1), Ok(Reply::Parked(atomics))),
                (Event::Store(1), Ok(Reply::Skipped)),
                (Event::Store(2), DONE),
            ],
            0x1021_1120,
            CoreState::Parked(atomics),
        ),
        (
            SysReg::IdAa64Pfr1El1,
            [0x200, 0, 0],
            &[
                (Event::Check(2), Ok(Reply::Panicked(mte))),
                (Event::Check(1), halted),
                (Event::Local(2), halted),
                (Event::Store(2), halted),
                (Event::Offline(2), halted),
                (Event::Finalise, halted),
                (Event::Check(0), halted),
                (Event::Check(5), halted),
            ],
            0x200,
            CoreState::Absent,
        ),
        (
            SysReg::IdAa64Isar0El1,
            [0x1021_1120, 0x1021_1120, 0],
            &[
                (Event::Check(1), DONE),
                (Event::Local(1), DONE),
                (Event::Store(1), DONE),
                (Event::Finalise, DONE),
                (Event::Offline(1), DONE),
                (Event::Check(1), DONE),
                (Event::Local(1), DONE),
                (Event::Store(1), DONE),
            ],
            0x1021_1120,
            early,
        ),
        (
            SysReg::IdAa64Isar0El1,
            [0x1021_1120, 0x11120, 0],
            &[
                (Event::Finalise, DONE),
                (Event::Check(1), DONE),
                (Event::Local(1), Ok(Reply::Parked(atomics))),
                (Event::Store(1), Ok(Reply::Skipped)),
                (Event::Offline(1), Ok(Reply::Skipped)),
                (Event::Check(1), Ok(Reply::Skipped)),
            ],
            0x1021_1120,
            CoreState::Parked(atomics),
        ),
    ];
    for (reg, words, steps, word, state) in cases {
        let cores = [
            core(reg, words[0]),
            core(reg, words[1]),
            core(reg, words[2]),
        ];
        let mut boot = machine(&rt, rt.alloc(), &cores)?;
        make(&rt, &mut boot, steps);
        assert_eq!(rt; boot.system().word(reg), word);
        assert_eq!(rt; boot.state(1), Some(state));
    }
    Ok(())
}

// Four Cortex-A53 and four Cortex-A73 that all come early: a workaround that the A73 alone need is on.
#[test]
fn big_and_little_cores(rt: HostRuntime) -> Result<(), Fail> {
    let mut cores = [CoreRegs::zero(); 8];
    for (number, core) in cores.iter_mut().enumerate() {
        core.set(
            SysReg::MidrEl1,
            if number < 4 { 0x410f_d034 } else { 0x410f_d092 },
        );
        core.set(SysReg::IdAa64Pfr0El1, 0x2222);
        core.set(SysReg::IdAa64Dfr0El1, 0x1030_5106);
        core.set(SysReg::IdAa64Isar0El1, 0x11120);
        core.set(SysReg::IdAa64Mmfr0El1, 0x1122);
        core.set(SysReg::CtrEl0, 0x8444_8004);
        core.set(SysReg::DczidEl0, 4);
    }
    let mut boot = machine(&rt, rt.alloc(), &cores)?;
    for number in 1..8 {
        bring_up(&rt, &mut boot, number);
    }
    make(&rt, &mut boot, &[(Event::Finalise, DONE)]);
    let enabled = [0, 1, 8, 41, 43, 44, 48];
    for number in 0..60 {
        assert_eq!(rt; boot.enabled(number), enabled.contains(&number), "{number}");
    }
    assert_eq!(rt; boot.hwcaps().hwcap, 0x8fb);
    assert_eq!(rt; boot.final_ctr(), 0x8444_8004);
    Ok(())
}

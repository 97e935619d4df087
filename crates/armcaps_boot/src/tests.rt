ghost use Rattle.std.specs.Prelude.{◌≤◌, length};
ghost use Rattle.armcaps_board.specs.Board.{IsCtrPlain};

use super::*;
use armcaps_enc::SysReg;
use armcaps_tables::{CoreRegs, Overrides};
use std::alloc::Global;
use std::process::Abort;
use std::test::Fail;

mod orders;

// No overrides: so none of a field of CTR_EL0.
fn without_overrides() -> Overrides
    ensures { IsCtrPlain result }
{
    Overrides::none()
}

// A value of SSBS that stands in for the cores' own: no field of CTR_EL0 has one.
fn with_ssbs() -> Overrides
    ensures { IsCtrPlain result }
{
    let mut overrides = without_overrides();
    overrides.set(SysReg::IdAa64Pfr1El1, 1, 1);
    overrides
}

// A machine of these cores without overrides, whose boot core is core 0.
fn machine(rt: &impl Abort, alloc: Global, cores: &[CoreRegs]) -> Result<Boot, Fail>
    requires { length cores.now ≤ 512 }
{
    machine_with(rt, alloc, cores, without_overrides())
}

// A machine of these cores under the overrides, whose boot core is core 0.
fn machine_with(
    rt: &impl Abort,
    alloc: Global,
    cores: &[CoreRegs],
    overrides: Overrides,
) -> Result<Boot, Fail>
    requires few { length cores.now ≤ 512 }
    requires plain_ctr { IsCtrPlain overrides }
{
    let cores = Vec::from_slice(alloc, cores)?;
    match Boot::new(alloc, cores, 0, overrides) {
        Ok(boot) => Ok(boot),
        Err(refused) => {
            assert_eq!(rt; refused, BootRefused::Memory);
            Err(Fail::from("no memory"))
        }
    }
}

// Makes the steps, each of which is to be answered as it says.
fn make(rt: &impl Abort, boot: &mut Boot, steps: &[(Event, Result<Reply, StepRefused>)]) {
    for (event, answer) in steps {
        assert_eq!(rt; boot.step(*event), *answer, "{event:?}");
    }
}

// Brings a core up, at each of whose steps it is done.
fn bring_up(rt: &impl Abort, boot: &mut Boot, core: u32) {
    for event in [Event::Check(core), Event::Local(core), Event::Store(core)] {
        assert_eq!(rt; boot.step(event), DONE, "{event:?}");
    }
}

fn core(reg: SysReg, word: u64) -> CoreRegs {
    let mut core = CoreRegs::zero();
    core.set(reg, word);
    core
}

const DONE: Result<Reply, StepRefused> = Ok(Reply::Done);

#[test]
fn refusals_in_their_order(rt: HostRuntime) -> Result<(), Fail> {
    let mut boot = machine(&rt, rt.alloc(), &[CoreRegs::zero(), CoreRegs::zero()])?;
    let early = CoreState::Admitted { late: false };
    let steps = [
        (Event::Check(5), Err(StepRefused::NoCore)),
        (Event::Check(0), Err(StepRefused::IsBootCore)),
        (
            Event::Local(1),
            Err(StepRefused::OutOfTurn {
                state: CoreState::Absent,
            }),
        ),
        (Event::Check(1), DONE),
        (Event::Finalise, Err(StepRefused::InFlight { core: 1 })),
        (Event::Local(1), DONE),
        (Event::Store(1), DONE),
        (Event::Finalise, DONE),
        (Event::Finalise, Err(StepRefused::AlreadyFinal)),
        (
            Event::Check(1),
            Err(StepRefused::OutOfTurn { state: early }),
        ),
    ];
    make(&rt, &mut boot, &steps);
    assert_eq!(rt; boot.state(1), Some(early));
    assert_eq!(rt; boot.state(2), None);
    assert_eq!(rt; boot.count(), 2);
    assert_eq!(rt; boot.boot_core(), 0);
    Ok(())
}

// What a core that differs from the boot core in one register is answered: at its check, or at its local step where it
// is late.
#[test]
fn cores_with_causes(rt: HostRuntime) -> Result<(), Fail> {
    for (is_late, reg, boot, other, reply) in [
        (
            false,
            SysReg::IdAa64Pfr1El1,
            0x200,
            0,
            Reply::Panicked(Cause::Cap(5)),
        ),
        (
            false,
            SysReg::IdAa64Mmfr0El1,
            0x20,
            0,
            Reply::Panicked(Cause::Asid),
        ),
        (
            false,
            SysReg::IdAa64Pfr1El1,
            0x300,
            0x200,
            Reply::Parked(Cause::Cap(6)),
        ),
        (
            false,
            SysReg::IdAa64Isar1El1,
            0x10,
            0x100,
            Reply::Parked(Cause::Cap(2)),
        ),
        (
            true,
            SysReg::IdAa64Isar0El1,
            0x1021_1120,
            0x11120,
            Reply::Parked(Cause::Cap(7)),
        ),
        (
            true,
            SysReg::CtrEl0,
            0x8444_8004,
            0x8443_8004,
            Reply::Parked(Cause::Cap(42)),
        ),
        (true, SysReg::CtrEl0, 0x8444_c004, 0x8444_8004, Reply::Done),
        (
            true,
            SysReg::IdAa64Isar0El1,
            0x11120,
            0x11020,
            Reply::Parked(Cause::Hwcap(4)),
        ),
        (
            true,
            SysReg::MidrEl1,
            0x410f_d092,
            0x410f_d034,
            Reply::Parked(Cause::Cap(43)),
        ),
    ] {
        let mut machine = machine(&rt, rt.alloc(), &[core(reg, boot), core(reg, other)])?;
        if is_late {
            make(
                &rt,
                &mut machine,
                &[
                    (Event::Finalise, DONE),
                    (Event::Check(1), DONE),
                    (Event::Local(1), Ok(reply)),
                ],
            );
        } else {
            make(&rt, &mut machine, &[(Event::Check(1), Ok(reply))]);
            assert_eq!(rt; machine.system().word(reg), boot);
        }
    }
    Ok(())
}

// Cores with SVE whose vector lengths differ, and one that goes and comes back.
#[test]
fn vector_lengths_and_return(rt: HostRuntime) -> Result<(), Fail> {
    let mut cores = [core(SysReg::IdAa64Pfr0El1, 0x1_0000_0000); 4];
    cores[0].set_vls(0x3);
    cores[1].set_vls(0x7);
    cores[2].set_vls(0x1);
    cores[3].set_vls(0xb);
    let mut boot = machine(&rt, rt.alloc(), &cores)?;
    bring_up(&rt, &mut boot, 1);
    let steps = [
        (Event::Finalise, DONE),
        (Event::Check(2), DONE),
        (Event::Local(2), Ok(Reply::Parked(Cause::Vector(2)))),
        (Event::Offline(2), Ok(Reply::Skipped)),
    ];
    make(&rt, &mut boot, &steps);
    bring_up(&rt, &mut boot, 3);
    make(&rt, &mut boot, &[(Event::Offline(1), DONE)]);
    bring_up(&rt, &mut boot, 1);
    make(&rt, &mut boot, &[(Event::Offline(3), DONE)]);
    assert_eq!(rt; boot.vector_lengths(), 0x3);
    assert!(rt; boot.enabled(36) && !boot.enabled(37) && !boot.enabled(53));
    assert_eq!(rt; boot.state(1), Some(CoreState::Admitted { late: false }));
    assert_eq!(rt; boot.state(3), Some(CoreState::Offline { late: true }));
    Ok(())
}

// Cores with SVE of which no vector lengths are told: programs are told of none, and no core lacks one.
#[test]
fn no_vector_lengths(rt: HostRuntime) -> Result<(), Fail> {
    let cores = [core(SysReg::IdAa64Pfr0El1, 0x1_0000_0000); 3];
    let mut boot = machine(&rt, rt.alloc(), &cores)?;
    bring_up(&rt, &mut boot, 1);
    make(&rt, &mut boot, &[(Event::Finalise, DONE)]);
    bring_up(&rt, &mut boot, 2);
    assert_eq!(rt; boot.vector_lengths(), 0);
    assert!(rt; boot.enabled(36));
    assert_eq!(rt; boot.state(2), Some(CoreState::Admitted { late: true }));
    Ok(())
}

// A value of 1 stands in for SSBS of a boot core that has 2, and a late core has none.
#[test]
fn a_core_under_an_override(rt: HostRuntime) -> Result<(), Fail> {
    let cores = [core(SysReg::IdAa64Pfr1El1, 0x20), CoreRegs::zero()];
    let mut boot = machine_with(&rt, rt.alloc(), &cores, with_ssbs())?;
    let ssbs = Cause::Cap(40);
    let steps = [
        (Event::Finalise, DONE),
        (Event::Check(1), DONE),
        (Event::Local(1), Ok(Reply::Parked(ssbs))),
        (Event::Store(1), Ok(Reply::Skipped)),
    ];
    make(&rt, &mut boot, &steps);
    assert_eq!(rt; boot.system().word(SysReg::IdAa64Pfr1El1), 0x10);
    assert!(rt; boot.enabled(40));
    assert_eq!(rt; boot.hwcaps().hwcap >> 28 & 1, 0);
    assert_eq!(rt; boot.state(1), Some(CoreState::Parked(ssbs)));
    Ok(())
}

// A boot core that there isn't.
#[test]
fn no_boot_core(rt: HostRuntime) -> Result<(), Fail> {
    let cores = Vec::from_slice(rt.alloc(), &[CoreRegs::zero(), CoreRegs::zero()])?;
    match Boot::new(rt.alloc(), cores, 2, without_overrides()) {
        Ok(_) => Err(Fail::from("made")),
        Err(refused) => {
            assert_eq!(rt; refused, BootRefused::NoBootCore);
            Ok(())
        }
    }
}

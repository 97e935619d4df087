ghost use Rattle.std.specs.Prelude.{◌≡◌, ◌≤◌, ℕ, None, length};
ghost use Rattle.armcaps_enc.specs.declared.register.SysReg.TheVariants.{CtrEl0};
ghost use Rattle.armcaps_tables.specs.Overriding.{override_of};

use super::*;
use armcaps_boot::{Boot, BootRefused, Cause, CoreState, Event, Reply};
use armcaps_enc::SysReg;
use armcaps_tables::{CoreRegs, Overrides};
use std::alloc::Global;
use std::process::Abort;
use std::test::Fail;

// No overrides: so none of a field of CTR_EL0.
fn without_overrides() -> Overrides
    ensures { (index : ℕ) → override_of result CtrEl0 index ≡ None }
{
    Overrides::none()
}

// A machine of these cores, whose boot core is core 0.
fn machine(rt: &impl Abort, alloc: Global, cores: &[CoreRegs]) -> Result<Boot, Fail>
    requires { length cores.now ≤ 512 }
{
    let cores = Vec::from_slice(alloc, cores)?;
    match Boot::new(alloc, cores, 0, without_overrides()) {
        Ok(boot) => Ok(boot),
        Err(refused) => {
            assert_eq!(rt; refused, BootRefused::Memory);
            Err(Fail::from("no memory"))
        }
    }
}

fn with(mut core: CoreRegs, reg: SysReg, word: u64) -> CoreRegs {
    core.set(reg, word);
    core
}

fn read(rt: u8, value: u64) -> Result<UserRead, UserRefused> {
    Ok(UserRead { rt, value })
}

const UNDEFINED: Result<UserRead, UserRefused> = Err(UserRefused::Undefined);

fn not_admitted(state: Option<CoreState>) -> Result<UserRead, UserRefused> {
    Err(UserRefused::NotAdmitted { state })
}

// As an assembler writes `mrs x5, id_aa64isar0_el1` and its like. Core 1 is like core 0, and core 2 lacks the atomic
// instructions that core 0 has; both come after finalisation.
#[test]
fn words_on_cores(rt: HostRuntime) -> Result<(), Fail> {
    let first = with(CoreRegs::zero(), SysReg::MidrEl1, 0x410f_d034);
    let first = with(first, SysReg::IdAa64Pfr1El1, 0x20);
    let first = with(first, SysReg::IdAa64Isar0El1, 0x1021_1120);
    let other = with(first, SysReg::IdAa64Isar0El1, 0x1_1120);
    let mut boot = machine(&rt, rt.alloc(), &[first, first, other])?;
    for event in [
        Event::Finalise,
        Event::Check(1),
        Event::Local(1),
        Event::Store(1),
        Event::Offline(1),
        Event::Check(2),
    ] {
        assert_eq!(rt; boot.step(event), Ok(Reply::Done));
    }
    let cause = Cause::Cap(7);
    assert_eq!(rt; boot.step(Event::Local(2)), Ok(Reply::Parked(cause)));
    for (core, word, answer) in [
        (0, 0xd538_0605, read(5, 0x1021_1120)),
        (0, 0xd538_0420, read(0, 0x20)),
        (0, 0xd538_071f, read(31, 0xff00_0000)),
        (0, 0xd538_07e1, read(1, 0)),
        (0, 0xd538_0000, read(0, 0x410f_d034)),
        (0, 0xd538_00a0, read(0, 0x8000_0000)),
        (0, 0xd538_00c2, read(2, 0)),
        (0, 0xd538_0020, UNDEFINED),
        (0, 0xd538_0100, UNDEFINED),
        (0, 0xd538_1600, UNDEFINED),
        (0, 0xd503_201f, UNDEFINED),
        (
            1,
            0xd538_0600,
            not_admitted(Some(CoreState::Offline { late: true })),
        ),
        (2, 0xd503_201f, not_admitted(Some(CoreState::Parked(cause)))),
        (7, 0xd538_0600, not_admitted(None)),
    ] {
        assert_eq!(rt; read_user(&boot, core, word), answer, "{core} {word:x}");
    }
    Ok(())
}

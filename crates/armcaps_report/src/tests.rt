ghost use Rattle.std.specs.Prelude.{◌≡◌, ◌≢◌, ◌≤◌, ℕ, None, length};
ghost use Rattle.armcaps_enc.specs.declared.register.SysReg.TheVariants.{CtrEl0};
ghost use Rattle.armcaps_tables.specs.Overriding.{override_of};

mod differing;
mod lines;
mod pooled;

use super::*;
use armcaps_boot::{Boot, BootRefused, StepLine, events_of};
use armcaps_enc::SysReg;
use armcaps_tables::{CoreRegs, Overrides, find};
use std::alloc::Global;
use std::process::Abort;
use std::test::Fail;

// No overrides: so none of a field of CTR_EL0.
fn without_overrides() -> Overrides
    ensures { (index : ℕ) → override_of result CtrEl0 index ≡ None }
{
    Overrides::none()
}

// An override of one field, by its name.
fn forcing(reg: SysReg, name: &[u8], bits: u64) -> Overrides
    requires { CtrEl0 ≢ reg }
    ensures { (index : ℕ) → override_of result CtrEl0 index ≡ None }
{
    let Some(index) = find(reg, name) else {
        return without_overrides();
    };
    let mut overrides = without_overrides();
    overrides.set(reg, index, bits);
    overrides
}

// The report of these cores, whose boot core is core 0, after these steps.
fn report_after(
    rt: &impl Abort,
    alloc: Global,
    cores: &[CoreRegs],
    overrides: Overrides,
    steps: &[StepLine],
) -> Result<String, Fail>
    requires few { length cores.now ≤ 512 }
    requires plain_ctr { (index : ℕ) → override_of overrides CtrEl0 index ≡ None }
{
    let cores = Vec::from_slice(alloc, cores)?;
    let mut boot = match Boot::new(alloc, cores, 0, overrides) {
        Ok(boot) => boot,
        Err(refused) => {
            assert_eq!(rt; refused, BootRefused::Memory);
            return Err(Fail::from("no memory"));
        }
    };
    for event in &events_of(alloc, steps)? {
        assert!(rt; boot.step(*event).is_ok(), "{event:?}");
    }
    assert!(rt; has_report(&boot));
    Ok(report(alloc, &boot)?)
}

// Each line stands in the report, and each of those that begin with `!` does not.
fn tells(rt: &impl Abort, report: &str, lines: &[&str]) {
    for line in lines {
        match line.strip_prefix("!") {
            Some(line) => assert!(rt; !report.lines().any(|other| other == line), "{line}"),
            None => assert!(rt; report.lines().any(|other| other == *line), "{line}"),
        }
    }
}

fn core(reg: SysReg, word: u64) -> CoreRegs {
    let mut core = CoreRegs::zero();
    core.set(reg, word);
    core
}

const FINALISE: StepLine = StepLine::Finalise;

const EARLY: [StepLine; 2] = [StepLine::Online(1), StepLine::Finalise];

const LATE: [StepLine; 2] = [StepLine::Finalise, StepLine::Online(1)];

const WHOLE: &str = "armcaps report 1
core 0 boot
reg id_aa64pfr0_el1 0x0000000000000000
reg id_aa64pfr1_el1 0x0000000000000000
reg id_aa64zfr0_el1 0x0000000000000000
reg id_aa64smfr0_el1 0x0000000000000000
reg id_aa64dfr0_el1 0x0000000000000000
reg id_aa64isar0_el1 0x0000000000011120
reg id_aa64isar1_el1 0x0000000000000000
reg id_aa64isar2_el1 0x0000000000000000
reg id_aa64mmfr0_el1 0x0000000000000000
reg id_aa64mmfr1_el1 0x0000000000000000
reg id_aa64mmfr2_el1 0x0000000000000000
reg id_aa64mmfr3_el1 0x0000000000000000
reg ctr_el0 0x0000000000000000
reg dczid_el0 0x0000000000000000
user id_aa64pfr0_el1 0x0000000000000011
user id_aa64pfr1_el1 0x0000000000000000
user id_aa64zfr0_el1 0x0000000000000000
user id_aa64smfr0_el1 0x0000000000000000
user id_aa64dfr0_el1 0x0000000000000006
user id_aa64isar0_el1 0x0000000000011120
user id_aa64isar1_el1 0x0000000000000000
user id_aa64isar2_el1 0x0000000000000000
user id_aa64mmfr0_el1 0x00000000ff000000
user id_aa64mmfr1_el1 0x0000000000000000
user id_aa64mmfr2_el1 0x0000000000000000
user id_aa64mmfr3_el1 0x0000000000000000
user ctr_el0 0x0000000000000000
user dczid_el0 0x0000000000000000
cap 0 ALWAYS_BOOT
cap 1 ALWAYS_SYSTEM
cap 8 HAS_CRC32
cap 41 HAS_FPSIMD
hwcap 0x00000000000008fb
hwcap2 0x0000000000000000
flags fp asimd aes pmull sha1 sha2 crc32 cpuid
end
";

#[test]
fn whole_report(rt: HostRuntime) -> Result<(), Fail> {
    let cores = [core(SysReg::IdAa64Isar0El1, 0x1_1120)];
    let report = report_after(&rt, rt.alloc(), &cores, without_overrides(), &[FINALISE])?;
    assert_eq!(rt; report.as_str(), WHOLE);
    Ok(())
}

// A core of which two registers or its vector lengths count.
fn also(mut core: CoreRegs, reg: SysReg, word: u64) -> CoreRegs {
    core.set(reg, word);
    core
}

fn with_lengths(mut core: CoreRegs, vls: u16) -> CoreRegs {
    core.set_vls(vls);
    core
}

#[test]
fn overrides(rt: HostRuntime) -> Result<(), Fail> {
    let boot = core(SysReg::IdAa64Pfr0El1, 0x1_0000_0000);
    let cores = [also(boot, SysReg::IdAa64Pfr1El1, 0x20), boot];
    let report = report_after(
        &rt,
        rt.alloc(),
        &cores,
        forcing(SysReg::IdAa64Pfr0El1, b"sve", 0),
        &[FINALISE],
    )?;
    tells(
        &rt,
        &report,
        &[
            "core 1 absent",
            "note id_aa64pfr0.sve forced",
            "reg id_aa64pfr0_el1 0x0000000000000000",
        ],
    );
    let report = report_after(
        &rt,
        rt.alloc(),
        &cores,
        forcing(SysReg::IdAa64Pfr0El1, b"sve", 2),
        &[FINALISE],
    )?;
    tells(
        &rt,
        &report,
        &[
            "note id_aa64pfr0.sve ignored",
            "reg id_aa64pfr0_el1 0x0000000100000000",
            "cap 36 SVE",
        ],
    );
    let report = report_after(
        &rt,
        rt.alloc(),
        &cores,
        forcing(SysReg::IdAa64Pfr1El1, b"ssbs", 1),
        &LATE,
    )?;
    tells(
        &rt,
        &report,
        &[
            "core 1 parked cap 40 SSBS",
            "note id_aa64pfr1.ssbs forced",
            "reg id_aa64pfr1_el1 0x0000000000000010",
            "cap 40 SSBS",
        ],
    );
    Ok(())
}

// Steps of several cores: one that comes in parts, one that goes, and the vector lengths of each.
#[test]
fn several_cores(rt: HostRuntime) -> Result<(), Fail> {
    let sve = core(SysReg::IdAa64Pfr0El1, 0x1_0000_0000);
    let cores = [
        with_lengths(sve, 3),
        with_lengths(sve, 7),
        with_lengths(sve, 1),
        with_lengths(sve, 0xb),
    ];
    let steps = [
        StepLine::Online(1),
        FINALISE,
        StepLine::Offline(1),
        StepLine::Check(2),
        StepLine::Online(3),
        StepLine::Local(2),
        StepLine::Store(2),
    ];
    let report = report_after(&rt, rt.alloc(), &cores, without_overrides(), &steps)?;
    tells(
        &rt,
        &report,
        &[
            "core 1 early offline",
            "core 2 parked vl 256",
            "core 3 late",
            "vl 128",
            "vl 256",
            "!vl 512",
        ],
    );
    let report = report_after(
        &rt,
        rt.alloc(),
        &[sve, sve, sve],
        without_overrides(),
        &LATE,
    )?;
    tells(&rt, &report, &["core 1 late", "core 2 absent", "!vl 128"]);
    let boot = also(core(SysReg::MidrEl1, 0x410f_d034), SysReg::RevidrEl1, 0x100);
    let cores = [boot, core(SysReg::MidrEl1, 0x410f_d034)];
    let report = report_after(&rt, rt.alloc(), &cores, without_overrides(), &LATE)?;
    tells(
        &rt,
        &report,
        &[
            "core 1 parked cap 43 WORKAROUND_843419",
            "!cap 43 WORKAROUND_843419",
            "cap 44 WORKAROUND_845719",
        ],
    );
    Ok(())
}

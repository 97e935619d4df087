//! The words that some machines have in common: each machine's words count as those of one core.

ghost use Rattle.std.specs.Prelude.{◌≡◌, ◌<◌, length};
ghost use Rattle.armcaps_baseline.specs.Baselines.{as_core, baseline_words};

use armcaps_enc::SysReg;
use armcaps_sanit::System;
use armcaps_tables::{CoreRegs, Overrides};

// For each register the word of the values that all of these machines accept.
pub(crate) fn common(systems: &[System]) -> System
    requires { 0 < length systems.now }
    ensures { result ≡ baseline_words systems.now }
{
    let mut whole = System::new(&as_core(&systems[0]), &Overrides::none());
    for system in &systems[1..] {
        whole.admit(&as_core(system));
    }
    whole
}

// A core that has a machine's words.
fn as_core(system: &System) -> CoreRegs
    ensures { result ≡ as_core system.now }
{
    let mut core = CoreRegs::zero();
    for reg in SysReg::ALL {
        core.set(reg, system.word(reg));
    }
    core
}

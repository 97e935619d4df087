//! Which registers differ among the cores of a machine.

ghost use Rattle.std.specs.Prelude.{◌≡◌, ◌<◌, ◌&&◌, length};
ghost use Rattle.armcaps_sanit.specs.Varying.{core_varies};
ghost use Rattle.armcaps_board.specs.Board.{boot_core, core_at};
ghost use Rattle.armcaps_boot.specs.States.{is_admitted};
ghost use Rattle.armcaps_boot.specs.World.{admitted_cores, state_at};
ghost use Rattle.armcaps_report.specs.Report.{varies_among};

use crate::cores::state;
use armcaps_boot::{Boot, CoreState, Past};
use armcaps_enc::SysReg;
use armcaps_sanit::varies;
use armcaps_tables::CoreRegs;

/// Whether a strict field of the register differs between the boot core and some core that was ever admitted.
pub(crate) fn varies_among(boot: &Boot, register: SysReg) -> bool
    ensures { result ≡
        varies_among (boot_core boot.now.board) (admitted_cores boot.now.board boot.now.states) register }
{
    for number in 0..boot.count() {
        if differs(boot, number, register) {
            return true;
        }
    }
    false
}

// Whether this core was ever admitted, and a strict field of the register differs between it and the boot core.
fn differs(boot: &Boot, number: u32, register: SysReg) -> bool
    requires { number < length boot.now.board.cores }
    ensures { result ≡ (is_admitted (state_at boot.now.states number)
        && core_varies (boot_core boot.now.board) (core_at boot.now.board.cores number) register) }
{
    is_admitted(state(boot, number)) && varies(boot_core(boot), core(boot, number), register)
}

/// The boot core.
pub(crate) fn boot_core(boot: &Boot) -> &CoreRegs
    ensures { result.now ≡ boot_core boot.now.board }
{
    boot.facts_hold();
    core(boot, boot.boot_core())
}

// A core, by its number.
fn core(boot: &Boot, number: u32) -> &CoreRegs
    requires { number < length boot.now.board.cores }
    ensures { result.now ≡ core_at boot.now.board.cores number }
{
    boot.core(number).unwrap()
}

// Whether a core in this state was ever admitted.
fn is_admitted(state: CoreState) -> bool
    ensures { result ≡ is_admitted state }
{
    match state {
        CoreState::Checked(past) | CoreState::Updated(past) => !matches!(past, Past::Never),
        CoreState::Admitted { .. } | CoreState::Offline { .. } => true,
        CoreState::Absent | CoreState::Parked(_) | CoreState::Panicked(_) => false,
    }
}

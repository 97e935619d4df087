//! How many cores are admitted, and how many are held back.

ghost use Rattle.std.specs.Prelude.{◌≡◌, cond};
ghost use Rattle.armcaps_boot.specs.Findings.{findings_of};
ghost use Rattle.armcaps_boot.specs.World.{state_at};
ghost use Rattle.armcaps_report.specs.Demo.{cores_that, stands_admitted, stands_parked};

use armcaps_boot::{Boot, CoreState};

// One for a core that is admitted, and one for a core that is held back.
fn standing(state: CoreState) -> (u32, u32)
    ensures admitted { result.0 ≡ cond (stands_admitted state) 1 0 }
    ensures parked { result.1 ≡ cond (stands_parked state) 1 0 }
{
    match state {
        CoreState::Admitted { .. } => (1, 0),
        CoreState::Parked(_) => (0, 1),
        CoreState::Absent
        | CoreState::Checked(_)
        | CoreState::Updated(_)
        | CoreState::Offline { .. }
        | CoreState::Panicked(_) => (0, 0),
    }
}

// The state of a core.
fn core_state(boot: &Boot, number: u32) -> CoreState
    ensures { result ≡ state_at boot.now.states number }
{
    boot.state(number).unwrap_or(CoreState::Absent)
}

/// How many cores are admitted, and how many are held back.
pub fn count_cores(boot: &Boot) -> (u32, u32)
    ensures admitted { result.0 ≡ cores_that stands_admitted (findings_of boot.now) }
    ensures parked { result.1 ≡ cores_that stands_parked (findings_of boot.now) }
{
    let mut admitted = 0;
    let mut parked = 0;
    for number in 0..boot.count() {
        let (up, held) = standing(core_state(boot, number));
        admitted += up;
        parked += held;
    }
    (admitted, parked)
}

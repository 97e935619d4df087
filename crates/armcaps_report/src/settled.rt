//! Which machines have a report.

ghost use Rattle.std.specs.Prelude.{◌≡◌, ◌↔◌, true};
ghost use Rattle.armcaps_report.specs.Settled.{is_settled, AreSettled};

use crate::cores::state;
use armcaps_boot::{Boot, CoreState};

/// Whether a machine has a report: finalisation was done, no core is on its way up, and none has stopped it.
pub fn has_report(boot: &Boot) -> bool
    ensures { (result ≡ true) ↔ ((boot.now.final ≡ true) × AreSettled boot.now.states) }
{
    boot.is_final() && are_settled(boot)
}

// Whether no core is on its way up, and none has stopped the machine.
fn are_settled(boot: &Boot) -> bool
    ensures { (result ≡ true) ↔ AreSettled boot.now.states }
{
    boot.facts_hold();
    for number in 0..boot.count() {
        if !is_settled(state(boot, number)) {
            return false;
        }
    }
    true
}

// Whether a core in this state is neither on its way up nor has stopped the machine.
fn is_settled(state: CoreState) -> bool
    ensures { result ≡ is_settled state }
{
    !matches!(
        state,
        CoreState::Checked(_) | CoreState::Updated(_) | CoreState::Panicked(_)
    )
}

ghost use Rattle.std.specs.Prelude.{◌≡◌};
ghost use Rattle.armcaps_boot.specs.Changes as changes;
ghost use Rattle.armcaps_boot.specs.States as states;

use crate::core_state::CoreState;
use crate::past::Past;

/// As what a core in this state was admitted.
pub(crate) fn past_of(state: CoreState) -> Past
    ensures { result ≡ states.past_of state }
{
    match state {
        CoreState::Checked(past) | CoreState::Updated(past) => past,
        CoreState::Admitted { late } | CoreState::Offline { late } => if late {
            Past::Late
        } else {
            Past::Early
        },
        CoreState::Absent | CoreState::Parked(_) | CoreState::Panicked(_) => Past::Never,
    }
}

/// The state of a core that is admitted, by as what it was admitted before.
pub(crate) fn admitted_after(is_final: bool, past: Past) -> CoreState
    ensures { result ≡ changes.admitted_after is_final past }
{
    match past {
        Past::Never => CoreState::Admitted { late: is_final },
        Past::Early => CoreState::Admitted { late: false },
        Past::Late => CoreState::Admitted { late: true },
    }
}

/// Whether a core has made its check and not yet its store.
pub(crate) fn is_in_flight(state: CoreState) -> bool
    ensures { result ≡ states.is_in_flight state }
{
    match state {
        CoreState::Checked(_) | CoreState::Updated(_) => true,
        _ => false,
    }
}

/// Whether a core in this state was ever admitted.
pub(crate) fn is_admitted(state: CoreState) -> bool
    ensures { result ≡ states.is_admitted state }
{
    match past_of(state) {
        Past::Never => false,
        Past::Early | Past::Late => true,
    }
}

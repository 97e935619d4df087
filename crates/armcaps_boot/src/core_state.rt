use crate::cause::Cause;
use crate::past::Past;

/// How far a core has come.
#[derive(Clone, Copy, Debug, PartialEq, Eq)]
pub enum CoreState {
    /// It has made no step.
    Absent,
    /// It was checked against the boot core; `Past` says as what it was admitted before.
    Checked(Past),
    /// Its capabilities were noted or verified; `Past` says as what it was admitted before.
    Updated(Past),
    /// It runs: its registers are merged into the system's. It is late where it first came after finalisation.
    Admitted { late: bool },
    /// It ran, and is gone. It may come back.
    Offline { late: bool },
    /// It is held back, for this cause, and never runs.
    Parked(Cause),
    /// It stopped the machine, for this cause.
    Panicked(Cause),
}

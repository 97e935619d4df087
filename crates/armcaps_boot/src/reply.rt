use crate::cause::Cause;

/// What came of a step.
#[derive(Clone, Copy, Debug, PartialEq, Eq)]
pub enum Reply {
    /// It was made.
    Done,
    /// The core is parked for this cause from now on.
    Parked(Cause),
    /// The core has stopped the machine for this cause.
    Panicked(Cause),
    /// The core was parked before, and nothing was done.
    Skipped,
}

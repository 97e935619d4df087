use crate::cause::Cause;
use crate::core_state::CoreState;

/// Why no machine was made.
#[derive(Clone, Copy, Debug, PartialEq, Eq)]
pub enum BootRefused {
    /// The boot core's number isn't below the number of cores.
    NoBootCore,
    /// There was no memory.
    Memory,
}

/// Why a step was refused. Nothing has changed then.
#[derive(Clone, Copy, Debug, PartialEq, Eq)]
pub enum StepRefused {
    /// There is no core of that number.
    NoCore,
    /// The boot core makes no steps.
    IsBootCore,
    /// The core is in this state, in which the step isn't its next one.
    OutOfTurn { state: CoreState },
    /// Finalisation was done before.
    AlreadyFinal,
    /// This core, the first such one, has made its check and not yet its store.
    InFlight { core: u32 },
    /// This core stopped the machine earlier, for this cause.
    Halted { core: u32, cause: Cause },
}

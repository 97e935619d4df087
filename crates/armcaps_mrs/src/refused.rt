use armcaps_boot::CoreState;

/// Why a read is not emulated.
#[derive(Clone, Copy, Debug, PartialEq, Eq)]
pub enum UserRefused {
    /// The core is in this state, in which it doesn't run; None where there is no such core.
    NotAdmitted { state: Option<CoreState> },
    /// The word is no instruction that reads an emulated register.
    Undefined,
}

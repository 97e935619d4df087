//! How a run ends, and its status.

ghost use Rattle.std.specs.Prelude.{◌≡◌};

use crate::reason::Reason;

/// How a run ends.
#[derive(Clone, Copy)]
pub enum Ending {
    /// The whole output was written.
    Done,
    /// The input failed.
    ReadFault,
    /// The output failed.
    WriteFault,
    /// There was no memory.
    Memory,
    /// Nothing is written, for this reason.
    NoOutput(Reason),
}

impl Ending {
    ghost use Rattle.armcaps_top.specs.Statuses.{status_of};

    /// The status that the process ends with.
    pub fn status(self) -> u8
        ensures { result ≡ status_of self }
    {
        match self {
            Ending::Done => 0,
            Ending::ReadFault => 4,
            Ending::WriteFault => 5,
            Ending::Memory => 6,
            Ending::NoOutput(reason) => reason.status(),
        }
    }
}

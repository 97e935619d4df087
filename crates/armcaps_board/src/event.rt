ghost use Rattle.std.specs.Prelude.{◌≡◌};
ghost use Rattle.armcaps_board.specs.Order as order;
ghost use Rattle.armcaps_board.specs.Steps as steps;

/// One step of a bring-up: an action of one core, by its number, or the finalisation of the system.
#[derive(Clone, Copy, Debug, PartialEq, Eq)]
pub enum Event {
    /// The core compares itself with the boot core.
    Check(u32),
    /// The core's own capabilities are noted, or after finalisation verified.
    Local(u32),
    /// The core's registers are merged into the system's, and it is admitted.
    Store(u32),
    /// The core goes.
    Offline(u32),
    /// Capabilities, hwcaps and vector lengths are decided for good.
    Finalise,
}

impl Event {
    /// The core that a step is of, if it is of one.
    pub fn core(self) -> Option<u32>
        ensures { result ≡ steps.core_of self }
    {
        match self {
            Event::Check(core) | Event::Local(core) | Event::Store(core) | Event::Offline(core) =>
                Some(core),
            Event::Finalise => None,
        }
    }

    /// Whether a core with this last step, or without one, can make this one.
    pub fn can_follow(self, last: Option<Event>) -> bool
        ensures { result ≡ order.can_follow last self }
    {
        match self {
            Event::Check(_) => matches!(last, None | Some(Event::Offline(_))),
            Event::Local(_) => matches!(last, Some(Event::Check(_))),
            Event::Store(_) => matches!(last, Some(Event::Local(_))),
            Event::Offline(_) => matches!(last, Some(Event::Store(_))),
            Event::Finalise => true,
        }
    }
}

/// Whether a core with this last step is on its way up: it has made its check and not its store.
pub fn is_begun(last: Option<Event>) -> bool
    ensures { result ≡ order.is_begun_last last }
{
    matches!(last, Some(Event::Check(_) | Event::Local(_)))
}

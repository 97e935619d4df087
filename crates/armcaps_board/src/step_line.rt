ghost use Rattle.std.specs.Prelude.{◌≡◌, ◌++◌, IfOk, OnOk};
ghost use Rattle.std.specs.List.{flat_map};
ghost use Rattle.armcaps_board.specs.Steps as steps;

use crate::event::Event;
use std::alloc::{AllocError, Global};

/// One line of a text that tells a machine's steps. A line stands for one event, but for `Online`.
#[derive(Clone, Copy, Debug, PartialEq, Eq)]
pub enum StepLine {
    /// The event `Check` of a core.
    Check(u32),
    /// The event `Local` of a core.
    Local(u32),
    /// The event `Store` of a core.
    Store(u32),
    /// `Check`, `Local` and `Store` of a core, one after the other.
    Online(u32),
    /// The event `Offline` of a core.
    Offline(u32),
    /// The event `Finalise`.
    Finalise,
}

impl StepLine {
    /// The first of the events that a line stands for.
    pub fn first_event(self) -> Event
        ensures { result ≡ steps.first_event self }
    {
        match self {
            StepLine::Check(core) | StepLine::Online(core) => Event::Check(core),
            StepLine::Local(core) => Event::Local(core),
            StepLine::Store(core) => Event::Store(core),
            StepLine::Offline(core) => Event::Offline(core),
            StepLine::Finalise => Event::Finalise,
        }
    }

    /// The last of the events that a line stands for.
    pub fn last_event(self) -> Event
        ensures { result ≡ steps.last_event self }
    {
        match self {
            StepLine::Check(core) => Event::Check(core),
            StepLine::Local(core) => Event::Local(core),
            StepLine::Store(core) | StepLine::Online(core) => Event::Store(core),
            StepLine::Offline(core) => Event::Offline(core),
            StepLine::Finalise => Event::Finalise,
        }
    }
}

/// The events that lines stand for, in their order.
pub fn events_of(alloc: Global, lines: &[StepLine]) -> Result<Vec<Event>, AllocError>
    ensures { IfOk result (λ events. events.items ≡ flat_map steps.events_of lines.now) }
{
    let mut events = Vec::new(alloc);
    for line in lines {
        push_events(&mut events, *line)?;
    }
    Ok(events)
}

// Adds the events that a line stands for.
fn push_events(events: &mut Vec<Event>, line: StepLine) -> Result<(), AllocError>
    ensures { OnOk result (events.new.items ≡ events.old.items ++ steps.events_of line) }
{
    match line {
        StepLine::Check(core) => events.push(Event::Check(core))?,
        StepLine::Local(core) => events.push(Event::Local(core))?,
        StepLine::Store(core) => events.push(Event::Store(core))?,
        StepLine::Online(core) => {
            events.push(Event::Check(core))?;
            events.push(Event::Local(core))?;
            events.push(Event::Store(core))?;
        }
        StepLine::Offline(core) => events.push(Event::Offline(core))?,
        StepLine::Finalise => events.push(Event::Finalise)?,
    }
    Ok(())
}

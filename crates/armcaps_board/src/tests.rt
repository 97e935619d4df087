use super::*;
use std::process::Abort;
use std::test::Fail;

// The events of lines, one of which brings a core up whole.
#[test]
fn events_of_lines(rt: HostRuntime) -> Result<(), Fail> {
    let lines = [
        StepLine::Check(2),
        StepLine::Local(2),
        StepLine::Online(1),
        StepLine::Store(2),
        StepLine::Finalise,
        StepLine::Offline(1),
    ];
    let events = [
        Event::Check(2),
        Event::Local(2),
        Event::Check(1),
        Event::Local(1),
        Event::Store(1),
        Event::Store(2),
        Event::Finalise,
        Event::Offline(1),
    ];
    assert_eq!(rt;
        events_of(rt.alloc(), &lines)?.as_slice(),
        events.as_slice()
    );
    Ok(())
}

//! A machine is brought up step by step.

ghost use Rattle.std.specs.Prelude.{◌≡◌, ◌<◌, ◌+◌, length, reverse, slice_index_or};
ghost use Rattle.armcaps_board.specs.declared.event.Event.TheVariants as Event;
ghost use Rattle.armcaps_boot.specs.ParkOrPanic.{halt_of, steps_made};
ghost use Rattle.armcaps_boot.specs.After.{IsAfter, reply_of};
ghost use Rattle.armcaps_boot.specs.StepByStep.{IsAt, steps_before};

use crate::boot::Boot;
use crate::laws::steps_are_answered;
use crate::park_or_panic::Halt;
use crate::reply::Reply;
use armcaps_board::Event;

/// Makes the step at this index of steps that stand in their order. It is never refused.
pub fn make_step(boot: &mut Boot, events: &[Event], index: usize) -> Reply
    requires inside { index < length events.now }
    requires at { IsAt index events.now boot.old.board boot.old }
    ensures reply { result ≡ reply_of boot.old.board (steps_before index events.now)
        (slice_index_or events.now index (Event.Check 0)) }
    ensures after { IsAfter boot.old.board (steps_before (index + 1) events.now) boot.new }
{
    boot.facts_hold();
    steps_are_answered();
    boot.step(events[index]).unwrap()
}

/// Makes steps in their order, up to one that stops the machine, and says what stopped it.
pub fn bring_up(boot: &mut Boot, events: &[Event]) -> Option<Halt>
    requires { IsAt 0 events.now boot.old.board boot.old }
    ensures halt { result ≡ halt_of boot.old.board (reverse events.now) }
    ensures machine { IsAfter boot.old.board (steps_made boot.old.board (reverse events.now)) boot.new }
{
    for index in 0..events.len() {
        make_step(boot, events, index);
        if let Some(halt) = boot.halted() {
            return Some(halt);
        }
    }
    None
}

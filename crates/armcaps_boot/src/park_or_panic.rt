//! What becomes of a core that is held back: it is parked, or it stops the machine, which is a panic.

ghost use Rattle.std.specs.Prelude.{◌≡◌, ◌<◌, length, Some, Ok};
ghost use Rattle.armcaps_boot.specs.Answers as answers;
ghost use Rattle.armcaps_boot.specs.Causes as causes;
ghost use Rattle.armcaps_boot.specs.Changes as changes;
ghost use Rattle.armcaps_boot.specs.Machine.{world_of};
ghost use Rattle.armcaps_boot.specs.ParkOrPanic as held;

use crate::cause::Cause;
use crate::core_state::CoreState;
use crate::machine::Machine;
use crate::reply::Reply;
use armcaps_caps::is_panic;

/// The core that stopped a machine, and why.
#[derive(Clone, Copy, Debug, PartialEq, Eq)]
pub struct Halt {
    pub core: u32,
    pub cause: Cause,
}

// Whether a cause stops the whole machine, as a panic.
fn stops_machine(cause: Cause) -> bool
    requires { causes.IsNumbered cause }
    ensures { result ≡ held.stops_machine cause }
{
    match cause {
        Cause::Asid => true,
        Cause::Cap(number) => is_panic(number),
        Cause::Hwcap(_) | Cause::Vector(_) => false,
    }
}

impl Machine {
    /// Parks a core, or lets it stop the machine.
    pub(crate) fn park_or_panic(&mut self, core: u32, cause: Cause) -> Reply
        requires within { core < length self.old.states.items }
        requires numbered { causes.IsNumbered cause }
        ensures answer { Ok result ≡ answers.judged (Some cause) }
        ensures after { world_of self.new ≡ changes.held_world (world_of self.old) (Some core) result }
    {
        if stops_machine(cause) {
            self.states[core as usize] = CoreState::Panicked(cause);
            self.halted = Some(Halt { core, cause });
            Reply::Panicked(cause)
        } else {
            self.states[core as usize] = CoreState::Parked(cause);
            Reply::Parked(cause)
        }
    }
}

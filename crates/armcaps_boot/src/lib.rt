//! The bring-up of a machine's cores: which cores are admitted, which are parked, and what the system may use.
#![tactic(auto)]

mod boot;
mod cause;
mod causes;
mod core_state;
mod gathering;
pub mod laws;
mod machine;
mod park_or_panic;
mod past;
mod refused;
mod reply;
mod states;
mod step_by_step;
#[cfg(test)]
mod tests;

pub use armcaps_board::{Event, StepLine, events_of};
pub use boot::Boot;
pub use cause::Cause;
pub use core_state::CoreState;
pub use park_or_panic::Halt;
pub use past::Past;
pub use refused::{BootRefused, StepRefused};
pub use reply::Reply;
pub use step_by_step::{bring_up, make_step};

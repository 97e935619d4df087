//! A machine's board, and the steps by which its cores come up.
#![tactic(auto)]

mod board;
mod event;
pub mod laws;
mod step_line;
#[cfg(test)]
mod tests;

pub use board::Board;
pub use event::{Event, is_begun};
pub use step_line::{StepLine, events_of};

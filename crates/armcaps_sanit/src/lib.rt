//! The words that all admitted cores keep in common, what users see of them, where a core differs from the boot core,
//! and what overrides make of one core's fields.
#![tactic(auto)]

mod core_field;
pub mod laws;
mod noted;
mod register_word;
mod system;
#[cfg(test)]
mod tests;
mod varying;

pub use core_field::{local, note};
pub use noted::Note;
pub use system::System;
pub use varying::{varies, words_vary};

//! The top call of armcaps: words and a machine text in, what the command writes of it out.
#![tactic(auto)]

pub mod audit_laws;
mod bringing;
mod commands;
mod document;
mod ending;
mod error_lines;
mod kept_bytes;
pub mod laws;
pub mod patch_laws;
pub mod pool_laws;
mod program;
mod reading;
mod reason;
mod refusal;
mod refusing;
#[cfg(test)]
mod tests;
mod writing;

pub use program::run;

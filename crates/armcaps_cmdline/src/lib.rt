//! The overrides of ID register fields that a kernel command line gives.
#![tactic(auto)]

mod alias;
mod assign;
mod command_line;
mod laws;
mod setting;
#[cfg(test)]
mod tests;
mod word;

pub use command_line::parse;
pub use laws::overrides_fit;

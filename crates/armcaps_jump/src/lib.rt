//! Jump labels: the branches and NOPs of a kernel's image that its static keys choose (Linux,
//! Documentation/staging/static-keys.rst, arch/arm64/kernel/jump_label.c).
#![tactic(auto)]

mod checking;
mod grouping;
mod judging;
mod jump_entry;
mod jumped;
mod jumps;
mod laws;
mod nearby;
mod refused;
mod site;
#[cfg(test)]
mod tests;

pub use jump_entry::JumpEntry;
pub use jumps::Jumps;
pub use laws::the_last_entry_chooses;
pub use refused::JumpRefused;

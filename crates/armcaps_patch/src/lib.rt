//! Plans of patched images: the alternatives of a kernel's image that the cores of a machine may run (Linux,
//! arch/arm64/kernel/alternative.c).
#![tactic(auto)]

mod accepting;
mod buckets;
mod callbacks;
mod checking;
mod choice;
mod choosing;
mod kept;
mod nearby;
mod patched;
mod pieces;
mod planning;
mod refused;
mod selecting;
mod site;
mod slots;
#[cfg(test)]
mod tests;
mod words;

pub use checking::entry_at;
pub use planning::Plan;
pub use refused::PatchRefused;
pub use selecting::enabled_on;

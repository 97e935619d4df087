//! Which processors are meant, by their model, version and revision.
#![tactic(auto)]

mod processor;
mod ranges;

pub use processor::{Fix, MidrRange};
pub use ranges::{affected, in_range};

#[cfg(test)]
mod tests;

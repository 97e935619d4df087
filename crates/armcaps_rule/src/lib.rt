//! The four rules by which the values that unequal cores have of one field become one value.
#![tactic(auto)]

mod combine;
pub mod laws;
mod rule;
#[cfg(test)]
mod tests;

pub use combine::{fold, forced, merge};
pub use rule::Rule;

//! What many machines have in common: the best register set that each of them accepts, and the machine that limits each
//! field.
#![tactic(auto)]

mod common_words;
mod laws;
mod pool_baseline;
mod pooling;
#[cfg(test)]
mod tests;

pub use laws::{groups_keep_their_limits, groups_make_one_baseline};
pub use pool_baseline::Baseline;
pub use pooling::baseline;

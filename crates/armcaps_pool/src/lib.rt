//! A second judge of a patched image. What many machines have in common is re-exported from armcaps_baseline.
#![tactic(auto)]

mod auditing;
mod differing;
mod judging;
mod laws;
mod marks;
mod right_word;
mod sites;
#[cfg(test)]
mod tests;
mod verdict;

pub use armcaps_baseline::{
    Baseline, baseline, groups_keep_their_limits, groups_make_one_baseline,
};
pub use auditing::audit;
pub use laws::differences_are_told;
pub use verdict::Verdict;

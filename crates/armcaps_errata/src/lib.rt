//! The errata of processors that are worked around, and which of them a core has.
#![tactic(auto)]

mod erratum_row;
mod table;

pub use erratum_row::ErratumRow;
pub use table::{affected_by, errata_hold, erratum};

#[cfg(test)]
mod tests;

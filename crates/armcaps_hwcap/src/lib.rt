//! The hwcaps: what programs of users are told of the features that all cores of a machine have.
#![tactic(auto)]

mod advertising;
mod hw_set;
pub mod laws;
mod row;
mod table;

pub use advertising::{core_has, of_system};
pub use hw_set::HwSet;
pub use row::{HwField, HwRow};
pub use table::{HWCAPS, hw_row, hwcaps_hold};

#[cfg(test)]
mod tests;

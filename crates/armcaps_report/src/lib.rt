//! The report of a machine that was brought up, and how causes and registers are written.
#![tactic(auto)]

mod capabilities;
mod causes;
mod cores;
mod demo;
mod fields;
mod group;
mod groups;
mod hwcaps;
mod lengths;
mod pooled;
mod registers;
mod reporting;
mod settled;
mod standing;
#[cfg(test)]
mod tests;
mod text;
mod tracing;
mod user_reads;
mod varying;

pub use causes::push_cause;
pub use demo::{Counts, demo_lines};
pub use group::Group;
pub use pooled::pool_report;
pub use registers::push_register;
pub use reporting::report;
pub use settled::has_report;
pub use standing::count_cores;
pub use text::{NoRoom, Text, push_after, push_between, push_kind, push_number, push_part};
pub use tracing::trace;
pub use user_reads::{ReadRefused, push_read_refused, read_line};

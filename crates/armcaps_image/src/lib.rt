//! What an image's bytes say: the numbers in them, the lowest byte first, and the places that lie within it; and where
//! items begin that stand grouped by the buckets in which they lie.
#![tactic(auto)]

mod begins;
mod bytes;
mod places;
#[cfg(test)]
mod tests;

pub use begins::{begin_of, sum_up};
pub use bytes::{half, put_word, quad, signed, word};
pub use places::{place_below, place_within};

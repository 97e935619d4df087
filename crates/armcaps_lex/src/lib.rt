//! What a command line and a machine text are made of: pieces between separators, and numbers by their digits.
#![tactic(auto)]

mod digits;
mod pieces;

pub use digits::{decimal, hexadecimal, value_of};
pub use pieces::next_piece;

#[cfg(test)]
mod tests;

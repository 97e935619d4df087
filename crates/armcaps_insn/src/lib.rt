//! A64 instructions that take an address from the place where they stand, and what such a word becomes when it moves.
#![tactic(auto)]

mod branch_to;
mod correction;
mod encodings;
mod immediates;
mod instruction;
mod instruction_class;
mod laws;
#[cfg(test)]
mod tests;

pub use branch_to::branch_word;
pub use correction::{FixRefused, correct};
pub use encodings::{NOP, takes_address};
pub use instruction::Insn;
pub use instruction_class::Class;
pub use laws::{decoding_is_one_to_one, moving_has_one_answer, words_stay_or_move};

//! The field tables of the registers, and values of every register and field.
#![tactic(auto)]

mod core_regs;
mod counts;
mod field_row;
pub mod fields;
mod lines;
mod masks;
mod merge;
mod overrides;
mod rows;
mod table;

pub use core_regs::CoreRegs;
pub use counts::count;
pub use field_row::FieldRow;
pub use masks::{fields_mask, hidden_safe, strict_mask, visible_mask};
pub use merge::merge_words;
pub use overrides::Overrides;
pub use table::{field, find, row, tables_hold};

#[cfg(test)]
mod tests;

//! The machine text: what it says of a machine, and where and why another text is refused.
#![tactic(auto)]

mod arguments;
mod form;
mod format;
mod generator;
mod kind;
mod kind_at_line;
pub mod laws;
mod line;
mod lines;
mod machine;
mod number;
mod reader;
mod steps;
mod texts;
mod tokens;

pub use format::Format;
pub use generator::generate;
pub use kind::{TextKind, TextRefused};
pub use machine::Machine;
pub use number::number_up_to;
pub use texts::{TextsRefused, TextsUnread, bytes_from, read_texts};

#[cfg(test)]
mod tests;

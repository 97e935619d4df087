//! The system registers that describe a core, their encodings and names, and instructions that read them.
#![tactic(auto)]

mod encoding;
mod laws;
mod mrs_word;
mod register;
#[cfg(test)]
mod tests;

pub use laws::lists_agree;
pub use mrs_word::MrsWord;
pub use register::SysReg;

//! Reads of ID registers by programs of users, as a system emulates them.
#![tactic(auto)]

mod read;
mod reading;
mod refused;
#[cfg(test)]
mod tests;

pub use read::UserRead;
pub use reading::read_user;
pub use refused::UserRefused;

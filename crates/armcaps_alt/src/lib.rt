//! Alternatives: stretches of a kernel's code that are replaced where a machine has a capability (Linux,
//! arch/arm64/kernel/alternative.c), and what the numbers of their table mean on a machine.
#![tactic(auto)]

mod callback;
mod callback_kind;
mod laws;
mod named_number;
mod number_names;
mod patch_kind;
mod selecting;
mod smccc_conduit;
mod table_entry;
mod table_place;
#[cfg(test)]
mod tests;

pub use callback::callback_word;
pub use callback_kind::CallbackKind;
pub use laws::{known_capabilities_decide, the_last_entry_replaces};
pub use named_number::Named;
pub use number_names::Names;
pub use patch_kind::PatchKind;
pub use selecting::selected;
pub use smccc_conduit::Conduit;
pub use table_entry::Entry;
pub use table_place::Layout;

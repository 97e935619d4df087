//! The capabilities of processors: which of them a core has, which all cores together have, and when a core that comes
//! up later conflicts with what was decided before.
#![tactic(auto)]

mod cap_flags;
mod cap_row;
mod cap_set;
mod deciding;
pub mod laws;
mod scopes;
mod table;

pub use cap_flags::CapFlags;
pub use cap_row::{CapRow, Test};
pub use cap_set::CapSet;
pub use deciding::{conflict, has, system_has};
pub use scopes::{
    is_boot_scope, is_local_scope, is_optional, is_panic, is_permitted, is_system_scope,
};
pub use table::{CAPABILITIES, cap, capabilities_hold, of_name};

#[cfg(test)]
mod tests;

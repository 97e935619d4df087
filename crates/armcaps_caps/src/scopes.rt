//! What the class of a capability says of it.

ghost use Rattle.std.specs.Prelude.{◌≡◌, ◌<◌};
ghost use Rattle.armcaps_caps.specs.Capabilities.{is_boot_scope, is_local_scope, is_optional, is_panic, is_permitted, is_system_scope};
ghost use Rattle.armcaps_caps.specs.Rows.{capability_count};

use crate::cap_flags::CapFlags;
use crate::table::cap;
use bitflags::Flags;

/// Whether it is decided on the boot core, before any other core comes up.
pub fn is_boot_scope(number: u16) -> bool
    requires { number < capability_count }
    ensures { result ≡ is_boot_scope number }
{
    cap(number).unwrap().flags.contains(CapFlags::SCOPE_BOOT)
}

/// Whether it is decided on each core alone.
pub fn is_local_scope(number: u16) -> bool
    requires { number < capability_count }
    ensures { result ≡ is_local_scope number }
{
    cap(number).unwrap().flags.contains(CapFlags::SCOPE_LOCAL)
}

/// Whether it is decided over all early cores together.
pub fn is_system_scope(number: u16) -> bool
    requires { number < capability_count }
    ensures { result ≡ is_system_scope number }
{
    cap(number).unwrap().flags.contains(CapFlags::SCOPE_SYSTEM)
}

/// Whether a core that comes up later may have it though it is not enabled.
pub fn is_permitted(number: u16) -> bool
    requires { number < capability_count }
    ensures { result ≡ is_permitted number }
{
    cap(number).unwrap().flags.contains(CapFlags::PERMITTED)
}

/// Whether a core that comes up later may lack it though it is enabled.
pub fn is_optional(number: u16) -> bool
    requires { number < capability_count }
    ensures { result ≡ is_optional number }
{
    cap(number).unwrap().flags.contains(CapFlags::OPTIONAL)
}

/// Whether a core that comes up later and conflicts with it stops the machine.
pub fn is_panic(number: u16) -> bool
    requires { number < capability_count }
    ensures { result ≡ is_panic number }
{
    cap(number).unwrap().flags.contains(CapFlags::PANIC)
}

//! Which capabilities a machine has enabled.

ghost use Rattle.std.specs.Prelude.{◌≡◌, ◌<◌, ℕ, true};
ghost use Rattle.armcaps_boot.specs.Safety.{is_enabled};
ghost use Rattle.armcaps_caps.specs.Set.{holds};

use armcaps_boot::Boot;
use armcaps_caps::{CAPABILITIES, CapSet};

/// The capabilities that a machine has enabled.
pub fn enabled_on(boot: &Boot) -> CapSet
    requires { boot.now.final ≡ true }
    ensures { (number : ℕ) → number < 53 → holds result number ≡ is_enabled boot.now number }
{
    let mut set = CapSet::empty();
    for number in 0..CAPABILITIES {
        if boot.enabled(number) {
            set.insert(number);
        }
    }
    set
}

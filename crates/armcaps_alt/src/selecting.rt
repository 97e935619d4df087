ghost use Rattle.std.specs.Prelude.{◌≡◌, ◌<◌, ℕ, Bool};
ghost use Rattle.armcaps_alt.specs.Entries.{is_there, selection};
ghost use Rattle.armcaps_alt.specs.Names.{IsKnown};
ghost use Rattle.armcaps_caps.specs.Set.{holds};

use crate::named_number::Named;
use crate::number_names::Names;
use crate::table_entry::Entry;
use armcaps_caps::CapSet;

/// Whether an entry is selected: whether the capability that its number stands for is enabled, or what is given. None
/// exactly where the number isn't named. Any other test that agrees on the 53 capabilities selects the same.
pub fn selected(entry: &Entry, names: &Names, enabled: &CapSet) -> Option<bool>
    ensures value { result ≡ selection names.now (holds enabled.now) entry.now }
    ensures same { (other : ℕ → Bool) → ((number : ℕ) → number < 53 → holds enabled.now number ≡ other number)
        → result ≡ selection names.now other entry.now }
{
    match names.find(entry.number) {
        Some(named) => Some(is_there(named, enabled)),
        None => None,
    }
}

// Whether what a number stands for is there.
fn is_there(named: Named, enabled: &CapSet) -> bool
    requires { IsKnown named }
    ensures value { result ≡ is_there (holds enabled.now) named }
    ensures same { (other : ℕ → Bool) → ((number : ℕ) → number < 53 → holds enabled.now number ≡ other number)
        → result ≡ is_there other named }
{
    match named {
        Named::Cap(number) => enabled.contains(number),
        Named::Given(on) => on,
    }
}

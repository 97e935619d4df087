//! How causes are written.

ghost use Rattle.std.specs.Prelude.{◌≡◌, ◌*◌, ◌++◌, codes};
ghost use Rattle.std.specs.Fmt.{decimal};
ghost use Rattle.armcaps_caps.specs.Capabilities.{capability_name};
ghost use Rattle.armcaps_hwcap.specs.Hwcaps.{hwcap_name};
ghost use Rattle.armcaps_report.specs.Extending.{Extends};
ghost use Rattle.armcaps_report.specs.Texts.{capability_text, cause_text};

use crate::text::{Text, push_after, push_between};
use armcaps_boot::Cause;
use armcaps_caps::cap;
use armcaps_hwcap::hw_row;

/// Adds why a core is parked or stops the machine, as `asid`, `cap 5 MTE`, `hwcap sha1` or `vl 256`. A capability or a
/// hwcap that is not in its table has an empty name.
#[tactic(auto, unfolding(crate::specs::Texts::cause_text))]
pub fn push_cause<T: Text>(text: &mut T, cause: Cause) -> Result<(), T::Error>
    ensures { Extends result T.refused_from (T.bytes text.old) (T.bytes text.new) (cause_text cause) }
{
    match cause {
        Cause::Asid => text.append("asid"),
        Cause::Cap(number) => push_capability(text, number),
        Cause::Hwcap(index) => push_hwcap(text, index),
        Cause::Vector(length) => push_vector_length(text, length),
    }
}

/// Adds a capability by its number and its name.
pub(crate) fn push_capability<T: Text>(text: &mut T, number: u16) -> Result<(), T::Error>
    ensures { Extends result T.refused_from (T.bytes text.old) (T.bytes text.new) (capability_text number) }
{
    push_between(text, "cap ", u64::from(number), " ")?;
    text.append(capability_name(number))
}

// Adds a hwcap by its name.
fn push_hwcap<T: Text>(text: &mut T, index: u16) -> Result<(), T::Error>
    ensures { Extends result T.refused_from (T.bytes text.old) (T.bytes text.new) (codes "hwcap " ++ hwcap_name index) }
{
    text.append("hwcap ")?;
    text.append(hwcap_name(usize::from(index)))
}

// Adds a vector length, which is counted in 128 bits, in bits.
fn push_vector_length<T: Text>(text: &mut T, length: u8) -> Result<(), T::Error>
    ensures { Extends result T.refused_from (T.bytes text.old) (T.bytes text.new)
        (codes "vl " ++ decimal (128 * length)) }
{
    push_after(text, "vl ", 128 * u64::from(length))
}

// A capability's name.
#[tactic(auto, unfolding(armcaps_caps::specs::Capabilities::capability_name))]
fn capability_name(number: u16) -> &'static str
    ensures { result.now ≡ capability_name number }
{
    match cap(number) {
        Some(row) => row.name,
        None => "",
    }
}

/// A hwcap's name.
#[tactic(auto, unfolding(armcaps_hwcap::specs::Hwcaps::hwcap_name))]
pub(crate) fn hwcap_name(index: usize) -> &'static str
    ensures { result.now ≡ hwcap_name index }
{
    match hw_row(index) {
        Some(row) => row.name,
        None => "",
    }
}
